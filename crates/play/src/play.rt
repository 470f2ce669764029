// Play: a day file's bytes in, lines of text out.
ghost use Rattle.std.specs.Prelude.{◌≡◌, ℕ, ◌<◌, ◌≤◌, List, length, IfOk, OnErr};
ghost use Rattle.play.specs.Plays.{Played, PlayedOrNoMemory};

use crate::ending::Ending;
use crate::line::Line;
use crate::page::Page;
use crate::playing::play_file;
use book::book::Book;
use dayfile::fault::Fault;
use std::alloc::{AllocError, Global};

// Plays a file over a totals ledger from zero, in the memory of a reserved book, and prints its lines into `out`: as many
// whole lines as fit, then the bytes that stood there before.
pub fn play_into(book: Book, file: &[u8], out: &mut [u8]) -> Ending
    ensures { Played file.now out.old out.new result }
{
    let mut page = Page::new(out);
    match play_file(book, file, &mut page) {
        Ok(total) => page.finish(total, Ok(())),
        Err(fault) => page.finish(Line::Fault(fault), Err(fault.reason)),
    }
}

// Prints the fault of a file that is too long, for which no book is needed.
fn play_too_long(out: &mut [u8]) -> Ending
    ensures { (file : List ℕ) → 65536 < length file → Played file out.old out.new result }
{
    let fault = Fault::too_long();
    Page::new(out).finish(Line::Fault(fault), Err(fault.reason))
}

// Plays a file in a book of its own, which it reserves. Where there is no memory for the book, nothing is written.
pub fn play(heap: Global, file: &[u8], out: &mut [u8]) -> Result<Ending, AllocError>
    ensures ok { IfOk result (Played file.now out.old out.new) }
    ensures not_too_long { OnErr result (length file.now ≤ 65536) }
    ensures err { OnErr result (out.new ≡ out.old) }
{
    if file.len() > 65_536 {
        return Ok(play_too_long(out));
    }
    let book = Book::reserve(heap)?;
    Ok(play_into(book, file, out))
}

// Play for a host in C, as one number (crate `play_c` exports it): 31 where there is no memory for the book.
pub fn odd_lot_play(heap: Global, file: &[u8], out: &mut [u8]) -> u64
    ensures { PlayedOrNoMemory file.now out.old out.new result }
{
    match play(heap, file, out) {
        Ok(ending) => ending.packed(),
        Err(_) => 31,
    }
}

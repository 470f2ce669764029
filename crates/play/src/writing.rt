// Lines as text.
ghost use Rattle.std.specs.Prelude.{◌≡◌, ◌+◌, ◌<◌, ◌≤◌, [], ◌∷◌, ◌++◌};
ghost use Rattle.arrayvec.specs.ArrayString.{array_string_len};
ghost use Rattle.play.specs.Lines.{text_of};

use crate::line::Line;
use arrayvec::ArrayString;
use book::row::Row;
use itoa::{Buffer, Integer};

// A number in decimal, and the character that ends it.
fn push_number<N: Integer>(text: &mut ArrayString<64>, n: N, end: char)
    requires ascii { end < 128 }
    requires room { array_string_len text.old + N.MAX_STR_LEN + 1 ≤ 64 }
    ensures text { text.new.bytes ≡ text.old.bytes ++ (N.text n ++ (end ∷ [])) }
    ensures len { array_string_len text.new ≤ array_string_len text.old + N.MAX_STR_LEN + 1 }
{
    let mut buffer = Buffer::new();
    text.push_str(buffer.format(n));
    text.push(end);
}

// A row's five numbers.
fn row_text(row: Row) -> ArrayString<64>
    ensures { result.bytes ≡ text_of (Line.Row row) }
{
    let mut text = ArrayString::new();
    push_number(&mut text, row.number, ' ');
    push_number(&mut text, u32::from(row.side), ' ');
    push_number(&mut text, row.shares, ' ');
    push_number(&mut text, row.price, ' ');
    push_number(&mut text, u32::from(row.mark), '\n');
    text
}

// A letter, and two numbers.
fn letter_text<M: Integer, N: Integer>(letter: char, first: M, second: N) -> ArrayString<64>
    requires ascii { letter < 128 }
    requires room { M.MAX_STR_LEN + N.MAX_STR_LEN ≤ 60 }
    ensures { result.bytes ≡ letter ∷ (32 ∷ (M.text first ++ (32 ∷ (N.text second ++ (10 ∷ []))))) }
{
    let mut text = ArrayString::new();
    text.push(letter);
    text.push(' ');
    push_number(&mut text, first, ' ');
    push_number(&mut text, second, '\n');
    text
}

impl Line {
    // The text of a line, with its line feed, held in place: printing allocates nothing. It is made by pushes, since `write!`
    // does not promise that it succeeds, and a line that has room is always printed.
    pub fn text(self) -> ArrayString<64>
        ensures { result.bytes ≡ text_of self }
    {
        match self {
            Line::Row(row) => row_text(row),
            Line::Refused { record, reason } => letter_text('R', record, u32::from(reason)),
            Line::Total { shares, money } => letter_text('T', shares, money),
            Line::Fault(fault) => letter_text('X', fault.place, u32::from(fault.reason)),
        }
    }
}

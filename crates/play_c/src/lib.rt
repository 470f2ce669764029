// The C entry: play, exported by its name to a host in C. c/odd_lot_day.h is its header.
#![tactic(auto)]

ghost use Rattle.play.specs.Plays.{PlayedOrNoMemory};

use std::alloc::Global;

// Play, for a host in C: a pointer and a length for the file's bytes, and the same for the output's. It reserves the book;
// where there is no memory for it, the answer is 31 and nothing is written.
#[unsafe(no_mangle)]
pub extern "C" fn odd_lot_play(heap: Global, file: &[u8], out: &mut [u8]) -> u64
    ensures { PlayedOrNoMemory file.now out.old out.new result }
{
    play::play::odd_lot_play(heap, file, out)
}

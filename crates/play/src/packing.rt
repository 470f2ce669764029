// Endings as numbers, for a host in C.
ghost use Rattle.std.specs.Prelude.{◌≡◌, ◌^◌, ◌<◌};
ghost use Rattle.play.specs.Endings.{end_number, packed};

use crate::ending::Ending;
use market::refusal::Refusal;

// The number of what ended the lines early, or 0.
fn end_number(end: Result<(), Refusal>) -> u32
    ensures { result ≡ end_number end }
{
    match end {
        Ok(()) => 0,
        Err(refusal) => u32::from(refusal),
    }
}

impl Ending {
    // The bytes written times 32, and the number of what ended the lines early.
    pub(crate) fn packed(self) -> u64
        requires { self.written < 2 ^ 58 }
        ensures { result ≡ packed self }
    {
        // `as`, since no `From` makes a u64 of a usize
        self.written as u64 * 32 + u64::from(end_number(self.end))
    }
}

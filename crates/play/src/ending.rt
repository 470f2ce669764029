// How a play ends.
use market::refusal::Refusal;

// How many bytes are written; and what ended the lines early, if anything did: 18 where a line was cut off, else the fault of
// the file.
#[derive(Clone, Copy, PartialEq, Eq, Debug)]
pub struct Ending {
    pub written: usize,
    pub end: Result<(), Refusal>,
}

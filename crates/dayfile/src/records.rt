// The records of a file, one after another.
ghost use Rattle.std.specs.Prelude.{◌≡◌, ◌-◌, length};
ghost use Rattle.std.specs.Iterator.{at_most};
ghost use Rattle.dayfile.specs.Steps.{Passed};

use crate::fault::Fault;
use crate::reading::record_at;
use crate::record::Placed;

// The records of a file from a byte place on. A fault is the last of them.
#[derive(Drop)]
pub struct Records<'a> {
    file: &'a [u8],
    place: usize,
}

impl<'a> Records<'a> {
    // The records from this byte place on.
    pub fn new(file: &'a [u8], place: usize) -> Records<'a>
        ensures file { result.file.now ≡ file.now }
        ensures place { result.place ≡ place }
    {
        Records { file, place }
    }
}

impl<'a> Iterator for Records<'a> {
    type Item = Result<Placed<'a>, Fault>;

    ghost next_gives = { Passed };

    ghost remaining = { λ s. at_most (length s.file.now - s.place) };

    fn next(&mut self) -> Option<Result<Placed<'a>, Fault>> {
        if self.place >= self.file.len() {
            return None;
        }
        let found = record_at(self.file, self.place);
        self.place = match found {
            Ok(found) => self.place + found.record.part().len(),
            Err(_) => self.file.len(),
        };
        Some(found)
    }
}

// Whole files.
ghost use Rattle.dayfile.specs.Files.{Counted};

use crate::fault::Fault;
use crate::reading::record_at;
use crate::records::Records;

// How many records a file has, or its fault. A file without a fault is exactly its records' words joined, start first
// and once.
pub fn count_records(file: &[u8]) -> Result<usize, Fault>
    ensures { Counted file.now result }
{
    if file.len() > 65_536 {
        return Err(Fault::too_long());
    }
    // The start is read apart: where the file has no bytes, it is cut.
    let start = record_at(file, 0)?;
    // Counted by hand: `?` leaves the loop at a fault, which `count` would pass over, and a `try_fold` would hide in a closure.
    let mut count = 1;
    for found in Records::new(file, start.record.part().len()) {
        found?;
        count += 1;
    }
    Ok(count)
}

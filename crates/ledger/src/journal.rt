// A journal over rows that the caller lends, added to a start. The first `used` rows are written. The rows are a slice with
// a count beside it and no Vec, since a posting may not allocate and the caller keeps the rows.
use crate::row::JournalRow;
use crate::start::Start;

#[derive(Drop)]
pub struct Journal<'a, 's> {
    pub(crate) rows: &'a mut [JournalRow],
    pub(crate) start: &'s Start,
    pub(crate) used: usize,
}

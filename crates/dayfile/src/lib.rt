// Day files: words, records as parts of the file, faults with their place.
#![tactic(auto)]

pub mod counting;
pub mod entry;
pub mod fault;
mod kind;
pub mod reading;
pub mod record;
pub mod records;
pub mod says;
mod word;

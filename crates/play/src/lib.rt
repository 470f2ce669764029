// Day files played over a totals ledger, into the caller's bytes.
#![tactic(auto)]

mod calls;
pub mod ending;
mod instruction;
mod line;
mod packing;
mod page;
pub mod play;
mod playing;
mod writing;

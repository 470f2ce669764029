// Two ledgers that are written against the interface alone, as another firm would write its own.
#![tactic(auto)]

pub mod four_sums;
pub mod four_sums_ledger;
pub mod no_places;

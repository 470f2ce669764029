// Contra ledgers: the interface, the totals ledger, the journal of rows, and the law of any list of postings.
#![tactic(auto)]

mod amounts;
pub mod apart;
pub mod fill;
pub mod journal;
pub mod journal_ledger;
pub mod post_all;
pub mod posting;
pub mod postings;
pub mod row;
pub mod start;
mod starting;
pub mod totals;
pub mod totals_ledger;

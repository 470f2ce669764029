// One trading day of one stock, above any contra ledger.
#![tactic(auto)]

pub mod live;
pub mod making;
pub mod orders;
mod posting;
mod refusals;
pub mod rows;
mod settling;

// Tests of the market's terms and of the ledgers, and what a lender of rows is promised.
#![tactic(auto)]

#[cfg(test)]
mod ledgers;
pub mod lender;
#[cfg(test)]
mod limits;
#[cfg(test)]
mod others;
#[cfg(test)]
mod sums;
#[cfg(test)]
mod terms;

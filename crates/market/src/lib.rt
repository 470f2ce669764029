// The terms of the market that every other crate speaks in: sides, kinds, marks and refusals with their numbers,
// the limits of every field, and the one sum of shares by side.
#![tactic(auto)]

pub mod kind;
pub mod limits;
pub mod mark;
pub mod numbered;
pub mod refusal;
pub mod side;
pub mod sided;

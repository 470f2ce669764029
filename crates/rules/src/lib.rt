// The rules of a day: its figures, its calls, and the state machine that every call of a day is proved against.
#![tactic(auto)]

pub mod call;
pub mod examples;
pub mod figures;

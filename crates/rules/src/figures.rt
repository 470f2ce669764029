// The figures of a day.
use book::quote::Quote;

// A day is unopened until an opening is accepted, and closed from the close on, or from a refused making.
#[derive(Clone, Copy, PartialEq, Eq, Debug)]
pub enum Phase {
    Unopened,
    Open,
    Closed,
}

// All that a day knows besides its orders and its ledger.
#[derive(Clone, Copy)]
pub struct Figures {
    pub phase: Phase,
    pub unit: u32,
    pub tag: u32,
    pub time: u32,
    pub quote: Quote,
    // the price of the latest sale, or the prior close
    pub latest: u32,
    // whether that sale was on a plus or zero-plus tick
    pub rising: bool,
    // how many orders have been accepted, which is the latest number
    pub accepted: u32,
}

// The calls of a day, with what they are given.

// Sides, kinds and prices are the raw numbers that the order lines send, 0 for a price that is missing: the day itself
// refuses a number that is none, so no narrower type may stand here.
#[derive(Clone, Copy)]
pub enum Call {
    Order(NewOrder),
    Cancel(u32),
    Quote(NewQuote),
    Clock(u32),
    Opening(NewSale),
    Trade(NewSale),
    Close,
}

// What a making gives.
#[derive(Clone, Copy)]
pub struct NewDay {
    pub unit: u32,
    pub prior_close: u32,
    pub tag: u32,
}

// What an order call gives. A price that the kind does not use is 0.
#[derive(Clone, Copy)]
pub struct NewOrder {
    pub side: u32,
    pub kind: u32,
    pub shares: u32,
    pub limit: u32,
    pub stop: u32,
}

// What a quote call gives. A missing price is 0.
#[derive(Clone, Copy)]
pub struct NewQuote {
    pub bid: u32,
    pub offer: u32,
}

// What an opening or a trade gives.
#[derive(Clone, Copy)]
pub struct NewSale {
    pub price: u32,
    pub volume: u32,
}

// What records say, in plain numbers.

// The values of a record's words. A price that an order's kind has no word for is 0.
// Numbers in place of sides, kinds and options, by a rule of the project: the reader judges no field, the day does.
#[derive(Clone, Copy, PartialEq, Eq, Debug)]
pub enum Entry {
    Start {
        unit: u32,
        prior_close: u32,
        tag: u32,
    },
    Clock {
        time: u32,
    },
    Order {
        side: u32,
        kind: u32,
        shares: u32,
        limit: u32,
        stop: u32,
    },
    Cancel {
        number: u32,
    },
    Quote {
        bid: u32,
        offer: u32,
    },
    Opening {
        price: u32,
        volume: u32,
    },
    Trade {
        price: u32,
        volume: u32,
    },
    Close,
}

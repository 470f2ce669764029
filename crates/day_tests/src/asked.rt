// What calls are given, in one line each.
use rules::call::{NewDay, NewOrder, NewQuote, NewSale};

pub(crate) fn day_of(unit: u32, prior_close: u32, tag: u32) -> NewDay {
    NewDay {
        unit,
        prior_close,
        tag,
    }
}

pub(crate) fn order(side: u32, kind: u32, shares: u32, limit: u32, stop: u32) -> NewOrder {
    NewOrder {
        side,
        kind,
        shares,
        limit,
        stop,
    }
}

pub(crate) fn quote(bid: u32, offer: u32) -> NewQuote {
    NewQuote { bid, offer }
}

pub(crate) fn sale(price: u32, volume: u32) -> NewSale {
    NewSale { price, volume }
}

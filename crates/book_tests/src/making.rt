// What the tests make: orders, sales, and checks of rows.
use book::order::Order;
use book::row::Row;
use book::sale::{RoundLot, is_rising};
use market::kind::Kind;
use market::mark::Mark;
use market::side::Side;
use std::process::Abort;

// An order that came at time 0.
pub(crate) fn order(
    number: u32,
    side: Side,
    kind: Kind,
    shares: u32,
    limit: u32,
    stop: u32,
) -> Order {
    Order {
        number,
        side,
        kind,
        shares,
        limit,
        stop,
        receipt: 0,
        elected: false,
        in_hand: false,
    }
}

pub(crate) fn market_order(number: u32, side: Side, shares: u32) -> Order {
    order(number, side, Kind::Market, shares, 0, 0)
}

// A trade after a latest price of 200,000 that was not rising.
pub(crate) fn trade(price: u32, volume: u32) -> RoundLot {
    RoundLot {
        price,
        volume,
        rising: is_rising(200_000, false, price),
        opening: false,
    }
}

// A report list of 512 places.
pub(crate) fn report() -> [Row; 512] {
    [Row::blank(); 512]
}

// A row's number, shares, price and mark.
pub(crate) fn check_row(
    rt: &impl Abort,
    row: &Row,
    number: u32,
    shares: u32,
    price: u32,
    mark: Mark,
) {
    assert_eq!(rt; row.number, number);
    assert_eq!(rt; row.shares, shares);
    assert_eq!(rt; row.price, price);
    assert_eq!(rt; row.mark, mark);
}

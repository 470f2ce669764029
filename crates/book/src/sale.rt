// Sales of round lots: which of them are rising, and which orders are eligible.
ghost use Rattle.std.specs.Prelude.{◌≡◌};
ghost use Rattle.book.specs.Sales.{is_rising, is_market, within, eligible as is_eligible, elect as elected_at};

use crate::order::Order;
use market::kind::Kind;
use market::side::{MarketSide, Side};
use market::sided::Test;

// A round-lot sale, as a pass down the book sees it: the opening or a trade.
#[derive(Clone, Copy)]
pub struct RoundLot {
    pub price: u32,
    pub volume: u32,
    pub rising: bool,
    pub opening: bool,
}

// Whether a sale is on a plus or zero-plus tick, by the latest sale's price and whether that one was.
pub fn is_rising(latest: u32, was_rising: bool, price: u32) -> bool
    ensures { result ≡ is_rising latest was_rising price }
{
    latest < price || (price == latest && was_rising)
}

// Whether the order is a market order, from the start or since it was elected.
pub fn is_market(order: &Order) -> bool
    ensures { result ≡ is_market order.now.kind order.now.elected }
{
    match order.kind {
        Kind::Market => true,
        Kind::Stop => order.elected,
        Kind::Limit | Kind::StopLimit => false,
    }
}

// Whether the sale may fill the order.
pub fn eligible(order: &Order, sale: &RoundLot) -> bool
    ensures { result ≡ is_eligible sale.now order.now }
{
    match (order.side, order.kind) {
        _ if order.in_hand => false,
        (Side::SellShort, _) if !sale.rising => false,
        (_, Kind::Market) => true,
        (_, Kind::Stop) => order.elected,
        (_, Kind::StopLimit) if !order.elected => false,
        (Side::Buy, Kind::Limit | Kind::StopLimit) => sale.price <= order.limit,
        (Side::SellLong | Side::SellShort, Kind::Limit | Kind::StopLimit) => order.limit
            <= sale.price,
    }
}

// The test of orders that counts the eligible ones in a sum of shares.
impl Test<Order> for RoundLot {
    ghost passes = { is_eligible };

    fn passes(&self, order: &Order) -> bool {
        eligible(order, self)
    }
}

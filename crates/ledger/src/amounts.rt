// What a fill adds to a signed sum.
ghost use Rattle.std.specs.Prelude.{◌≡◌, ◌*◌, ◌≤◌, pos};
ghost use Rattle.ledger.specs.Bounds.{Within};
ghost use Rattle.ledger.specs.Posting.{signed};

use crate::fill::Fill;
use market::side::{MarketSide, Side};

// A number as a customer's buy counts it, and its negative for a sell.
pub(crate) fn by_side(side: Side, n: u64) -> i64
    requires { n ≤ 19800000000 }
    ensures value { result ≡ signed side (pos n) }
    ensures bound { Within n result }
{
    match side.market_side() {
        MarketSide::Buying => n as i64,
        MarketSide::Selling => -(n as i64),
    }
}

// What a fill adds to the money.
pub(crate) fn paid(fill: Fill) -> i64
    requires few { fill.shares ≤ 99 }
    requires cheap { fill.price ≤ 200000000 }
    ensures value { result ≡ signed fill.side (pos (fill.shares * fill.price)) }
    ensures bound { Within 19800000000 result }
{
    by_side(fill.side, fill.money())
}

// Which orders are lawful.
ghost use Rattle.std.specs.Prelude.{◌≡◌};
ghost use Rattle.book.specs.Orders.{lawful as lawful_for, suits as suits_kind};

use crate::order::Order;
use market::limits::{is_odd_lot, is_price};

// A price where the kind has one, and 0 where it has none.
fn suits(has: bool, price: u32) -> bool
    ensures { result ≡ suits_kind has price }
{
    if has { is_price(price) } else { price == 0 }
}

// Whether an order is lawful for a unit of trading.
pub fn is_lawful(unit: u32, order: &Order) -> bool
    ensures { result ≡ lawful_for unit order.now }
{
    is_odd_lot(unit, order.shares)
        && suits(order.kind.has_limit(), order.limit)
        && suits(order.kind.has_stop(), order.stop)
}

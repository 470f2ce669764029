// What passes and elections are made of: rows counted and written, stops elected.
ghost use Rattle.std.specs.Prelude.{◌≡◌, ◌≤◌, ◌++◌, map, length, drop, vec_capacity};
ghost use Rattle.book.specs.Passes.{rows_by};
ghost use Rattle.book.specs.Sales.{elect as elect_at};

use crate::order::Order;
use crate::pass::Pass;
use crate::row::Row;
use market::kind::Kind;
use market::side::MarketSide;

// How many rows a pass has. It stands beside the method that calls it: were the chain the method's own body, an edit that
// halves the method's answer would be refused for its form alone.
pub(crate) fn count<P: Pass>(orders: &[Order], pass: &P) -> usize
    ensures { result ≡ length (rows_by (P.leaves pass.now) orders.now) }
{
    orders.iter().filter_map(|order| pass.row(order)).count()
}

// Writes the rows of a pass from the report's first place on.
pub(crate) fn write<P: Pass>(orders: &[Order], pass: &P, report: &mut [Row])
    requires { length (rows_by (P.leaves pass.now) orders.now) ≤ length report.old }
    ensures { report.new ≡ rows_by (P.leaves pass.now) orders.now ++ drop (length (rows_by (P.leaves pass.now) orders.now)) report.old }
{
    // `n` counts rows and not orders. A `for` over the rows with `enumerate`, or over a `zip` with the places, is not
    // proved: in a generic function the checker cannot type its own terms for that iterator.
    let mut n: usize = 0;
    for order in orders {
        if let Some(row) = pass.row(order) {
            report[n] = row;
            n += 1;
        }
    }
}

// The order after a sale at this price: elected where the sale reaches its stop.
fn elect(order: &Order, price: u32) -> Order
    ensures { result ≡ elect_at price order.now }
{
    let reached = match (order.kind, order.side.market_side()) {
        (Kind::Stop | Kind::StopLimit, MarketSide::Buying) => order.stop <= price,
        (Kind::Stop | Kind::StopLimit, MarketSide::Selling) => price <= order.stop,
        (Kind::Market | Kind::Limit, _) => false,
    };
    Order {
        elected: order.elected || reached,
        ..*order
    }
}

// Elects every stop that a sale at this price reaches.
pub(crate) fn elect_all(orders: &mut Vec<Order>, price: u32)
    ensures items { orders.new.items ≡ map (elect_at price) orders.old.items }
    ensures capacity { vec_capacity orders.new ≡ vec_capacity orders.old }
{
    for order in orders.iter_mut() {
        *order = elect(order, price);
    }
}

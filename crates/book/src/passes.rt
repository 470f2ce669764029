// What each pass does with an order.
ghost use Rattle.std.specs.Prelude.{◌≡◌, ℕ, Bool};
ghost use Rattle.book.specs.Cuts.{below as below_end, cut_row};
ghost use Rattle.book.specs.Quotes.{close_row, quote_row, quote_row_of, row_at, timer_row};
ghost use Rattle.book.specs.Sales.{sale_mark};

use crate::order::Order;
use crate::pass::{ClosePass, Pass, SalePass, TimerPass};
use crate::quote::Quote;
use crate::row::Row;
use crate::sale::{RoundLot, eligible, is_market};
use market::mark::Mark;
use market::side::{MarketSide, Side};

// The row of an order at a price that may be missing.
fn row_at(order: &Order, price: Option<u32>, mark: Mark) -> Option<Row>
    ensures { result ≡ row_at price mark order.now }
{
    price.map(|price| order.row(price, mark))
}

// Whether a number comes before the end of the fills, if they end.
fn is_below(end: Option<u64>, number: u32) -> bool
    ensures { result ≡ below_end end number }
{
    end.is_none_or(|end| u64::from(number) < end)
}

fn sale_mark(sale: &RoundLot) -> Mark
    ensures { result ≡ sale_mark sale.now }
{
    if sale.opening {
        Mark::Opening
    } else {
        Mark::Sale
    }
}

// The fill of a waiting market order at the quote, where its price is there.
fn quote_row(order: &Order, quote: Quote) -> Option<Row>
    ensures { result ≡ quote_row quote order.now }
{
    if order.in_hand || !is_market(order) {
        return None;
    }
    match order.side {
        Side::Buy => row_at(order, quote.offer, Mark::Offer),
        Side::SellLong => row_at(order, quote.bid, Mark::Bid),
        Side::SellShort => None,
    }
}

impl Pass for SalePass {
    ghost leaves = { cut_row };

    fn row(&self, order: &Order) -> Option<Row> {
        let end = match order.side.market_side() {
            MarketSide::Buying => self.buys,
            MarketSide::Selling => self.sells,
        };
        let at_any_volume = self.sale.opening && is_market(order);
        if eligible(order, &self.sale) && (at_any_volume || is_below(end, order.number)) {
            Some(order.row(self.sale.price, sale_mark(&self.sale)))
        } else {
            None
        }
    }
}

impl Pass for TimerPass {
    ghost leaves = { λ t o. timer_row t.time t.quote o };

    fn row(&self, order: &Order) -> Option<Row> {
        if u64::from(order.receipt) + 30_000 < u64::from(self.time) {
            quote_row(order, self.quote)
        } else {
            None
        }
    }
}

impl Pass for ClosePass {
    ghost leaves = { λ c o. close_row c.opened c.quote o };

    fn row(&self, order: &Order) -> Option<Row> {
        let fill = if self.opened {
            quote_row(order, self.quote)
        } else {
            None
        };
        fill.or_else(|| Some(order.row(0, Mark::Lapse)))
    }
}

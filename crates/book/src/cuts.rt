// Where a sale stops on each side of the market, in one pass down the book for each.
ghost use Rattle.std.specs.Prelude.{◌≡◌, ℕ, nat_lt};
ghost use Rattle.book.specs.Books.{orders_of};
ghost use Rattle.book.specs.Cuts.{below as below_end, cut_row};
ghost use Rattle.book.specs.Sales.{ahead, reach as reach_of, sale_row};
ghost use Rattle.book.specs.declared.order.Order.{Order};

use crate::book::Book;
use crate::order::Order;
use crate::pass::SalePass;
use crate::sale::RoundLot;
use market::side::MarketSide;
use market::sided::{shares_where, tested_share};

impl Book {
    // M + V.
    fn reach(&self, sale: &RoundLot) -> u64
        ensures { result ≡ reach_of sale.now (orders_of self.now) }
    {
        let buys = shares_where(self.orders(), MarketSide::Buying, sale);
        let sells = shares_where(self.orders(), MarketSide::Selling, sale);
        buys.min(sells) + u64::from(sale.volume)
    }

    // The number from which on orders of this side have the limit's shares ahead or more; none where no number has.
    fn cut(&self, sale: &RoundLot, which: MarketSide, limit: u64) -> Option<u64>
        ensures { (n : ℕ) → nat_lt (ahead sale.now (orders_of self.now) which n) limit ≡ below_end result n }
    {
        if limit == 0 {
            return Some(0);
        }
        let mut sum: u64 = 0;
        for order in self.orders() {
            sum += u64::from(tested_share(order, which, sale));
            if sum >= limit {
                return Some(u64::from(order.number) + 1);
            }
        }
        None
    }

    // The pass of a sale: it takes out of the book just the orders that the sale fills.
    pub fn sale(&self, sale: RoundLot) -> SalePass
        ensures sale { result.sale ≡ sale }
        ensures rows { (o : Order) → cut_row result o ≡ sale_row sale (orders_of self.now) o }
    {
        let limit = self.reach(&sale);
        SalePass {
            sale,
            buys: self.cut(&sale, MarketSide::Buying, limit),
            sells: self.cut(&sale, MarketSide::Selling, limit),
        }
    }
}

// Orders.
ghost use Rattle.std.specs.Prelude.{◌≡◌};

use crate::row::Row;
use market::kind::Kind;
use market::mark::Mark;
use market::side::Side;
use market::sided::Sided;

// A live order. A price that its kind does not use is 0, and no Option: an order shows its fields as they were given, and
// the book refuses, by a number, a price that goes against the kind.
#[derive(Clone, Copy)]
pub struct Order {
    pub number: u32,
    pub side: Side,
    pub kind: Kind,
    pub shares: u32,
    pub limit: u32,
    pub stop: u32,
    // the clock's time when it came
    pub receipt: u32,
    // a stop whose price a sale has reached: a market or limit order from then on
    pub elected: bool,
    // taken out of the automatic rules by the specialist, who holds a ticket for it
    pub in_hand: bool,
}

impl Order {
    ghost use Rattle.book.specs.Sales.{row_of};

    // The row of the order, where it leaves the book at a price.
    pub fn row(&self, price: u32, mark: Mark) -> Row
        ensures { result ≡ row_of price mark self.now }
    {
        Row {
            number: self.number,
            side: self.side,
            shares: self.shares,
            price,
            mark,
        }
    }
}

impl Sided for Order {
    ghost side = { λ o. o.side };

    ghost shares = { λ o. o.shares };

    fn side(&self) -> Side {
        self.side
    }

    fn shares(&self) -> u32 {
        self.shares
    }
}

// Passes down the book: a sale, the timer, the close.
ghost use Rattle.std.specs.Prelude.{◌≡◌, Option};
ghost use Rattle.book.specs.declared.order.Order.{Order};
ghost use Rattle.book.specs.declared.row.Row.{Row};

use crate::order::Order;
use crate::quote::Quote;
use crate::row::Row;
use crate::sale::RoundLot;

// Says of each order whether it leaves the book, and with which row. A trait and no closure: its ghost function is what the
// promises of a pass speak of, and of a closure each public call would first require that it may be called.
pub trait Pass {
    ghost leaves: { Self → Order → Option Row };

    fn row(&self, order: &Order) -> Option<Row>
        ensures { result ≡ leaves self.now order.now };
}

// A sale, and the number on each side of the market at which it stops, if it does.
#[derive(Clone, Copy)]
pub struct SalePass {
    pub(crate) sale: RoundLot,
    pub(crate) buys: Option<u64>,
    pub(crate) sells: Option<u64>,
}

// The timer at a time, with the quote.
#[derive(Clone, Copy)]
pub struct TimerPass {
    pub time: u32,
    pub quote: Quote,
}

// The close of an open or an unopened day, with the quote.
#[derive(Clone, Copy)]
pub struct ClosePass {
    pub opened: bool,
    pub quote: Quote,
}

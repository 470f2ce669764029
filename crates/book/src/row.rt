// The rows of reports.
ghost use Rattle.std.specs.Prelude.{◌≡◌};
ghost use Rattle.market.specs.declared.mark.Mark.TheVariants.{Lapse};
ghost use Rattle.market.specs.declared.side.Side.TheVariants.{Buy};

use market::mark::Mark;
use market::side::Side;
use market::sided::Sided;

// A row of a report: a fill, or a lapse at price 0.
#[derive(Clone, Copy)]
pub struct Row {
    pub number: u32,
    pub side: Side,
    pub shares: u32,
    pub price: u32,
    pub mark: Mark,
}

impl Row {
    // A row for lists that are lent to a call: no order's, no shares.
    pub fn blank() -> Row
        ensures { result ≡ record { number = 0; side = Buy; shares = 0; price = 0; mark = Lapse } }
    {
        Row {
            number: 0,
            side: Side::Buy,
            shares: 0,
            price: 0,
            mark: Mark::Lapse,
        }
    }
}

impl Sided for Row {
    ghost side = { λ r. r.side };

    ghost shares = { λ r. r.shares };

    fn side(&self) -> Side {
        self.side
    }

    fn shares(&self) -> u32 {
        self.shares
    }
}

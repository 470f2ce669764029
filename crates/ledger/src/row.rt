// A row of a journal.
ghost use Rattle.std.specs.Prelude.{◌≡◌, ◌≤◌};
ghost use Rattle.market.specs.declared.side.Side.TheVariants.{Buy};

use crate::fill::Fill;
use market::side::Side;
use market::sided::Sided;

// A posted fill. No row holds more than a posting may.
#[derive(Clone, Copy)]
pub struct JournalRow {
    pub fill: Fill,
    ghost few: { fill.shares ≤ 99 },
    ghost cheap: { fill.price ≤ 200000000 },
}

impl JournalRow {
    // A row for lists that are lent to a journal: no shares, no price.
    pub fn blank() -> JournalRow
        ensures { result.fill ≡ record { side = Buy; shares = 0; price = 0 } }
    {
        JournalRow {
            fill: Fill {
                side: Side::Buy,
                shares: 0,
                price: 0,
            },
        }
    }
}

impl Sided for JournalRow {
    ghost side = { λ r. r.fill.side };

    ghost shares = { λ r. r.fill.shares };

    fn side(&self) -> Side {
        self.fill.side
    }

    fn shares(&self) -> u32 {
        self.fill.shares
    }
}

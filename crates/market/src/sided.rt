// Records that have a side and a share count, and the one sum of their shares by side of the market.
ghost use Rattle.std.specs.Prelude.{◌≡◌, ℕ, ◌*◌, ◌≤◌, Bool, true, if◌then◌else◌, filter};
ghost use Rattle.market.specs.declared.side.Side.{Side};
ghost use Rattle.market.specs.Sums.{counted, shares_on, sum_on};

use crate::side::{MarketSide, Side};

// Each record says with two short methods which of its fields these are. A struct of both, held by each record, would be no
// plainer: every reader of a record's side would go through it.
pub trait Sided {
    ghost side: { Self → Side };

    ghost shares: { Self → ℕ };

    fn side(&self) -> Side
        ensures { result ≡ side self.now };

    fn shares(&self) -> u32
        ensures { result ≡ shares self.now };
}

// What a record of this side and share count adds to the sum of a side of the market.
fn share_of(which: MarketSide, side: Side, n: u32) -> u32
    ensures { result ≡ shares_on which side n }
{
    if side.market_side() == which { n } else { 0 }
}

// A test of records: which of them a sum is to count. A trait and no closure: its ghost function stands in the sum's promise,
// and of a closure a caller would first have to show that it may be called.
pub trait Test<T> {
    ghost passes: { Self → T → Bool };

    fn passes(&self, item: &T) -> bool
        ensures { result ≡ passes self.now item.now };
}

// The test that every record passes.
#[derive(Clone, Copy)]
pub struct Every {}

impl<T> Test<T> for Every {
    ghost passes = { λ _ _. true };

    fn passes(&self, _item: &T) -> bool {
        true
    }
}

// What a record adds to the sum of a side of the market, under a test.
pub fn tested_share<T: Sided, C: Test<T>>(item: &T, which: MarketSide, test: &C) -> u32
    ensures { result ≡ (if C.passes test.now item.now then shares_on which (T.side item.now) (T.shares item.now) else 0) }
{
    if test.passes(item) {
        share_of(which, item.side(), item.shares())
    } else {
        0
    }
}

// The shares on a side of the market, of those among the first 65,536 records that pass a test.
pub fn shares_where<T: Sided, C: Test<T>>(records: &[T], which: MarketSide, test: &C) -> u64
    ensures value { result ≡ sum_on T.side T.shares which (filter (C.passes test.now) (counted records.now)) }
    ensures bound { result ≤ 4294967295 * 65536 }
{
    let first = &records[0..records.len().min(65_536)];
    let mut sum: u64 = 0;
    for record in first {
        sum += u64::from(tested_share(record, which, test));
    }
    sum
}

// The shares on a side of the market, of the first 65,536 records; later ones do not count.
pub fn shares_on<T: Sided>(records: &[T], which: MarketSide) -> u64
    ensures value { result ≡ sum_on T.side T.shares which (counted records.now) }
    ensures bound { result ≤ 4294967295 * 65536 }
{
    shares_where(records, which, &Every {})
}

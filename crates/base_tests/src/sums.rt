// The sum of shares by side, over no record, some, and one more than counts.
use ledger::fill::Fill;
use ledger::row::JournalRow;
use market::side::{MarketSide, Side};
use market::sided::{Sided, shares_on};
use std::test::Fail;

// A record that is none of the product's own.
#[derive(Clone, Copy)]
struct Slip {
    side: Side,
    shares: u32,
}

impl Sided for Slip {
    ghost side = { λ s. s.side };

    ghost shares = { λ s. s.shares };

    fn side(&self) -> Side {
        self.side
    }

    fn shares(&self) -> u32 {
        self.shares
    }
}

#[test]
fn none_and_some(rt: HostRuntime) {
    let none: [Slip; 0] = [];
    assert_eq!(rt; shares_on(&none, MarketSide::Buying), 0);
    assert_eq!(rt; shares_on(&none, MarketSide::Selling), 0);
    let some = [
        Slip {
            side: Side::Buy,
            shares: 60,
        },
        Slip {
            side: Side::SellLong,
            shares: 40,
        },
        Slip {
            side: Side::SellShort,
            shares: u32::MAX,
        },
        Slip {
            side: Side::Buy,
            shares: 5,
        },
    ];
    assert_eq!(rt; shares_on(&some, MarketSide::Buying), 65);
    assert_eq!(rt; shares_on(&some, MarketSide::Selling), 4_294_967_335);
}

#[test]
fn too_many(rt: HostRuntime) -> Result<(), Fail> {
    let row = JournalRow {
        fill: Fill {
            side: Side::SellShort,
            shares: 2,
            price: 1,
        },
    };
    let rows = vec![in rt.alloc(); row; 65_537]?;
    assert_eq!(rt; shares_on(rows.as_slice(), MarketSide::Selling), 131_072);
    assert_eq!(rt; shares_on(rows.as_slice(), MarketSide::Buying), 0);
    Ok(())
}

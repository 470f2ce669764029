// The side of an order: what the customer does.
ghost use Rattle.std.specs.Prelude.{◌≡◌, Some};
ghost use Rattle.market.specs.Names.{side_name};
ghost use Rattle.market.specs.Terms.{Reads, side_number, market_side};

use crate::numbered::{Numbered, UnknownNumber};
use std::fmt;

#[derive(Clone, Copy, PartialEq, Eq, Debug)]
pub enum Side {
    Buy = 1,
    SellLong = 2,
    SellShort = 3,
}

// The market has two sides: long and short sells are one.
#[derive(Clone, Copy, PartialEq, Eq, Debug)]
pub enum MarketSide {
    Buying,
    Selling,
}

impl Side {
    // The side of the market that an order of this side stands on.
    pub fn market_side(self) -> MarketSide
        ensures { result ≡ market_side self }
    {
        match self {
            Side::Buy => MarketSide::Buying,
            Side::SellLong | Side::SellShort => MarketSide::Selling,
        }
    }
}

impl From<Side> for u32 {
    ghost from_gives = { λ side n. n ≡ side_number side };

    fn from(side: Side) -> u32 {
        side as u32
    }
}

impl TryFrom<u32> for Side {
    type Error = UnknownNumber;

    ghost try_from_gives = { Reads side_number };

    fn try_from(n: u32) -> Result<Side, UnknownNumber> {
        match n {
            1 => Ok(Side::Buy),
            2 => Ok(Side::SellLong),
            3 => Ok(Side::SellShort),
            _ => Err(UnknownNumber(n)),
        }
    }
}

impl Numbered for Side {
    ghost number = { side_number };

    ghost counts = { λ _ _ h. h };

    ghost reads = { λ _ _ h. h };
}

impl fmt::Display for Side {
    ghost output = { λ side. Some (side_name side) };

    fn fmt<W: fmt::Write>(&self, f: &mut fmt::Formatter<W>) -> fmt::Result {
        f.write_str(match self {
            Side::Buy => "buy",
            Side::SellLong => "sell long",
            Side::SellShort => "sell short",
        })
    }
}

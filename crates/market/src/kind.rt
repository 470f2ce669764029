// The kind of an order, and the prices that it has.
ghost use Rattle.std.specs.Prelude.{◌≡◌, Some};
ghost use Rattle.market.specs.Names.{kind_name};
ghost use Rattle.market.specs.Terms.{Reads, has_limit, has_stop, kind_number};

use crate::numbered::{Numbered, UnknownNumber};
use std::fmt;

#[derive(Clone, Copy, PartialEq, Eq, Debug)]
pub enum Kind {
    Market = 1,
    Limit = 2,
    Stop = 3,
    StopLimit = 4,
}

impl Kind {
    // Whether the kind has a limit price.
    pub fn has_limit(self) -> bool
        ensures { result ≡ has_limit self }
    {
        match self {
            Kind::Limit | Kind::StopLimit => true,
            Kind::Market | Kind::Stop => false,
        }
    }

    // Whether the kind has a stop price.
    pub fn has_stop(self) -> bool
        ensures { result ≡ has_stop self }
    {
        match self {
            Kind::Stop | Kind::StopLimit => true,
            Kind::Market | Kind::Limit => false,
        }
    }
}

impl From<Kind> for u32 {
    ghost from_gives = { λ kind n. n ≡ kind_number kind };

    fn from(kind: Kind) -> u32 {
        kind as u32
    }
}

impl TryFrom<u32> for Kind {
    type Error = UnknownNumber;

    ghost try_from_gives = { Reads kind_number };

    fn try_from(n: u32) -> Result<Kind, UnknownNumber> {
        match n {
            1 => Ok(Kind::Market),
            2 => Ok(Kind::Limit),
            3 => Ok(Kind::Stop),
            4 => Ok(Kind::StopLimit),
            _ => Err(UnknownNumber(n)),
        }
    }
}

impl Numbered for Kind {
    ghost number = { kind_number };

    ghost counts = { λ _ _ h. h };

    ghost reads = { λ _ _ h. h };
}

impl fmt::Display for Kind {
    ghost output = { λ kind. Some (kind_name kind) };

    fn fmt<W: fmt::Write>(&self, f: &mut fmt::Formatter<W>) -> fmt::Result {
        f.write_str(match self {
            Kind::Market => "market",
            Kind::Limit => "limit",
            Kind::Stop => "stop",
            Kind::StopLimit => "stop limit",
        })
    }
}

// What a report row says of its order: by which rule it was filled, or that it lapsed.
ghost use Rattle.std.specs.Prelude.{◌≡◌};
ghost use Rattle.market.specs.Terms.{Reads, mark_number};

use crate::numbered::{Numbered, UnknownNumber};

#[derive(Clone, Copy, PartialEq, Eq, Debug)]
pub enum Mark {
    Opening = 1,
    Sale = 2,
    Offer = 3,
    Bid = 4,
    Hand = 5,
    Lapse = 6,
}

impl From<Mark> for u32 {
    ghost from_gives = { λ mark n. n ≡ mark_number mark };

    fn from(mark: Mark) -> u32 {
        mark as u32
    }
}

impl TryFrom<u32> for Mark {
    type Error = UnknownNumber;

    ghost try_from_gives = { Reads mark_number };

    fn try_from(n: u32) -> Result<Mark, UnknownNumber> {
        match n {
            1 => Ok(Mark::Opening),
            2 => Ok(Mark::Sale),
            3 => Ok(Mark::Offer),
            4 => Ok(Mark::Bid),
            5 => Ok(Mark::Hand),
            6 => Ok(Mark::Lapse),
            _ => Err(UnknownNumber(n)),
        }
    }
}

impl Numbered for Mark {
    ghost number = { mark_number };

    ghost counts = { λ _ _ h. h };

    ghost reads = { λ _ _ h. h };
}

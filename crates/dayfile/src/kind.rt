// The kinds of words.
ghost use Rattle.std.specs.Prelude.{◌≡◌, ok_or};
ghost use Rattle.dayfile.specs.Kinds.{word_kind_of};

use market::numbered::UnknownNumber;

// What a word's value is, with the number that the top four bits of the word have. Unit, prior close and tag make a
// start; limit and stop follow an order.
#[derive(Clone, Copy, PartialEq, Eq, Debug)]
pub enum WordKind {
    Time = 1,
    Order = 2,
    Limit = 3,
    Stop = 4,
    Cancel = 5,
    Bid = 6,
    Offer = 7,
    OpeningPrice = 8,
    TradePrice = 9,
    Volume = 10,
    Close = 11,
    Unit = 12,
    PriorClose = 13,
    Tag = 14,
}

// 0 and 15 are no kinds.
impl TryFrom<u32> for WordKind {
    type Error = UnknownNumber;

    ghost try_from_gives = { λ n r. r ≡ ok_or (word_kind_of n) (record { 0 = n }) };

    fn try_from(n: u32) -> Result<WordKind, UnknownNumber> {
        match n {
            1 => Ok(WordKind::Time),
            2 => Ok(WordKind::Order),
            3 => Ok(WordKind::Limit),
            4 => Ok(WordKind::Stop),
            5 => Ok(WordKind::Cancel),
            6 => Ok(WordKind::Bid),
            7 => Ok(WordKind::Offer),
            8 => Ok(WordKind::OpeningPrice),
            9 => Ok(WordKind::TradePrice),
            10 => Ok(WordKind::Volume),
            11 => Ok(WordKind::Close),
            12 => Ok(WordKind::Unit),
            13 => Ok(WordKind::PriorClose),
            14 => Ok(WordKind::Tag),
            _ => Err(UnknownNumber(n)),
        }
    }
}

// Why a call is refused: the whole list, by name. Of several that fit, a call gives the first.
ghost use Rattle.std.specs.Prelude.{◌≡◌};
ghost use Rattle.market.specs.Terms.{Reads, refusal_number};
ghost use Rattle.market.specs.declared.refusal.Refusal.TheVariants.{BadField};

use crate::numbered::{Numbered, UnknownNumber};

#[derive(Clone, Copy, PartialEq, Eq, Debug)]
pub enum Refusal {
    // the day is closed
    DayClosed = 1,
    // the day is unopened
    DayUnopened = 2,
    // the day is already open
    DayOpen = 3,
    // a field is out of its range, or a price goes against the kind
    BadField = 4,
    // the time is earlier than the clock's
    TimeEarlier = 5,
    // bid and offer are both there and the bid is not below the offer
    QuoteCrossed = 6,
    // 60,000 orders have been accepted
    AcceptedFull = 7,
    // 512 orders are live
    BookFull = 8,
    // no live order has this number
    NoSuchOrder = 9,
    // the order is in hand
    OrderInHand = 10,
    // the order is no market order of side 1 or 2, or its price is there
    NotForTicket = 11,
    // the ticket is not good
    BadTicket = 12,
    // the report list has fewer places than the call has rows
    ReportFull = 13,
    // the ledger has fewer places than the call has postings
    LedgerFull = 14,
    // the file is longer than 65,536 bytes
    FileTooLong = 15,
    // the file ends inside a word or a record
    FileCut = 16,
    // a word's kind cannot stand there, or its unused bits are not zero
    BadWord = 17,
    // the output bytes end before the printed lines do
    OutputShort = 18,
}

impl From<Refusal> for u32 {
    ghost from_gives = { λ refusal n. n ≡ refusal_number refusal };

    fn from(refusal: Refusal) -> u32 {
        refusal as u32
    }
}

impl TryFrom<u32> for Refusal {
    type Error = UnknownNumber;

    ghost try_from_gives = { Reads refusal_number };

    fn try_from(n: u32) -> Result<Refusal, UnknownNumber> {
        match n {
            1 => Ok(Refusal::DayClosed),
            2 => Ok(Refusal::DayUnopened),
            3 => Ok(Refusal::DayOpen),
            4 => Ok(Refusal::BadField),
            5 => Ok(Refusal::TimeEarlier),
            6 => Ok(Refusal::QuoteCrossed),
            7 => Ok(Refusal::AcceptedFull),
            8 => Ok(Refusal::BookFull),
            9 => Ok(Refusal::NoSuchOrder),
            10 => Ok(Refusal::OrderInHand),
            11 => Ok(Refusal::NotForTicket),
            12 => Ok(Refusal::BadTicket),
            13 => Ok(Refusal::ReportFull),
            14 => Ok(Refusal::LedgerFull),
            15 => Ok(Refusal::FileTooLong),
            16 => Ok(Refusal::FileCut),
            17 => Ok(Refusal::BadWord),
            18 => Ok(Refusal::OutputShort),
            _ => Err(UnknownNumber(n)),
        }
    }
}

impl Numbered for Refusal {
    ghost number = { refusal_number };

    ghost counts = { λ _ _ h. h };

    ghost reads = { λ _ _ h. h };
}

// A number that no term has is a bad field, so that `?` refuses it.
impl From<UnknownNumber> for Refusal {
    ghost from_gives = { λ _ refusal. refusal ≡ BadField };

    fn from(_: UnknownNumber) -> Refusal {
        Refusal::BadField
    }
}

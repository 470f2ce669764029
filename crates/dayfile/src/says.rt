// What records say.
ghost use Rattle.std.specs.Prelude.{◌≡◌, ◌<◌, slice_index};
ghost use Rattle.dayfile.specs.Records.{entry_of, order_of, part_of};
ghost use Rattle.dayfile.specs.Words.{value_at};

use crate::entry::Entry;
use crate::record::Record;
use market::kind::Kind;

// The byte at a place of a record's part; 0 past its end, where no record that was read has a word.
fn byte_at(part: &[u8], at: usize) -> u8
    ensures { result ≡ slice_index part.now at }
{
    part.get(at).copied().unwrap_or(0)
}

// The value of the word at a place of a record's part. Byte by byte, since the promise also holds where the part ends
// inside the word, and a pattern of four bytes would be no plainer with that case beside it.
fn value_at(part: &[u8], at: usize) -> u32
    requires { at < 9 }
    ensures { result ≡ value_at part.now at }
{
    let word = u32::from_be_bytes([
        byte_at(part, at),
        byte_at(part, at + 1),
        byte_at(part, at + 2),
        byte_at(part, at + 3),
    ]);
    word % 0x1000_0000
}

// The fields of an order, from the values of its words.
#[tactic(auto, using(crate::proofs::Prices::no_prices))]
fn order_of(first: u32, second: u32, third: u32) -> Entry
    ensures { result ≡ order_of first second third }
{
    let kind = first / 256 % 256;
    let (limit, stop) = match Kind::try_from(kind) {
        Ok(Kind::Limit) => (second, 0),
        Ok(Kind::Stop) => (0, second),
        Ok(Kind::StopLimit) => (second, third),
        Ok(Kind::Market) | Err(_) => (0, 0),
    };
    Entry::Order {
        side: first / 65_536,
        kind,
        shares: first % 256,
        limit,
        stop,
    }
}

impl Record<'_> {
    // The bytes of the record.
    pub fn part(&self) -> &[u8]
        ensures { result.now ≡ part_of self.now }
    {
        match self {
            Record::Start(part)
            | Record::Clock(part)
            | Record::Order(part)
            | Record::Cancel(part)
            | Record::Quote(part)
            | Record::Opening(part)
            | Record::Trade(part)
            | Record::Close(part) => part,
        }
    }

    // The values of the record's words.
    pub fn entry(&self) -> Entry
        ensures { result ≡ entry_of self.now }
    {
        match self {
            Record::Start(part) => Entry::Start {
                unit: value_at(part, 0),
                prior_close: value_at(part, 4),
                tag: value_at(part, 8),
            },
            Record::Clock(part) => Entry::Clock {
                time: value_at(part, 0),
            },
            Record::Order(part) => {
                order_of(value_at(part, 0), value_at(part, 4), value_at(part, 8))
            }
            Record::Cancel(part) => Entry::Cancel {
                number: value_at(part, 0),
            },
            Record::Quote(part) => Entry::Quote {
                bid: value_at(part, 0),
                offer: value_at(part, 4),
            },
            Record::Opening(part) => Entry::Opening {
                price: value_at(part, 0),
                volume: value_at(part, 4),
            },
            Record::Trade(part) => Entry::Trade {
                price: value_at(part, 0),
                volume: value_at(part, 4),
            },
            Record::Close(_) => Entry::Close,
        }
    }
}

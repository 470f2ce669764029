// Records, read from a file.
ghost use Rattle.std.specs.Prelude.{◌≡◌, ◌==◌, true, false, Ok};
ghost use Rattle.dayfile.specs.Faults.{after_order, gaps_clear};
ghost use Rattle.dayfile.specs.Files.{RecordAt};
ghost use Rattle.dayfile.specs.Reading.{Found, WordRead};
ghost use Rattle.dayfile.specs.declared.kind.WordKind.TheVariants.{Order as OrderWord};

use crate::fault::Fault;
use crate::kind::WordKind;
use crate::record::{Placed, Record};
use crate::word::{Rest, Word};
use market::kind::Kind;
use market::refusal::Refusal;

// Whether the bits of an order's first value beside its fields are zero.
fn gaps_clear(value: u32) -> bool
    ensures { result ≡ gaps_clear value }
{
    value / 65_536 < 4 && value / 256 % 256 < 8
}

// The words that follow an order's first word. An order whose kind is no kind has none.
#[tactic(auto, using(crate::proofs::Prices::no_prices))]
fn after_order(value: u32) -> &'static [WordKind]
    ensures { result.now ≡ after_order value }
{
    match Kind::try_from(value / 256 % 256) {
        Ok(Kind::Limit) => &[WordKind::Limit],
        Ok(Kind::Stop) => &[WordKind::Stop],
        Ok(Kind::StopLimit) => &[WordKind::Limit, WordKind::Stop],
        Ok(Kind::Market) | Err(_) => &[],
    }
}

impl<'a> Rest<'a> {
    // The first record of a file.
    fn start(self) -> Result<Record<'a>, Fault>
        ensures { Found true self.entry result }
    {
        self.expect(0, WordKind::Unit)?;
        self.words(&[WordKind::PriorClose, WordKind::Tag])
            .map(Record::Start)
    }

    // An order, of which the first word was read.
    fn order(self, word: Word) -> Result<Record<'a>, Fault>
        requires read { WordRead self 0 (Ok word) }
        requires kind { word.kind ≡ OrderWord }
        ensures { Found false self.entry result }
    {
        if !gaps_clear(word.value) {
            return Err(self.fault(Refusal::BadWord));
        }
        let part = self.words(after_order(word.value))?;
        Ok(Record::Order(part))
    }

    // A record after the first.
    fn later(self) -> Result<Record<'a>, Fault>
        ensures { Found false self.entry result }
    {
        let word = self.word(0)?;
        match word.kind {
            WordKind::Time => self.words(&[]).map(Record::Clock),
            WordKind::Order => self.order(word),
            WordKind::Cancel => self.words(&[]).map(Record::Cancel),
            WordKind::Bid => self.words(&[WordKind::Offer]).map(Record::Quote),
            WordKind::OpeningPrice => self.words(&[WordKind::Volume]).map(Record::Opening),
            WordKind::TradePrice => self.words(&[WordKind::Volume]).map(Record::Trade),
            WordKind::Close if word.value == 0 => self.words(&[]).map(Record::Close),
            _ => Err(self.fault(Refusal::BadWord)),
        }
    }

    // The record here: the start at place 0 of a file, and a later record elsewhere.
    fn record(self) -> Result<Record<'a>, Fault>
        ensures { Found (self.entry.place == 0) self.entry result }
    {
        if self.place == 0 {
            self.start()
        } else {
            self.later()
        }
    }
}

// The record at a byte place of a file: the start at place 0, and a later record elsewhere.
pub fn record_at(file: &[u8], at: usize) -> Result<Placed<'_>, Fault>
    ensures { RecordAt file.now at result }
{
    let Some(bytes) = file.get(at..) else {
        return Err(Fault {
            reason: Refusal::FileCut,
            place: at,
        });
    };
    let rest = Rest { bytes, place: at };
    Ok(Placed {
        record: rest.record()?,
        place: at,
    })
}

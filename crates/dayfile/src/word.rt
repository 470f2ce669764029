// Words, read from what is left of a file at a record.
ghost use Rattle.std.specs.Prelude.{◌≡◌, ◌≤◌, length};
ghost use Rattle.dayfile.specs.Reading.{Expected, WordRead, WordsRead};

use crate::fault::Fault;
use crate::kind::WordKind;
use market::refusal::Refusal;

// A word: its kind and its value.
#[derive(Clone, Copy)]
pub(crate) struct Word {
    pub(crate) kind: WordKind,
    pub(crate) value: u32,
}

// What is left of a file at a record, and the byte place where that record begins.
#[derive(Clone, Copy)]
pub(crate) struct Rest<'a> {
    pub(crate) bytes: &'a [u8],
    pub(crate) place: usize,
}

impl<'a> Rest<'a> {
    // The fault of the record, for this reason.
    pub(crate) fn fault(self, reason: Refusal) -> Fault
        ensures { result ≡ record { reason = reason; place = self.entry.place } }
    {
        Fault {
            reason,
            place: self.place,
        }
    }

    // The word at a byte of what is left.
    pub(crate) fn word(self, at: usize) -> Result<Word, Fault>
        ensures { WordRead self.entry at result }
    {
        let Some([a, b, c, d, ..]) = self.bytes.get(at..) else {
            return Err(self.fault(Refusal::FileCut));
        };
        let word = u32::from_be_bytes([*a, *b, *c, *d]);
        let Ok(kind) = WordKind::try_from(word / 0x1000_0000) else {
            return Err(self.fault(Refusal::BadWord));
        };
        let value = word % 0x1000_0000;
        Ok(Word { kind, value })
    }

    // A word of one kind has to stand here.
    pub(crate) fn expect(self, at: usize, kind: WordKind) -> Result<(), Fault>
        ensures { Expected self.entry at kind result }
    {
        let word = self.word(at)?;
        if word.kind == kind {
            Ok(())
        } else {
            Err(self.fault(Refusal::BadWord))
        }
    }

    // The bytes of a first word that was read, and of words of these kinds that have to follow it.
    pub(crate) fn words(self, kinds: &[WordKind]) -> Result<&'a [u8], Fault>
        requires { 4 ≤ length self.bytes.now }
        ensures { WordsRead self.entry kinds.now result }
    {
        for (i, kind) in kinds.iter().enumerate() {
            self.expect(4 + 4 * i, *kind)?;
        }
        Ok(&self.bytes[..4 + 4 * kinds.len()])
    }
}

// Whoever lends rows to a journal has them back, and knows what was written.
ghost use Rattle.std.specs.Prelude.{◌≡◌, MatchResult, slice_set};
ghost use Rattle.ledger.specs.declared.row.JournalRow.{JournalRow};

use ledger::fill::Fill;
use ledger::journal::Journal;
use ledger::posting::Ledger;
use ledger::row::JournalRow;
use ledger::start::Start;
use market::refusal::Refusal;

// One post to a new journal: accepted, the first row is the posting and the others are as they were; refused, all are.
pub fn post_once(rows: &mut [JournalRow], start: &Start, fill: Fill) -> Result<(), Refusal>
    ensures { MatchResult result (λ _. (row : JournalRow) × (row.fill ≡ fill) × (rows.new ≡ slice_set rows.old 0 row)) (λ _. rows.new ≡ rows.old) }
{
    let mut journal = Journal::new(rows, start);
    journal.post(fill)
}

// A ledger that takes no posting at all. It is lawful, and stands at zero for ever.
ghost use Rattle.other_ledgers.specs.Bounded.{zero, zero_bounded};

use ledger::fill::Fill;
use ledger::posting::Ledger;
use market::refusal::Refusal;

#[derive(Clone, Copy)]
pub struct NoPlaces {}

impl Ledger for NoPlaces {
    ghost numbers = { λ _. zero };

    ghost bounded = { λ _. zero_bounded };

    fn post(&mut self, fill: Fill) -> Result<(), Refusal> {
        if fill.in_field() {
            Err(Refusal::LedgerFull)
        } else {
            Err(Refusal::BadField)
        }
    }

    fn shares(&self) -> i64 {
        0
    }

    fn money(&self) -> i64 {
        0
    }

    fn places(&self) -> usize {
        0
    }
}

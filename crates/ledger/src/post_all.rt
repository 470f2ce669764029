// Postings in turn, to any ledger.
ghost use Rattle.std.specs.Prelude.{◌≡◌, ◌-◌, [], ◌∷◌, if◌then◌else◌};
ghost use Rattle.ledger.specs.Law.{AddsUp, Judged, fits, judged};

use crate::posting::Ledger;
use crate::postings::Posting;

// Posts one, and notes the answer.
fn post_one<L: Ledger>(ledger: &mut L, posting: &mut Posting)
    ensures answer { posting.new ≡ judged (L.numbers ledger.old).places posting.old }
    ensures places { (L.numbers ledger.new).places ≡ (L.numbers ledger.old).places - (if fits posting.old then 1 else 0) }
    ensures law { AddsUp (L.numbers ledger.old) (posting.new ∷ []) (L.numbers ledger.new) }
{
    let answer = ledger.post(posting.fill);
    posting.note(answer);
}

// Posts each of a list in turn, and notes in it what became of each.
pub fn post_all<L: Ledger>(ledger: &mut L, postings: &mut [Posting])
    ensures outcomes { Judged (L.numbers ledger.old).places postings.old postings.new }
    ensures law { AddsUp (L.numbers ledger.old) postings.new (L.numbers ledger.new) }
{
    for posting in postings.iter_mut() {
        post_one(ledger, posting);
    }
}

// A list of postings, each with what became of it.
ghost use Rattle.std.specs.Prelude.{◌≡◌, Some, None};

use crate::fill::Fill;
use market::refusal::Refusal;

// A fill to be posted, and the ledger's answer once it is.
#[derive(Clone, Copy)]
pub struct Posting {
    pub fill: Fill,
    pub answer: Option<Result<(), Refusal>>,
}

impl Posting {
    // Notes the answer of a ledger.
    pub(crate) fn note(&mut self, answer: Result<(), Refusal>)
        ensures { self.new ≡ record { fill = self.old.fill; answer = Some answer } }
    {
        self.answer = Some(answer);
    }
}

impl From<Fill> for Posting {
    // A posting that is still to be posted.
    ghost from_gives = { λ fill posting. posting ≡ record { fill = fill; answer = None } };

    fn from(fill: Fill) -> Posting {
        Posting { fill, answer: None }
    }
}

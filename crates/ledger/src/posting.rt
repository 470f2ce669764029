// The interface of every contra ledger.
ghost use Rattle.std.specs.Prelude.{◌≡◌};
ghost use Rattle.ledger.specs.Bounds.{Bounded};
ghost use Rattle.ledger.specs.Posting.{Numbers, Posted};

use crate::fill::Fill;
use market::refusal::Refusal;

// A ledger means three numbers: the specialist's shares, his money in ten-thousandths of a dollar, and the postings that it
// will still take. Each ledger writes its own `post`: a shared body could not promise what the journal promises beside.
pub trait Ledger {
    ghost numbers: { Self → Numbers };

    // Each ledger proves that its shares and its money lie within 4 × 10^18, either way. This stands above the functions, where
    // it is data and no law, so that a caller of a `dyn Ledger` has it too.
    ghost bounded: { (x : Self) → Bounded (numbers x) };

    // Posts a customer's fill: a buy lowers the shares and raises the money, a sell the reverse.
    fn post(&mut self, fill: Fill) -> Result<(), Refusal>
        ensures { Posted fill (numbers self.old) result (numbers self.new) };

    fn shares(&self) -> i64
        ensures { result ≡ (numbers self.now).shares };

    fn money(&self) -> i64
        ensures { result ≡ (numbers self.now).money };

    fn places(&self) -> usize
        ensures { result ≡ (numbers self.now).places };
}

// The numbers of terms. They stand for the terms where lines, files and reports carry them: `u32::from(term)` gives a term's
// number, and `Term::try_from(number)` the term. Each term has its own impls, since no macro of ours may write them.
ghost use Rattle.std.specs.Prelude.{◌≡◌, ℕ, Some, codes, decimal, ◌++◌, Result};
ghost use Rattle.market.specs.Terms.{Reads};
ghost use Rattle.market.specs.declared.numbered.UnknownNumber.{UnknownNumber};

use std::error::Error;
use std::fmt;

// A number that no term of a kind has.
#[derive(Clone, Copy, PartialEq, Eq, Debug)]
pub struct UnknownNumber(pub u32);

impl fmt::Display for UnknownNumber {
    ghost output = { λ e. Some (codes "no term has the number " ++ decimal e.0) };

    fn fmt<W: fmt::Write>(&self, f: &mut fmt::Formatter<W>) -> fmt::Result {
        write!(f, "no term has the number {}", self.0)
    }
}

impl Error for UnknownNumber {}

// A term with a number: one definition, of which both conversions speak.
pub trait Numbered: TryFrom<u32, Error = UnknownNumber> + Into<u32> {
    // the number of each term
    ghost number: { Self → ℕ };

    // A law: the conversion to a number gives it.
    ghost counts: { (x : Self) (n : ℕ) → Self.converts x n → n ≡ number x };

    // A law: the conversion from a number reads it.
    ghost reads: { (n : ℕ) (r : Result Self UnknownNumber) → Self.try_from_gives n r → Reads number n r };
}

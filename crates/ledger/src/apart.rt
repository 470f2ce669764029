// How far two ledgers stand apart.
ghost use Rattle.std.specs.Prelude.{◌≡◌, ◌-ℤ◌};

use crate::posting::Ledger;

// The shares and the money of one ledger less those of another, whatever ledgers the two are: every ledger's bound keeps both
// differences in range.
pub fn apart(one: &dyn Ledger, other: &dyn Ledger) -> (i64, i64)
    ensures shares { result.0 ≡ (numbers one.now).shares -ℤ (numbers other.now).shares }
    ensures money { result.1 ≡ (numbers one.now).money -ℤ (numbers other.now).money }
{
    (one.shares() - other.shares(), one.money() - other.money())
}

// Where a ledger starts.
ghost use Rattle.ledger.specs.Bounds.{MayStart};

// A start that was refused is not good: a ledger made from it stands at zero and has no places. `good` stays a flag beside
// the numbers and no Option of them: a refused start has numbers too, zero, and the ledgers read them in either case.
#[derive(Clone, Copy)]
pub struct Start {
    pub(crate) shares: i64,
    pub(crate) money: i64,
    pub(crate) good: bool,
    ghost ok: { MayStart shares money },
}

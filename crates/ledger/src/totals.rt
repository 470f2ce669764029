// Running totals: the shares, the money and the places that are left.
ghost use Rattle.ledger.specs.Bounds.{Runs};

#[derive(Drop)]
pub struct Totals {
    pub(crate) shares: i64,
    pub(crate) money: i64,
    pub(crate) left: u32,
    ghost ok: { Runs shares money left },
}

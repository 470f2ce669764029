// Four sums that only grow: what customers bought and sold, in shares and in money.
ghost use Rattle.other_ledgers.specs.Sums.{FewSums};

#[derive(Drop)]
pub struct FourSums {
    pub(crate) bought: u32,
    pub(crate) bought_money: u64,
    pub(crate) sold: u32,
    pub(crate) sold_money: u64,
    pub(crate) left: u32,
    ghost ok: { FewSums bought bought_money sold sold_money left },
}

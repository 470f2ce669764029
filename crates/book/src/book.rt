// The live orders of a day.
ghost use Rattle.std.specs.Prelude.{◌≡◌, ◌≤◌, true, vec_len, vec_capacity};
ghost use Rattle.std.specs.List.{list_all};
ghost use Rattle.market.specs.Limits.{is_unit};
ghost use Rattle.book.specs.Orders.{lawful as lawful_for, rises};

use crate::order::Order;

// At most 512 orders, each lawful for the unit, by strictly rising number, in memory that is reserved for 512.
#[derive(Drop)]
pub struct Book {
    pub(crate) orders: Vec<Order>,
    pub(crate) unit: u32,
    ghost few: { vec_len orders ≤ 512 },
    ghost reserved: { 512 ≤ vec_capacity orders },
    ghost units: { is_unit unit ≡ true },
    ghost lawful: { list_all (lawful_for unit) orders.items ≡ true },
    ghost rising: { rises orders.items ≡ true },
}

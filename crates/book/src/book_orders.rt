// Orders come to the book, are asked for, and go.
ghost use Rattle.std.specs.Prelude.{◌≡◌, [], IfOk};
ghost use Rattle.book.specs.Books.{Cleared, Entered, orders_of};
ghost use Rattle.book.specs.Orders.{find_in, is_new};

use crate::book::Book;
use crate::lawful::is_lawful;
use crate::order::Order;
use market::limits::{has_live_room, is_unit};
use market::refusal::Refusal;
use std::alloc::{AllocError, Global};

// Whether a number is above every number in the book.
fn is_new(orders: &[Order], number: u32) -> bool
    ensures { result ≡ is_new number orders.now }
{
    orders.iter().all(|order| order.number < number)
}

impl Book {
    // An empty book for a unit of 100, with memory for 512 orders. Nothing else in the product can want memory.
    pub fn reserve(heap: Global) -> Result<Book, AllocError>
        ensures { IfOk result (λ b. (orders_of b ≡ []) × (b.unit ≡ 100)) }
    {
        let orders = Vec::with_capacity(heap, 512)?;
        Ok(Book { orders, unit: 100 })
    }

    // The orders, by rising number.
    pub fn orders(&self) -> &[Order]
        ensures { result.now ≡ orders_of self.now }
    {
        self.orders.as_slice()
    }

    // Empties the book, for another unit or the same.
    pub fn clear_for(&mut self, unit: u32) -> Result<(), Refusal>
        ensures { Cleared unit self.old result self.new }
    {
        if !is_unit(unit) {
            return Err(Refusal::BadField);
        }
        self.orders.clear();
        self.unit = unit;
        Ok(())
    }

    // Takes an order in at the end. Its number must be above all others.
    pub fn enter(&mut self, order: Order) -> Result<(), Refusal>
        ensures { Entered order self.old result self.new }
    {
        if !is_lawful(self.unit, &order) || !is_new(self.orders.as_slice(), order.number) {
            return Err(Refusal::BadField);
        }
        if !has_live_room(self.orders.len()) {
            return Err(Refusal::BookFull);
        }
        self.orders.push_reserved(order);
        Ok(())
    }

    // The live order with a number, if there is one.
    pub fn find(&self, number: u32) -> Option<Order>
        ensures { result ≡ find_in number (orders_of self.now) }
    {
        let orders = self.orders.as_slice();
        match orders.binary_search_by_key(&number, |order| order.number) {
            Ok(at) => Some(orders[at]),
            Err(_) => None,
        }
    }
}

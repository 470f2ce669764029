// What a day is made of.
ghost use Rattle.std.specs.Prelude.{◌≡◌, true};
ghost use Rattle.std.specs.List.{list_all};
ghost use Rattle.book.specs.Books.{orders_of};
ghost use Rattle.rules.specs.States.{figures_fit, order_fits};

use book::book::Book;
use rules::figures::Figures;

// The orders and the figures. Every order fits the figures, and the book is for the day's unit.
#[derive(Drop)]
pub struct Live {
    pub(crate) book: Book,
    pub(crate) figures: Figures,
    ghost fit: { figures_fit figures ≡ true },
    ghost fits: { list_all (order_fits figures) (orders_of book) ≡ true },
    ghost unit: { book.unit ≡ figures.unit },
}

// A day owns its ledger, so that nobody else posts to it.
#[derive(Drop)]
pub struct Day<L> {
    pub(crate) live: Live,
    pub(crate) ledger: L,
}

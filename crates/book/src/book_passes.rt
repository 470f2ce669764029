// Passes over a book: what each fills, what it reports, and the book after it.
ghost use Rattle.std.specs.Prelude.{◌≡◌, map, length};
ghost use Rattle.book.specs.Books.{Applied, Reported, Sold, orders_of};
ghost use Rattle.book.specs.Law.{TradeLaw};
ghost use Rattle.book.specs.Passes.{rows_by, stays_by};
ghost use Rattle.book.specs.Sales.{elect as elect_at};

use crate::book::Book;
use crate::pass::Pass;
use crate::row::Row;
use crate::sale::RoundLot;
use crate::settle::{count, elect_all, write};
use market::refusal::Refusal;

impl Book {
    // How many rows a pass has.
    pub fn count<P: Pass>(&self, pass: &P) -> usize
        ensures { result ≡ length (rows_by (P.leaves pass.now) (orders_of self.now)) }
    {
        count(self.orders(), pass)
    }

    // Writes the rows of a pass to a report, from its first place on, or refuses where they do not fit. A report is a slice of
    // the caller's, and the answer a count of it, since no call allocates.
    pub fn report<P: Pass>(&self, pass: &P, report: &mut [Row]) -> Result<usize, Refusal>
        ensures { Reported (rows_by (P.leaves pass.now) (orders_of self.now)) report.old result report.new }
    {
        let n = self.count(pass);
        if report.len() < n {
            return Err(Refusal::ReportFull);
        }
        write(self.orders(), pass, report);
        Ok(n)
    }

    // Takes the orders that leave in a pass out of the book.
    pub fn settle<P: Pass>(&mut self, pass: &P)
        ensures orders { orders_of self.new ≡ stays_by (P.leaves pass.now) (orders_of self.old) }
        ensures unit { self.new.unit ≡ self.old.unit }
    {
        self.orders.retain(|order| pass.row(order).is_none());
    }

    // Elects each stop that a sale at this price reaches.
    pub fn elect(&mut self, price: u32)
        ensures orders { orders_of self.new ≡ map (elect_at price) (orders_of self.old) }
        ensures unit { self.new.unit ≡ self.old.unit }
    {
        elect_all(&mut self.orders, price);
    }

    // Carries a pass out: its rows to the report, its orders out of the book.
    pub fn apply<P: Pass>(&mut self, pass: &P, report: &mut [Row]) -> Result<usize, Refusal>
        ensures { Applied (P.leaves pass.now) self.old report.old result self.new report.new }
    {
        let n = self.report(pass, report)?;
        self.settle(pass);
        Ok(n)
    }

    // Carries a sale out: its fills, and then the elections. The law says what the fills of a trade are on each side.
    pub fn apply_sale(&mut self, sale: RoundLot, report: &mut [Row]) -> Result<usize, Refusal>
        ensures law { TradeLaw sale (orders_of self.old) }
        ensures sold { Sold sale self.old report.old result self.new report.new }
    {
        let pass = self.sale(sale);
        let n = self.apply(&pass, report)?;
        self.elect(sale.price);
        Ok(n)
    }
}

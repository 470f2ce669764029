// A pass carried out: its rows reported and posted, its orders taken out of the book.
ghost use Rattle.std.specs.Prelude.{◌≡◌, true, length};
ghost use Rattle.std.specs.List.{list_all};
ghost use Rattle.book.specs.Books.{orders_of};
ghost use Rattle.book.specs.Passes.{rows_by};
ghost use Rattle.rules.specs.Machine.{fills_of, is_posted_well};
ghost use Rattle.day.specs.Calls.{Settled};

use crate::posting::{is_fill, post_rows};
use book::book::Book;
use book::order::Order;
use book::pass::Pass;
use book::row::Row;
use ledger::posting::Ledger;
use market::refusal::Refusal;

// How many rows of a pass are posted.
fn count_fills<P: Pass>(orders: &[Order], pass: &P) -> usize
    ensures { result ≡ length (fills_of (rows_by (P.leaves pass.now) orders.now)) }
{
    orders
        .iter()
        .filter_map(|order| pass.row(order))
        .filter(|row| is_fill(row.mark))
        .count()
}

// Carries a pass out, or does nothing at all for want of places in the report (13) or in the ledger (14).
pub(crate) fn settle<P: Pass, L: Ledger>(
    book: &mut Book,
    ledger: &mut L,
    pass: &P,
    report: &mut [Row],
) -> Result<usize, Refusal>
    requires { list_all is_posted_well (rows_by (P.leaves pass.now) (orders_of book.old)) ≡ true }
    ensures { Settled (P.leaves pass.now) book.old report.old (L.numbers ledger.old) result book.new report.new (L.numbers ledger.new) }
{
    let n = book.count(pass);
    if report.len() < n {
        return Err(Refusal::ReportFull);
    }
    if ledger.places() < count_fills(book.orders(), pass) {
        return Err(Refusal::LedgerFull);
    }
    let _ = book.report(pass, report);
    post_rows(ledger, &report[0..n]);
    book.settle(pass);
    Ok(n)
}

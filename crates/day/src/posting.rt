// Rows posted to the ledger: every row but a lapse, once, in row order.
ghost use Rattle.std.specs.Prelude.{◌≡◌, ◌<◌, ◌≤◌, true, [], ◌∷◌, length};
ghost use Rattle.std.specs.List.{list_all};
ghost use Rattle.rules.specs.Machine.{fill_of, fills_of, is_fill, is_posted_well};
ghost use Rattle.rules.specs.Steps.{PostedOnce};

use book::row::Row;
use ledger::fill::Fill;
use ledger::posting::Ledger;
use market::mark::Mark;

// Whether a row is posted.
pub(crate) fn is_fill(mark: Mark) -> bool
    ensures { result ≡ is_fill mark }
{
    mark != Mark::Lapse
}

// What a row says to a ledger. No `From`, since both types are other crates'.
fn fill_of(row: &Row) -> Fill
    ensures { result ≡ fill_of row.now }
{
    Fill {
        side: row.side,
        shares: row.shares,
        price: row.price,
    }
}

// Posts a row, unless it is a lapse.
fn post_row<L: Ledger>(ledger: &mut L, row: &Row)
    requires fields { is_posted_well row.now ≡ true }
    requires room { length (fills_of (row.now ∷ [])) ≤ (L.numbers ledger.old).places }
    ensures { PostedOnce (L.numbers ledger.old) (fills_of (row.now ∷ [])) (L.numbers ledger.new) }
{
    if is_fill(row.mark) {
        let _ = ledger.post(fill_of(row));
    }
}

// Posts the rows of a call.
pub(crate) fn post_rows<L: Ledger>(ledger: &mut L, rows: &[Row])
    requires fields { list_all is_posted_well rows.now ≡ true }
    requires room { length (fills_of rows.now) ≤ (L.numbers ledger.old).places }
    ensures { PostedOnce (L.numbers ledger.old) (fills_of rows.now) (L.numbers ledger.new) }
{
    for row in rows {
        post_row(ledger, row);
    }
}

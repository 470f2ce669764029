// Each refusal of each call, the first that fits, and that a refused call changes nothing.
use crate::asked::*;
use book::book::Book;
use book::row::Row;
use day::live::Day;
use ledger::journal::Journal;
use ledger::posting::Ledger;
use ledger::row::JournalRow;
use ledger::start::Start;
use ledger::totals::Totals;
use market::refusal::Refusal;
use other_ledgers::four_sums::FourSums;
use std::process::Abort;
use std::test::Fail;

// A report list of eight places.
fn report() -> [Row; 8] {
    [Row::blank(); 8]
}

// Fields out of range, in an unopened day of unit 100 at time 0.
fn check_fields<L: Ledger>(rt: &impl Abort, day: &mut Day<L>) {
    let bad = Err(Refusal::BadField);
    for (side, kind, shares, limit, stop) in [
        (0, 1, 1, 0, 0),
        (4, 1, 1, 0, 0),
        (1, 0, 1, 0, 0),
        (1, 5, 1, 0, 0),
        (1, 1, 0, 0, 0),
        (1, 1, 100, 0, 0),
        (1, 1, 1, 1, 0),
        (1, 2, 1, 0, 0),
        (1, 2, 1, 200_000_001, 0),
        (1, 3, 1, 0, 0),
        (1, 4, 1, 1, 0),
    ] {
        assert_eq!(rt; day.order(order(side, kind, shares, limit, stop)), bad);
    }
    assert_eq!(rt; day.quote(quote(200_000_001, 0)), Err(Refusal::BadField));
    assert_eq!(rt; day.quote(quote(0, 200_000_001)), Err(Refusal::BadField));
    assert_eq!(rt;
        day.quote(quote(200_000, 200_000)),
        Err(Refusal::QuoteCrossed)
    );
    assert_eq!(rt; day.quote(quote(199_999, 200_000)), Ok(()));
    assert_eq!(rt; day.quote(quote(0, 0)), Ok(()));
}

// Clock and sales: 2 and 3 before 4, 4 before 5.
fn check_sales<L: Ledger>(rt: &impl Abort, day: &mut Day<L>) {
    let mut rows = report();
    assert_eq!(rt; day.trade(sale(0, 0), &mut rows), Err(Refusal::DayUnopened));
    assert_eq!(rt; day.clock(86_400_000, &mut rows), Err(Refusal::BadField));
    assert_eq!(rt; day.clock(86_399_999, &mut [][..]), Ok(0));
    assert_eq!(rt; day.clock(86_399_998, &mut rows), Err(Refusal::TimeEarlier));
    assert_eq!(rt; day.clock(86_399_999, &mut rows), Ok(0));
    assert_eq!(rt;
        day.opening(sale(0, 100), &mut rows),
        Err(Refusal::BadField)
    );
    assert_eq!(rt;
        day.opening(sale(200_000, 99), &mut rows),
        Err(Refusal::BadField)
    );
    assert_eq!(rt; day.opening(sale(200_000, 100), &mut rows), Ok(0));
    assert_eq!(rt; day.opening(sale(0, 0), &mut rows), Err(Refusal::DayOpen));
    assert_eq!(rt;
        day.trade(sale(200_000_001, 100), &mut rows),
        Err(Refusal::BadField)
    );
    assert_eq!(rt;
        day.trade(sale(200_000, 100_000_001), &mut rows),
        Err(Refusal::BadField)
    );
}

// Numbers that no live order has, and a report that is one place short.
fn check_orders<L: Ledger>(rt: &impl Abort, day: &mut Day<L>) {
    for number in [0, 1, 60_000, u32::MAX] {
        assert_eq!(rt; day.cancel(number), Err(Refusal::NoSuchOrder));
    }
    assert_eq!(rt; day.order(order(1, 1, 99, 0, 0)), Ok(1));
    assert_eq!(rt; day.order(order(2, 1, 1, 0, 0)), Ok(2));
    assert_eq!(rt; day.order(order(2, 1, 7, 0, 0)), Ok(3));
    assert_eq!(rt; day.cancel(3), Ok(7));
    assert_eq!(rt; day.cancel(3), Err(Refusal::NoSuchOrder));
    let mut all = report();
    let rows: &mut [Row] = &mut all;
    assert_eq!(rt;
        day.trade(sale(200_000, 100), &mut rows[0..1]),
        Err(Refusal::ReportFull)
    );
    assert_eq!(rt; rows[0].number, 0);
    assert!(rt; day.find(1).is_some() && day.find(2).is_some());
}

// A closed day refuses every call with 1, whatever it is given.
fn check_closed<L: Ledger>(rt: &impl Abort, day: &mut Day<L>) {
    let mut rows = report();
    assert_eq!(rt; day.order(order(9, 9, 0, 0, 0)), Err(Refusal::DayClosed));
    assert_eq!(rt; day.cancel(0), Err(Refusal::DayClosed));
    assert_eq!(rt; day.quote(quote(9, 8)), Err(Refusal::DayClosed));
    assert_eq!(rt; day.clock(u32::MAX, &mut rows), Err(Refusal::DayClosed));
    assert_eq!(rt; day.opening(sale(0, 0), &mut rows), Err(Refusal::DayClosed));
    assert_eq!(rt; day.trade(sale(0, 0), &mut rows), Err(Refusal::DayClosed));
    assert_eq!(rt; day.close(&mut rows), Err(Refusal::DayClosed));
}

// The same day above any ledger with two places: the trade fills both orders, and a third finds no place.
fn check_day<L: Ledger>(rt: &impl Abort, day: &mut Day<L>) {
    check_fields(rt, day);
    check_sales(rt, day);
    check_orders(rt, day);
    let mut rows = report();
    assert_eq!(rt; day.trade(sale(200_000, 100), &mut rows), Ok(2));
    assert_eq!(rt; rows[0].number, 1);
    assert_eq!(rt; rows[1].number, 2);
    assert_eq!(rt; day.ledger().shares(), -98);
    assert_eq!(rt; day.ledger().money(), 19_600_000);
}

// The close lapses the last order, which is no posting, also where the ledger has no place left.
fn check_end<L: Ledger>(rt: &impl Abort, day: &mut Day<L>) {
    let mut rows = report();
    assert_eq!(rt; day.close(&mut [][..]), Err(Refusal::ReportFull));
    assert_eq!(rt; day.close(&mut rows), Ok(1));
    assert_eq!(rt; rows[0].number, 4);
    assert_eq!(rt; rows[0].price, 0);
    check_closed(rt, day);
}

#[test]
fn above_totals(rt: HostRuntime) -> Result<(), Fail> {
    let (start, _) = Start::new(0, 0);
    let book = Book::reserve(rt.alloc())?;
    let (mut day, answer) = Day::new(book, Totals::new(&start), day_of(100, 200_000, 1));
    assert_eq!(rt; answer, Ok(()));
    check_day(&rt, &mut day);
    assert_eq!(rt; day.order(order(3, 1, 5, 0, 0)), Ok(4));
    check_end(&rt, &mut day);
    assert_eq!(rt; day.into_ledger().places(), 1_048_574);
    Ok(())
}

#[test]
fn above_a_short_journal(rt: HostRuntime) -> Result<(), Fail> {
    let (start, _) = Start::new(0, 0);
    let mut lent = [JournalRow::blank(); 2];
    let book = Book::reserve(rt.alloc())?;
    let (mut day, answer) = Day::new(
        book,
        Journal::new(&mut lent, &start),
        day_of(100, 200_000, 1),
    );
    assert_eq!(rt; answer, Ok(()));
    check_day(&rt, &mut day);
    assert_eq!(rt; day.order(order(1, 1, 5, 0, 0)), Ok(4));
    let mut rows = report();
    assert_eq!(rt;
        day.trade(sale(200_100, 100), &mut rows),
        Err(Refusal::LedgerFull)
    );
    assert!(rt; day.find(4).is_some());
    check_end(&rt, &mut day);
    assert_eq!(rt; day.into_ledger().places(), 0);
    assert_eq!(rt; lent[1].fill.shares, 1);
    Ok(())
}

#[test]
fn above_a_foreign_ledger(rt: HostRuntime) -> Result<(), Fail> {
    let book = Book::reserve(rt.alloc())?;
    let (mut day, answer) = Day::new(book, FourSums::new(), day_of(100, 200_000, 1));
    assert_eq!(rt; answer, Ok(()));
    check_day(&rt, &mut day);
    assert_eq!(rt; day.into_ledger().places(), 998);
    Ok(())
}

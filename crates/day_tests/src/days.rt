// Makings, limits, and days of both units.
use crate::asked::*;
use book::book::Book;
use book::row::Row;
use day::live::Day;
use ledger::posting::Ledger;
use ledger::start::Start;
use ledger::totals::Totals;
use market::mark::Mark;
use market::refusal::Refusal;
use other_ledgers::no_places::NoPlaces;
use std::test::Fail;

fn blank() -> Row {
    Row {
        mark: Mark::Opening,
        ..Row::blank()
    }
}

// Both ends of each field of a making. A refused making gives a closed day that holds the ledger.
#[test]
fn makings(rt: HostRuntime) -> Result<(), Fail> {
    let table = [
        (10, 1, 1, true),
        (100, 200_000_000, 268_435_455, true),
        (50, 1, 1, false),
        (100, 0, 1, false),
        (100, 200_000_001, 1, false),
        (100, 1, 0, false),
        (100, 1, 268_435_456, false),
    ];
    for (unit, prior_close, tag, good) in table {
        let (start, _) = Start::new(7, 9);
        let (mut day, answer) = Day::new(
            Book::reserve(rt.alloc())?,
            Totals::new(&start),
            day_of(unit, prior_close, tag),
        );
        let entered = day.order(order(1, 1, 1, 0, 0));
        let ledger = day.into_ledger();
        assert_eq!(rt; ledger.shares(), 7);
        assert_eq!(rt; ledger.money(), 9);
        if good {
            assert_eq!(rt; answer, Ok(()));
            assert_eq!(rt; entered, Ok(1));
        } else {
            assert_eq!(rt; answer, Err(Refusal::BadField));
            assert_eq!(rt; entered, Err(Refusal::DayClosed));
        }
    }
    Ok(())
}

// 512 live orders and no more; 60,000 accepted and no more.
#[test]
fn limits(rt: HostRuntime) -> Result<(), Fail> {
    let (start, _) = Start::new(0, 0);
    let book = Book::reserve(rt.alloc())?;
    let (mut day, _) = Day::new(book, Totals::new(&start), day_of(10, 200_000, 1));
    assert_eq!(rt; day.order(order(1, 1, 10, 0, 0)), Err(Refusal::BadField));
    for number in 1..513 {
        assert_eq!(rt; day.order(order(1, 1, 9, 0, 0)), Ok(number));
    }
    assert_eq!(rt; day.order(order(1, 1, 9, 0, 0)), Err(Refusal::BookFull));
    assert_eq!(rt; day.cancel(1), Ok(9));
    for number in 513..60_001 {
        assert_eq!(rt; day.order(order(1, 1, 9, 0, 0)), Ok(number));
        assert_eq!(rt; day.cancel(number), Ok(9));
    }
    assert_eq!(rt; day.order(order(1, 1, 9, 0, 0)), Err(Refusal::AcceptedFull));
    Ok(())
}

// Above a ledger without places a sale that fills is refused, and lapses are not postings.
#[test]
fn without_places(rt: HostRuntime) -> Result<(), Fail> {
    let book = Book::reserve(rt.alloc())?;
    let (mut day, _) = Day::new(book, NoPlaces {}, day_of(100, 200_000, 1));
    let mut rows = [blank(); 2];
    assert_eq!(rt; day.order(order(1, 1, 9, 0, 0)), Ok(1));
    assert_eq!(rt;
        day.opening(sale(200_000, 100), &mut rows),
        Err(Refusal::LedgerFull)
    );
    assert_eq!(rt; day.close(&mut rows), Ok(1));
    assert_eq!(rt; rows[0].mark, Mark::Lapse);
    assert_eq!(rt; rows[1].mark, Mark::Opening);
    Ok(())
}

// Places that are wanting, of each call that writes rows: 13 before 14, and nothing is changed by either.
#[test]
fn wanting_places(rt: HostRuntime) -> Result<(), Fail> {
    let book = Book::reserve(rt.alloc())?;
    let (mut day, _) = Day::new(book, NoPlaces {}, day_of(100, 200_000, 1));
    let mut one = [blank()];
    let short = Err(Refusal::ReportFull);
    let full = Err(Refusal::LedgerFull);
    assert_eq!(rt; day.order(order(1, 1, 9, 0, 0)), Ok(1));
    assert_eq!(rt; day.opening(sale(200_000, 100), &mut [][..]), short);
    assert_eq!(rt; day.opening(sale(200_000, 100), &mut one), full);
    assert_eq!(rt; day.cancel(1), Ok(9));
    assert_eq!(rt; day.opening(sale(200_000, 100), &mut [][..]), Ok(0));
    assert_eq!(rt; day.order(order(1, 1, 9, 0, 0)), Ok(2));
    assert_eq!(rt; day.trade(sale(200_000, 100), &mut [][..]), short);
    assert_eq!(rt; day.trade(sale(200_000, 100), &mut one), full);
    assert_eq!(rt; day.quote(quote(0, 200_100)), Ok(()));
    assert_eq!(rt; day.clock(30_001, &mut [][..]), short);
    assert_eq!(rt; day.clock(30_001, &mut one), full);
    assert_eq!(rt; day.clock(30_000, &mut one), Ok(0));
    assert_eq!(rt; day.close(&mut [][..]), short);
    assert_eq!(rt; day.close(&mut one), full);
    assert_eq!(rt; one[0].number, 0);
    assert!(rt; day.find(2).is_some());
    Ok(())
}

// The timer at 30,000 and 30,001 past the receipt, and the question by number.
#[test]
fn timer_and_question(rt: HostRuntime) -> Result<(), Fail> {
    let (start, _) = Start::new(0, 0);
    let book = Book::reserve(rt.alloc())?;
    let (mut day, _) = Day::new(book, Totals::new(&start), day_of(100, 200_000, 1));
    let mut rows = [blank(); 2];
    assert_eq!(rt; day.clock(1_000, &mut rows), Ok(0));
    assert_eq!(rt; day.order(order(1, 1, 70, 0, 0)), Ok(1));
    assert_eq!(rt; day.opening(sale(200_000, 100), &mut rows), Ok(1));
    assert_eq!(rt; day.order(order(1, 1, 30, 0, 0)), Ok(2));
    assert_eq!(rt; day.quote(quote(0, 200_100)), Ok(()));
    assert_eq!(rt; day.clock(31_000, &mut rows), Ok(0));
    let order = day.find(2).ok_or("no order 2")?;
    assert_eq!(rt; order.shares, 30);
    assert_eq!(rt; order.receipt, 1_000);
    assert!(rt; !order.elected && !order.in_hand);
    assert_eq!(rt; day.clock(31_001, &mut rows), Ok(1));
    assert_eq!(rt; rows[0].mark, Mark::Offer);
    assert_eq!(rt; rows[0].price, 200_100);
    assert!(rt; day.find(2).is_none());
    // 70 × 200,000 + 30 × 200,100
    assert_eq!(rt; day.into_ledger().money(), 20_003_000);
    Ok(())
}

// The book's own limits.
use crate::making::*;
use book::book::Book;
use book::row::Row;
use market::kind::Kind;
use market::refusal::Refusal;
use market::side::Side;
use std::test::Fail;

// Lawful orders for a unit of 100, at both ends of each range.
#[test]
fn lawful_orders(rt: HostRuntime) -> Result<(), Fail> {
    let mut book = Book::reserve(rt.alloc())?;
    let table = [
        (Kind::Market, 0, 0, 0, false),
        (Kind::Market, 1, 0, 0, true),
        (Kind::Market, 99, 0, 0, true),
        (Kind::Market, 100, 0, 0, false),
        (Kind::Market, 1, 1, 0, false),
        (Kind::Market, 1, 0, 1, false),
        (Kind::Limit, 1, 0, 0, false),
        (Kind::Limit, 1, 1, 0, true),
        (Kind::Limit, 1, 200_000_000, 0, true),
        (Kind::Limit, 1, 200_000_001, 0, false),
        (Kind::Limit, 1, 1, 1, false),
        (Kind::Stop, 1, 0, 1, true),
        (Kind::Stop, 1, 0, 0, false),
        (Kind::Stop, 1, 1, 1, false),
        (Kind::StopLimit, 1, 1, 1, true),
        (Kind::StopLimit, 1, 1, 0, false),
        (Kind::StopLimit, 1, 0, 1, false),
    ];
    for (number, (kind, shares, limit, stop, good)) in (1..).zip(table) {
        let answer = book.enter(order(number, Side::Buy, kind, shares, limit, stop));
        if good {
            assert_eq!(rt; answer, Ok(()));
        } else {
            assert_eq!(rt; answer, Err(Refusal::BadField));
        }
    }
    assert_eq!(rt; book.orders().len(), 6);
    Ok(())
}

// Numbers rise; 512 orders are the most; a new unit empties the book.
#[test]
fn numbers_and_places(rt: HostRuntime) -> Result<(), Fail> {
    let mut book = Book::reserve(rt.alloc())?;
    for n in 1..513 {
        assert_eq!(rt; book.enter(market_order(n * 2, Side::Buy, 1)), Ok(()));
        assert_eq!(rt;
            book.enter(market_order(n * 2, Side::Buy, 1)),
            Err(Refusal::BadField)
        );
    }
    assert_eq!(rt;
        book.enter(market_order(2_000, Side::Buy, 1)),
        Err(Refusal::BookFull)
    );
    assert!(rt; book.find(1_024).is_some());
    assert!(rt; book.find(1_023).is_none());
    assert_eq!(rt; book.clear_for(50), Err(Refusal::BadField));
    assert_eq!(rt; book.orders().len(), 512);
    assert_eq!(rt; book.clear_for(10), Ok(()));
    assert_eq!(rt; book.orders().len(), 0);
    assert_eq!(rt;
        book.enter(market_order(1, Side::Buy, 10)),
        Err(Refusal::BadField)
    );
    assert_eq!(rt; book.enter(market_order(1, Side::Buy, 9)), Ok(()));
    Ok(())
}

// A report that is one place short is refused, and neither it nor the book changes; one that is just long enough is not.
#[test]
fn short_reports(rt: HostRuntime) -> Result<(), Fail> {
    let mut book = Book::reserve(rt.alloc())?;
    assert_eq!(rt; book.enter(market_order(1, Side::Buy, 1)), Ok(()));
    assert_eq!(rt; book.enter(market_order(2, Side::Buy, 1)), Ok(()));
    let mut all = report();
    let rows: &mut [Row] = &mut all;
    assert_eq!(rt;
        book.apply_sale(trade(200_000, 100), &mut rows[0..1]),
        Err(Refusal::ReportFull)
    );
    assert_eq!(rt; rows[0].number, 0);
    assert_eq!(rt; book.orders().len(), 2);
    assert_eq!(rt;
        book.apply_sale(trade(200_000, 100), &mut rows[0..2]),
        Ok(2)
    );
    assert_eq!(rt; rows[1].number, 2);
    assert_eq!(rt; rows[2].number, 0);
    Ok(())
}

// Readings of the Rule that are tempting and wrong: what the book does instead.
use crate::making::*;
use book::book::Book;
use book::order::Order;
use book::pass::ClosePass;
use book::quote::Quote;
use book::row::Row;
use book::sale::{RoundLot, is_rising};
use market::kind::Kind;
use market::mark::Mark;
use market::side::Side;
use std::alloc::Global;
use std::process::Abort;
use std::test::Fail;

// The rows of one sale over these orders, in a report of 512 places, and their count.
fn sale_over(
    rt: &impl Abort,
    heap: Global,
    orders: &[Order],
    sale: RoundLot,
    rows: &mut [Row],
) -> Result<usize, Fail> {
    let mut book = Book::reserve(heap)?;
    for order in orders {
        assert!(rt; book.enter(*order).is_ok());
    }
    let n = book.apply_sale(sale, rows).ok().ok_or("refused")?;
    Ok(n)
}

// Buys of 99, 99 and 99, trade of 100: the shares ahead are 0, 99 and 198. The second passes the volume and is filled
// whole; it is neither cut nor left out, and the third waits.
#[test]
fn the_last_order_is_filled_whole(rt: HostRuntime) -> Result<(), Fail> {
    let mut rows = report();
    let buys = [
        market_order(1, Side::Buy, 99),
        market_order(2, Side::Buy, 99),
        market_order(3, Side::Buy, 99),
    ];
    assert_eq!(rt;
        sale_over(&rt, rt.alloc(), &buys, trade(200_000, 100), &mut rows)?,
        2
    );
    check_row(&rt, &rows[1], 2, 99, 200_000, Mark::Sale);
    Ok(())
}

// Buys of 50, 50 and 50, trade of 100: the third has 100 ahead, which is not fewer than 100.
#[test]
fn shares_ahead_equal_to_the_volume_wait(rt: HostRuntime) -> Result<(), Fail> {
    let mut rows = report();
    let buys = [
        market_order(1, Side::Buy, 50),
        market_order(2, Side::Buy, 50),
        market_order(3, Side::Buy, 50),
    ];
    assert_eq!(rt;
        sale_over(&rt, rt.alloc(), &buys, trade(200_000, 100), &mut rows)?,
        2
    );
    Ok(())
}

// A buy stop that the sale elects waits for the next sale; one that was passed when it was entered waits too.
#[test]
fn a_stop_waits_for_the_next_sale(rt: HostRuntime) -> Result<(), Fail> {
    let mut book = Book::reserve(rt.alloc())?;
    assert!(rt;
        book.enter(order(1, Side::Buy, Kind::Stop, 20, 0, 200_100))
            .is_ok()
    );
    assert!(rt;
        book.enter(order(2, Side::SellLong, Kind::StopLimit, 20, 199_000, 250_000))
            .is_ok()
    );
    let mut rows = report();
    assert_eq!(rt;
        book.apply_sale(trade(200_100, 100), &mut rows)
            .ok()
            .ok_or("refused")?,
        0
    );
    for number in [1, 2] {
        assert!(rt; book.find(number).ok_or("gone")?.elected);
    }
    assert_eq!(rt;
        book.apply_sale(trade(200_500, 100), &mut rows)
            .ok()
            .ok_or("refused")?,
        2
    );
    check_row(&rt, &rows[0], 1, 20, 200_500, Mark::Sale);
    check_row(&rt, &rows[1], 2, 20, 200_500, Mark::Sale);
    Ok(())
}

// An equal price after a rise is a zero-plus tick, also when several equal sales lie between.
#[test]
fn a_zero_plus_tick_is_rising(rt: HostRuntime) {
    let table = [
        (200_000, false, 200_100, true),
        (200_100, true, 200_100, true),
        (200_100, true, 200_000, false),
        (200_000, false, 200_000, false),
        (200_000, false, 199_999, false),
    ];
    for (latest, was_rising, price, rising) in table {
        assert_eq!(rt; is_rising(latest, was_rising, price), rising);
    }
}

// Four buys of 99 against a long sell of 60 and a short sell of 60, trade of 100 on a plus tick: M is 120, since both sells
// are one side, so that the third buy, with 198 ahead, is filled and the fourth, with 297, waits.
#[test]
fn long_and_short_sells_are_one_side(rt: HostRuntime) -> Result<(), Fail> {
    let mut rows = report();
    let orders = [
        market_order(1, Side::Buy, 99),
        market_order(2, Side::Buy, 99),
        market_order(3, Side::Buy, 99),
        market_order(4, Side::Buy, 99),
        market_order(5, Side::SellLong, 60),
        market_order(6, Side::SellShort, 60),
    ];
    // M + V = 220: the shares ahead of the buys are 0, 99, 198 and 297
    assert_eq!(rt;
        sale_over(&rt, rt.alloc(), &orders, trade(200_100, 100), &mut rows)?,
        5
    );
    check_row(&rt, &rows[2], 3, 99, 200_100, Mark::Sale);
    check_row(&rt, &rows[4], 6, 60, 200_100, Mark::Sale);
    Ok(())
}

// A limit is the worst price: at 200,000 a buy limited to 199,999 and a sell limited to 200,001 wait.
#[test]
fn limits_are_the_worst_price(rt: HostRuntime) -> Result<(), Fail> {
    let mut rows = report();
    let orders = [
        order(1, Side::Buy, Kind::Limit, 10, 199_999, 0),
        order(2, Side::Buy, Kind::Limit, 11, 200_000, 0),
        order(3, Side::SellLong, Kind::Limit, 12, 200_001, 0),
        order(4, Side::SellLong, Kind::Limit, 13, 200_000, 0),
    ];
    assert_eq!(rt;
        sale_over(&rt, rt.alloc(), &orders, trade(200_000, 100), &mut rows)?,
        2
    );
    check_row(&rt, &rows[0], 2, 11, 200_000, Mark::Sale);
    check_row(&rt, &rows[1], 4, 13, 200_000, Mark::Sale);
    Ok(())
}

// The opening fills every market order, and limit orders only under the volume.
#[test]
fn the_opening_holds_limit_orders_to_the_volume(rt: HostRuntime) -> Result<(), Fail> {
    let mut rows = report();
    let orders = [
        market_order(1, Side::Buy, 99),
        market_order(2, Side::Buy, 99),
        order(3, Side::Buy, Kind::Limit, 9, 200_000, 0),
        market_order(4, Side::Buy, 99),
    ];
    let opening = RoundLot {
        price: 200_000,
        volume: 100,
        rising: false,
        opening: true,
    };
    assert_eq!(rt; sale_over(&rt, rt.alloc(), &orders, opening, &mut rows)?, 3);
    check_row(&rt, &rows[2], 4, 99, 200_000, Mark::Opening);
    Ok(())
}

// The close fills market orders of side 1 and 2 whose price is there, due or not, and every other order lapses.
#[test]
fn the_close_fills_and_lapses(rt: HostRuntime) -> Result<(), Fail> {
    let mut book = Book::reserve(rt.alloc())?;
    let in_hand = Order {
        in_hand: true,
        ..market_order(4, Side::Buy, 4)
    };
    for entry in [
        market_order(1, Side::Buy, 1),
        market_order(2, Side::SellLong, 2),
        market_order(3, Side::SellShort, 3),
        in_hand,
        order(5, Side::Buy, Kind::Limit, 5, 300_000, 0),
    ] {
        assert!(rt; book.enter(entry).is_ok());
    }
    let mut rows = report();
    let quote = Quote {
        bid: None,
        offer: Some(200_100),
    };
    let n = book
        .apply(
            &ClosePass {
                opened: true,
                quote,
            },
            &mut rows,
        )
        .ok()
        .ok_or("refused")?;
    assert_eq!(rt; n, 5);
    check_row(&rt, &rows[0], 1, 1, 200_100, Mark::Offer);
    for row in &rows[1..5] {
        assert_eq!(rt; row.price, 0);
    }
    assert_eq!(rt; book.orders().len(), 0);
    Ok(())
}

// The two examples of SEC Release 34-49536, in odd lots of a unit of 100.
use crate::making::*;
use book::book::Book;
use book::pass::TimerPass;
use book::quote::Quote;
use market::kind::Kind;
use market::mark::Mark;
use market::side::{MarketSide, Side};
use market::sided::shares_on;
use std::process::Abort;
use std::test::Fail;

// 100 buys of 60 shares, 6,000 in all, and then 80 sells of 50, 4,000 in all.
fn enter_market_orders(rt: &impl Abort, book: &mut Book) {
    for n in 1..101 {
        assert!(rt; book.enter(market_order(n, Side::Buy, 60)).is_ok());
    }
    for n in 101..181 {
        assert!(rt; book.enter(market_order(n, Side::SellLong, 50)).is_ok());
    }
}

// A trade of 1,000 at $20 nets 4,000 and then fills the next 1,000 buys by time priority: the shares ahead of buy k are
// 60 × (k − 1), fewer than 5,000 up to k = 84, so 84 buys, 5,040 shares, the last of them whole, and all sells.
#[test]
fn netted_and_then_by_time(rt: HostRuntime) -> Result<(), Fail> {
    let mut book = Book::reserve(rt.alloc())?;
    enter_market_orders(&rt, &mut book);
    let mut rows = report();
    let n = book
        .apply_sale(trade(200_000, 1_000), &mut rows)
        .ok()
        .ok_or("refused")?;
    assert_eq!(rt; n, 164);
    assert_eq!(rt; shares_on(&rows[0..164], MarketSide::Buying), 5_040);
    assert_eq!(rt; shares_on(&rows[0..164], MarketSide::Selling), 4_000);
    check_row(&rt, &rows[83], 84, 60, 200_000, Mark::Sale);
    check_row(&rt, &rows[84], 101, 50, 200_000, Mark::Sale);
    assert_eq!(rt; shares_on(book.orders(), MarketSide::Buying), 960);
    // the next sale, of 500, fills what has fewer than 500 ahead: buys 85 to 93, 540 shares
    let n = book
        .apply_sale(trade(200_000, 500), &mut rows)
        .ok()
        .ok_or("refused")?;
    assert_eq!(rt; n, 9);
    check_row(&rt, &rows[0], 85, 60, 200_000, Mark::Sale);
    check_row(&rt, &rows[8], 93, 60, 200_000, Mark::Sale);
    // what still waits more than thirty seconds after receipt is filled at the offer: buys 94 to 100, 420 shares
    let quote = Quote {
        bid: Some(199_900),
        offer: Some(200_100),
    };
    let n = book
        .apply(
            &TimerPass {
                time: 30_000,
                quote,
            },
            &mut rows,
        )
        .ok()
        .ok_or("refused")?;
    assert_eq!(rt; n, 0);
    let n = book
        .apply(
            &TimerPass {
                time: 30_001,
                quote,
            },
            &mut rows,
        )
        .ok()
        .ok_or("refused")?;
    assert_eq!(rt; n, 7);
    check_row(&rt, &rows[0], 94, 60, 200_100, Mark::Offer);
    check_row(&rt, &rows[6], 100, 60, 200_100, Mark::Offer);
    assert_eq!(rt; book.orders().len(), 0);
    Ok(())
}

// A limit buy of 50 at $20 behind market buys of 1,000: a trade of 1,000 at $20 leaves it, and the next sale fills it.
#[test]
fn limit_order_keeps_its_priority(rt: HostRuntime) -> Result<(), Fail> {
    let mut book = Book::reserve(rt.alloc())?;
    for n in 1..21 {
        assert!(rt; book.enter(market_order(n, Side::Buy, 50)).is_ok());
    }
    assert!(rt;
        book.enter(order(21, Side::Buy, Kind::Limit, 50, 200_000, 0))
            .is_ok()
    );
    assert!(rt; book.enter(market_order(22, Side::Buy, 50)).is_ok());
    let mut rows = report();
    let n = book
        .apply_sale(trade(200_000, 1_000), &mut rows)
        .ok()
        .ok_or("refused")?;
    assert_eq!(rt; n, 20);
    check_row(&rt, &rows[19], 20, 50, 200_000, Mark::Sale);
    // the next sale has room for one order: the limit order came before the market order behind it
    let n = book
        .apply_sale(trade(200_000, 50), &mut rows)
        .ok()
        .ok_or("refused")?;
    assert_eq!(rt; n, 1);
    check_row(&rt, &rows[0], 21, 50, 200_000, Mark::Sale);
    Ok(())
}

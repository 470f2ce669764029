// One whole day by calls, above a totals ledger from zero: each call with its answer, and its rows.
use crate::sale::show_row;
use book::book::Book;
use book::row::Row;
use day::live::Day;
use ledger::posting::Ledger;
use ledger::start::Start;
use ledger::totals::Totals;
use market::refusal::Refusal;
use rules::call::{NewDay, NewOrder, NewSale};
use std::io;

// A call that answers a count, and the rows that it wrote.
fn show_rows(
    rt: &HostRuntime,
    call: &str,
    answer: Result<usize, Refusal>,
    report: &[Row],
) -> io::Result<()> {
    match answer {
        Ok(n) => {
            println!(rt; "{call}: {n}")?;
            for row in report.iter().take(n) {
                show_row(rt, row)?;
            }
            Ok(())
        }
        Err(refusal) => println!(rt; "{call}: refused with {}", u32::from(refusal)),
    }
}

// A call that answers a number.
fn show_number(rt: &HostRuntime, call: &str, answer: Result<u32, Refusal>) -> io::Result<()> {
    match answer {
        Ok(n) => println!(rt; "{call}: {n}"),
        Err(refusal) => println!(rt; "{call}: refused with {}", u32::from(refusal)),
    }
}

// An order to buy at the market.
fn market_buy(shares: u32) -> NewOrder {
    NewOrder {
        side: 1,
        kind: 1,
        shares,
        limit: 0,
        stop: 0,
    }
}

fn sale(price: u32) -> NewSale {
    NewSale { price, volume: 10 }
}

// The opening and the orders.
fn open<L: Ledger>(rt: &HostRuntime, day: &mut Day<L>, rows: &mut [Row]) -> io::Result<()> {
    let answer = day.clock(34_200_000, rows);
    show_rows(rt, "clock 34200000", answer, rows)?;
    let answer = day.opening(sale(200_000), rows);
    show_rows(rt, "opening 200000 10", answer, rows)?;
    show_number(rt, "order 1 1 9 0 0", day.order(market_buy(9)))?;
    show_number(rt, "order 1 1 9 0 0", day.order(market_buy(9)))?;
    let limit_buy = NewOrder {
        kind: 2,
        limit: 200_000,
        ..market_buy(5)
    };
    show_number(rt, "order 1 2 5 200000 0", day.order(limit_buy))?;
    show_number(rt, "order 1 1 10 0 0", day.order(market_buy(10)))
}

// The trades and the close.
fn trade<L: Ledger>(rt: &HostRuntime, day: &mut Day<L>, rows: &mut [Row]) -> io::Result<()> {
    let answer = day.trade(sale(200_000), rows);
    show_rows(rt, "trade 200000 10", answer, rows)?;
    let answer = day.trade(sale(199_900), rows);
    show_rows(rt, "trade 199900 10", answer, rows)?;
    show_number(rt, "cancel 3", day.cancel(3))?;
    let answer = day.close(rows);
    show_rows(rt, "close", answer, rows)?;
    let answer = day.close(rows);
    show_rows(rt, "close", answer, rows)
}

// The day, from the making to the ledger that it gives back.
pub(crate) fn show(rt: &HostRuntime) -> io::Result<()> {
    println!(rt;
        "a day of unit 10, prior close 199000, tag 1: each call with its answer and its rows"
    )?;
    let (start, _) = Start::new(0, 0);
    let book = Book::reserve(rt.alloc())?;
    let new = NewDay {
        unit: 10,
        prior_close: 199_000,
        tag: 1,
    };
    let (mut day, _) = Day::new(book, Totals::new(&start), new);
    let mut rows = [Row::blank(); 8];
    open(rt, &mut day, &mut rows)?;
    trade(rt, &mut day, &mut rows)?;
    let ledger = day.into_ledger();
    let (shares, money, places) = (ledger.shares(), ledger.money(), ledger.places());
    println!(rt; "the ledger: {shares} shares, {money} money, {places} places")
}

// Takes one sale through: from the orders in the book to the rows of the report and the orders that are left.
use book::book::Book;
use book::order::Order;
use book::row::Row;
use book::sale::{RoundLot, is_rising};
use market::kind::Kind;
use market::refusal::Refusal;
use market::side::Side;
use std::io;

// An order that came at time 0. The book's tests have a helper like it, for the same reason as that of `posting`.
fn order(number: u32, side: Side, kind: Kind, shares: u32, limit: u32, stop: u32) -> Order {
    Order {
        number,
        side,
        kind,
        shares,
        limit,
        stop,
        receipt: 0,
        elected: false,
        in_hand: false,
    }
}

fn orders() -> [Order; 8] {
    [
        order(1, Side::Buy, Kind::Market, 60, 0, 0),
        order(2, Side::SellLong, Kind::Market, 40, 0, 0),
        order(3, Side::Buy, Kind::Limit, 99, 200_100, 0),
        order(4, Side::SellShort, Kind::Market, 25, 0, 0),
        order(5, Side::Buy, Kind::Limit, 50, 200_000, 0),
        order(6, Side::Buy, Kind::Stop, 30, 0, 200_100),
        order(7, Side::Buy, Kind::Market, 80, 0, 0),
        order(8, Side::Buy, Kind::Market, 10, 0, 0),
    ]
}

fn show_order(rt: &HostRuntime, order: &Order) -> io::Result<()> {
    let elected = if order.elected { ", elected" } else { "" };
    println!(rt;
        "  order {}: {} {}, {}, limit {}, stop {}{elected}",
        order.number, order.side, order.shares, order.kind, order.limit, order.stop
    )
}

// The five numbers of a row.
pub(crate) fn show_row(rt: &HostRuntime, row: &Row) -> io::Result<()> {
    println!(rt;
        "  {} {} {} {} {}",
        row.number,
        u32::from(row.side),
        row.shares,
        row.price,
        u32::from(row.mark)
    )
}

// Enters the orders, and shows each with the answer where it is refused.
fn enter_orders(rt: &HostRuntime, book: &mut Book) -> io::Result<()> {
    for order in orders() {
        match book.enter(order) {
            Ok(()) => show_order(rt, &order)?,
            Err(refusal) => println!(rt; "  refused with {}", u32::from(refusal))?,
        }
    }
    Ok(())
}

// Shows the rows of a sale, or why it was refused.
fn show_rows(rt: &HostRuntime, answer: Result<usize, Refusal>, report: &[Row]) -> io::Result<()> {
    match answer {
        Ok(n) => {
            println!(rt; "rows: number, side, shares, price, mark")?;
            for row in report.iter().take(n) {
                show_row(rt, row)?;
            }
            Ok(())
        }
        Err(refusal) => println!(rt; "refused with {}", u32::from(refusal)),
    }
}

// The sale, from the orders to the rows and to what is left.
pub(crate) fn show(rt: &HostRuntime) -> io::Result<()> {
    let mut book = Book::reserve(rt.alloc())?;
    println!(rt; "the book before a sale of 100 at 200100, after 200000")?;
    enter_orders(rt, &mut book)?;
    let sale = RoundLot {
        price: 200_100,
        volume: 100,
        rising: is_rising(200_000, false, 200_100),
        opening: false,
    };
    let mut report = [Row::blank(); 8];
    let answer = book.apply_sale(sale, &mut report);
    show_rows(rt, answer, &report)?;
    println!(rt; "the book after it")?;
    for order in book.orders() {
        show_order(rt, order)?;
    }
    Ok(())
}

// Starts, posts and exhausted journals.
use ledger::apart::apart;
use ledger::fill::Fill;
use ledger::journal::Journal;
use ledger::posting::Ledger;
use ledger::row::JournalRow;
use ledger::start::Start;
use ledger::totals::Totals;
use market::refusal::Refusal;
use market::side::Side;
use std::process::Abort;
use std::test::Fail;

const MOST_SHARES: i64 = 1_000_000_000;

const MOST_MONEY: i64 = 100_000_000_000_000_000;

// A fill of these fields.
fn fill(side: Side, shares: u32, price: u32) -> Fill {
    Fill {
        side,
        shares,
        price,
    }
}

// The three numbers of a ledger.
fn check_numbers<L: Ledger>(rt: &impl Abort, ledger: &L, shares: i64, money: i64, places: usize) {
    assert_eq!(rt; ledger.shares(), shares);
    assert_eq!(rt; ledger.money(), money);
    assert_eq!(rt; ledger.places(), places);
}

// A start that is refused makes both ledgers at zero without places.
fn check_start(rt: &impl Abort, shares: i64, money: i64, good: bool) {
    let (start, answer) = Start::new(shares, money);
    let mut rows = [JournalRow::blank(); 3];
    let totals = Totals::new(&start);
    let journal = Journal::new(&mut rows, &start);
    if good {
        assert_eq!(rt; answer, Ok(()));
        check_numbers(rt, &totals, shares, money, 1_048_576);
        check_numbers(rt, &journal, shares, money, 3);
    } else {
        assert_eq!(rt; answer, Err(Refusal::BadField));
        check_numbers(rt, &totals, 0, 0, 0);
        check_numbers(rt, &journal, 0, 0, 0);
    }
}

#[test]
fn starts(rt: HostRuntime) {
    let table = [
        (0, 0, true),
        (MOST_SHARES, MOST_MONEY, true),
        (-MOST_SHARES, -MOST_MONEY, true),
        (MOST_SHARES + 1, 0, false),
        (-MOST_SHARES - 1, 0, false),
        (0, MOST_MONEY + 1, false),
        (0, -MOST_MONEY - 1, false),
        (i64::MIN, i64::MAX, false),
    ];
    for (shares, money, good) in table {
        check_start(&rt, shares, money, good);
    }
}

// Posts both ends of each range to a ledger that stands at zero with two places, and then finds no place.
fn check_posts<L: Ledger>(rt: &impl Abort, ledger: &mut L, places: usize) {
    for (quantity, price) in [
        (0, 1),
        (100, 1),
        (1, 0),
        (1, 200_000_001),
        (u32::MAX, u32::MAX),
    ] {
        assert_eq!(rt;
            ledger.post(fill(Side::Buy, quantity, price)),
            Err(Refusal::BadField)
        );
        assert_eq!(rt; ledger.places(), places);
    }
    assert_eq!(rt; ledger.post(fill(Side::Buy, 99, 200_000_000)), Ok(()));
    assert_eq!(rt; ledger.shares(), -99);
    assert_eq!(rt; ledger.money(), 19_800_000_000);
    assert_eq!(rt; ledger.post(fill(Side::SellShort, 1, 1)), Ok(()));
    assert_eq!(rt; ledger.shares(), -98);
    assert_eq!(rt; ledger.money(), 19_799_999_999);
    assert!(rt; ledger.places() < places);
}

#[test]
fn posts(rt: HostRuntime) {
    let (start, _) = Start::new(0, 0);
    let mut totals = Totals::new(&start);
    check_posts(&rt, &mut totals, 1_048_576);
    assert_eq!(rt; totals.places(), 1_048_574);
    let mut rows = [JournalRow::blank(); 2];
    let mut journal = Journal::new(&mut rows, &start);
    check_posts(&rt, &mut journal, 2);
    assert_eq!(rt; journal.places(), 0);
    assert_eq!(rt; journal.post(fill(Side::Buy, 0, 1)), Err(Refusal::BadField));
    assert_eq!(rt;
        journal.post(fill(Side::Buy, 1, 1)),
        Err(Refusal::LedgerFull)
    );
    check_numbers(&rt, &journal, -98, 19_799_999_999, 0);
}

// Ledgers of two kinds, from the two ends of what a start may be. A customer buys 60 shares at 200,000, which is 12,000,000.
#[test]
fn far_apart(rt: HostRuntime) {
    let (high, _) = Start::new(MOST_SHARES, MOST_MONEY);
    let (low, _) = Start::new(-MOST_SHARES, -MOST_MONEY);
    let mut totals = Totals::new(&high);
    let mut rows = [JournalRow::blank(); 2];
    let journal = Journal::new(&mut rows, &low);
    assert_eq!(rt;
        apart(&totals, &journal),
        (2_000_000_000, 200_000_000_000_000_000)
    );
    assert_eq!(rt; totals.post(fill(Side::Buy, 60, 200_000)), Ok(()));
    assert_eq!(rt;
        apart(&totals, &journal),
        (1_999_999_940, 200_000_000_012_000_000)
    );
    assert_eq!(rt;
        apart(&journal, &totals),
        (-1_999_999_940, -200_000_000_012_000_000)
    );
}

// Fills a journal over so many rows: it takes as many postings as it has places, and leaves the later rows alone.
fn check_exhausted(rt: &impl Abort, rows: &mut [JournalRow], places: usize) {
    let (start, _) = Start::new(0, 0);
    let mut journal = Journal::new(rows, &start);
    for n in 0..places {
        assert_eq!(rt; journal.places(), places - n);
        assert_eq!(rt; journal.post(fill(Side::SellLong, 1, 1)), Ok(()));
    }
    assert_eq!(rt;
        journal.post(fill(Side::SellLong, 1, 1)),
        Err(Refusal::LedgerFull)
    );
    assert_eq!(rt; journal.written().len(), places);
    assert_eq!(rt; journal.shares(), places as i64);
    assert_eq!(rt; journal.money(), -(places as i64));
    assert_eq!(rt; journal.places(), 0);
    for row in rows.iter().skip(places) {
        assert_eq!(rt; row.fill.shares, 0);
    }
}

#[test]
fn exhausted(rt: HostRuntime) -> Result<(), Fail> {
    check_exhausted(&rt, &mut [], 0);
    check_exhausted(&rt, &mut [JournalRow::blank()], 1);
    let mut rows = vec![in rt.alloc(); JournalRow::blank(); 65_537]?;
    check_exhausted(&rt, rows.as_mut_slice(), 65_536);
    Ok(())
}

// Books one morning's fills into a totals ledger and into a journal, which then agree.
ghost use Rattle.ledger.specs.Law.{AddsUp};

use ledger::fill::Fill;
use ledger::journal::Journal;
use ledger::post_all::post_all;
use ledger::posting::Ledger;
use ledger::postings::Posting;
use ledger::row::JournalRow;
use ledger::start::Start;
use ledger::totals::Totals;
use market::refusal::Refusal;
use market::side::Side;
use std::io;

// A fill of these fields, to be posted. The tests have a helper like it: they and this program share no crate of helpers.
fn posting(side: Side, shares: u32, price: u32) -> Posting {
    Posting::from(Fill {
        side,
        shares,
        price,
    })
}

// The fills of the morning, one of which no ledger takes: 100 shares are no odd lot.
fn morning() -> [Posting; 9] {
    [
        posting(Side::Buy, 60, 200_000),
        posting(Side::SellLong, 40, 200_000),
        posting(Side::SellShort, 25, 200_100),
        posting(Side::Buy, 99, 200_100),
        posting(Side::Buy, 100, 200_000),
        posting(Side::Buy, 1, 1),
        posting(Side::SellLong, 99, 200_000_000),
        posting(Side::SellShort, 7, 199_950),
        posting(Side::Buy, 30, 199_900),
    ]
}

// One line for a posting and what became of it.
fn show_posting(rt: &HostRuntime, posting: &Posting) -> io::Result<()> {
    let Fill {
        side,
        shares,
        price,
    } = posting.fill;
    match posting.answer {
        None => println!(rt; "  {side} {shares} at {price}: not posted"),
        Some(Ok(())) => println!(rt; "  {side} {shares} at {price}: accepted"),
        Some(Err(refusal)) => {
            println!(rt;
                "  {side} {shares} at {price}: refused with {}",
                u32::from(refusal)
            )
        }
    }
}

// One line for the three numbers of a ledger.
fn show_position<L: Ledger>(rt: &HostRuntime, ledger: &L) -> io::Result<()> {
    let shares = ledger.shares();
    let money = ledger.money();
    let places = ledger.places();
    println!(rt; "  position: {shares} shares, {money} money, {places} places")
}

// Posts a list to a ledger, and shows each posting and the position after them.
fn book<L: Ledger>(rt: &HostRuntime, ledger: &mut L, postings: &mut [Posting]) -> io::Result<()>
    ensures { AddsUp (L.numbers ledger.old) postings.new (L.numbers ledger.new) }
{
    post_all(ledger, postings);
    for posting in postings.iter() {
        show_posting(rt, posting)?;
    }
    show_position(rt, ledger)
}

// The answer to a start.
fn show_start(
    rt: &HostRuntime,
    shares: i64,
    money: i64,
    answer: Result<(), Refusal>,
) -> io::Result<()> {
    match answer {
        Ok(()) => println!(rt; "start at {shares} shares, {money} money: accepted"),
        Err(refusal) => {
            println!(rt;
                "start at {shares} shares, {money} money: refused with {}",
                u32::from(refusal)
            )
        }
    }
}

// The morning, from the starts to the positions.
pub(crate) fn show(rt: &HostRuntime) -> io::Result<()> {
    let (_, answer) = Start::new(1_000_000_001, 0);
    show_start(rt, 1_000_000_001, 0, answer)?;
    let (start, answer) = Start::new(500, 1_000_000_000);
    show_start(rt, 500, 1_000_000_000, answer)?;

    println!(rt; "totals ledger")?;
    let mut totals = Totals::new(&start);
    book(rt, &mut totals, &mut morning())?;

    println!(rt; "journal of 8 rows")?;
    let mut rows = [JournalRow::blank(); 8];
    let mut journal = Journal::new(&mut rows, &start);
    book(rt, &mut journal, &mut morning())?;
    book(rt, &mut journal, &mut [posting(Side::SellLong, 5, 200_000)])
}

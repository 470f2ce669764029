// A file played record by record.
ghost use Rattle.std.specs.Prelude.{◌≡◌, ◌≤◌, length};
ghost use Rattle.ledger.specs.Opening.{totals_numbers};
ghost use Rattle.play.specs.Runs.{unmade};
ghost use Rattle.play.specs.Steps.{DayOpened, DayPlayed, PlayedOn};
ghost use Rattle.play.specs.declared.instruction.Instruction.TheVariants.{Make};

use crate::calls::play_call;
use crate::instruction::Instruction;
use crate::line::Line;
use crate::page::Page;
use book::book::Book;
use book::row::Row;
use day::live::Day;
use dayfile::fault::Fault;
use dayfile::reading::record_at;
use dayfile::records::Records;
use ledger::posting::Ledger;
use ledger::start::Start;
use ledger::totals::Totals;
use rules::call::NewDay;

// A report of 512 places.
fn blank_report() -> [Row; 512]
    ensures { length result ≡ 512 }
{
    [Row::blank(); 512]
}

// A totals ledger at zero.
fn zero_totals() -> Totals
    ensures { totals_numbers result ≡ unmade.ledger }
{
    let (start, _) = Start::new(0, 0);
    Totals::new(&start)
}

// Makes the day that a start asks for. Where the making is refused, the day is closed, and that is printed.
fn open_day(book: Book, making: NewDay, page: &mut Page<'_>) -> Day<Totals>
    ensures { DayOpened (Make making) page.old result page.new }
{
    let (day, made) = Day::new(book, zero_totals(), making);
    if let Err(reason) = made {
        page.print(Line::Refused { record: 1, reason });
    }
    day
}

// Plays the records after the start, and answers the last line.
fn play_rest(
    file: &[u8],
    first: usize,
    day: &mut Day<Totals>,
    page: &mut Page<'_>,
) -> Result<Line, Fault>
    requires inside { first ≤ length file.now }
    requires short { length file.now ≤ 65536 }
    requires past { 4 ≤ first }
    ensures { DayPlayed file.now first day.old page.old result page.new }
{
    let mut report = blank_report();
    // Counted beside the records: `enumerate` counts from 0 and in usize, where a record's number counts from 2 and in u32.
    let mut record: u32 = 1;
    for found in Records::new(file, first) {
        let found = found?;
        record += 1;
        let Instruction::Call(call) = Instruction::from(found.record.entry()) else {
            // only the first record of a file is a start
            unreachable()
        };
        play_call(day, call, record, &mut report, page);
    }
    Ok(Line::Total {
        shares: day.ledger().shares(),
        money: day.ledger().money(),
    })
}

// Plays a file on an empty page, and answers the last line, or the fault that makes it.
pub(crate) fn play_file(book: Book, file: &[u8], page: &mut Page<'_>) -> Result<Line, Fault>
    ensures { PlayedOn file.now page.old result page.new }
{
    if file.len() > 65_536 {
        return Err(Fault::too_long());
    }
    let start = record_at(file, 0)?;
    let Instruction::Make(making) = Instruction::from(start.record.entry()) else {
        // the first record of a file is a start
        unreachable()
    };
    let mut day = open_day(book, making, page);
    play_rest(file, start.record.part().len(), &mut day, page)
}

// Calls of a day, made and printed.
ghost use Rattle.std.specs.Prelude.{◌≡◌, length};
ghost use Rattle.play.specs.Steps.{CallDone, CallPlayed};

use crate::line::Line;
use crate::page::Page;
use book::row::Row;
use day::live::Day;
use ledger::totals::Totals;
use market::refusal::Refusal;
use rules::call::Call;

// Makes a call, and answers how many rows it has.
#[tactic(auto, using(crate::proofs::Doing::row_made))]
fn make_call(day: &mut Day<Totals>, call: Call, report: &mut [Row]) -> Result<usize, Refusal>
    ensures { CallDone call day.old report.old result day.new report.new }
{
    match call {
        Call::Order(new) => day.order(new).map(|_| 0),
        Call::Cancel(number) => day.cancel(number).map(|_| 0),
        Call::Quote(new) => day.quote(new).map(|_| 0),
        Call::Clock(time) => day.clock(time, report),
        Call::Opening(new) => day.opening(new, report),
        Call::Trade(new) => day.trade(new, report),
        Call::Close => day.close(report),
    }
}

// Plays a call: prints its rows, or that the record was refused.
pub(crate) fn play_call(
    day: &mut Day<Totals>,
    call: Call,
    record: u32,
    report: &mut [Row],
    page: &mut Page<'_>,
)
    requires { length report.old ≡ 512 }
    ensures { CallPlayed call «record» day.old page.old day.new page.new }
{
    match make_call(day, call, report) {
        Ok(n) => page.print_rows(&report[..n]),
        Err(reason) => page.print(Line::Refused { record, reason }),
    }
}

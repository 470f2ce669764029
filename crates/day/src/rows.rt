// The calls that write rows: clock, opening, trade and close.
ghost use Rattle.std.specs.Prelude.{◌≡◌, true, map, None};
ghost use Rattle.std.specs.List.{list_all};
ghost use Rattle.market.specs.Limits.{is_price};
ghost use Rattle.book.specs.Books.{orders_of};
ghost use Rattle.book.specs.Passes.{rows_by, stays_by};
ghost use Rattle.book.specs.Sales.{elect as elect_at};
ghost use Rattle.rules.specs.Machine.{is_posted_well, round_lot, timer_quote};
ghost use Rattle.rules.specs.States.{figures_fit, is_open, order_fits};
ghost use Rattle.rules.specs.declared.call.Call.TheVariants.{Clock, Close, Opening, Trade};
ghost use Rattle.rules.specs.declared.figures.Phase.TheVariants.{Open};
ghost use Rattle.day.specs.Calls.{Carried, SoldOn, early_refusal};
ghost use Rattle.day.specs.Days.{Stepped, state_of};

use crate::live::{Day, Live};
use crate::refusals::is_closed;
use crate::settling::settle;
use book::pass::{ClosePass, Pass, TimerPass};
use book::quote::Quote;
use book::row::Row;
use book::sale::{RoundLot, is_rising};
use ledger::posting::Ledger;
use market::refusal::Refusal;
use rules::call::NewSale;
use rules::figures::{Figures, Phase};

// The sale that an opening or a trade gives.
fn round_lot(figures: Figures, opening: bool, new: NewSale) -> RoundLot
    ensures { result ≡ round_lot figures opening new }
{
    RoundLot {
        price: new.price,
        volume: new.volume,
        rising: is_rising(figures.latest, figures.rising, new.price),
        opening,
    }
}

fn is_open(phase: Phase) -> bool
    ensures { result ≡ is_open phase }
{
    phase == Phase::Open
}

// The quote at which the timer fills: none before the opening.
fn timer_quote(figures: Figures) -> Quote
    ensures { result ≡ timer_quote figures }
{
    if is_open(figures.phase) {
        figures.quote
    } else {
        Quote::default()
    }
}

impl Live {
    // Elects each stop that a sale at this price reaches.
    fn elect(&mut self, price: u32)
        requires { self.old.figures.phase ≡ Open }
        ensures { state_of self.new ≡ record { figures = self.old.figures; book = map (elect_at price) (orders_of self.old.book) } }
    {
        self.book.elect(price);
    }
}

impl<L: Ledger> Day<L> {
    // Carries a pass out, after which the day has these figures; or does nothing, for want of places.
    fn carry<P: Pass>(
        &mut self,
        pass: &P,
        figures: Figures,
        report: &mut [Row],
    ) -> Result<usize, Refusal>
        requires well { list_all is_posted_well (rows_by (P.leaves pass.now) (orders_of self.old.live.book)) ≡ true }
        requires fit { figures_fit figures ≡ true }
        requires fits { list_all (order_fits figures) (stays_by (P.leaves pass.now) (orders_of self.old.live.book)) ≡ true }
        requires unit { figures.unit ≡ self.old.live.figures.unit }
        ensures { Carried (P.leaves pass.now) figures (state_of self.old.live) report.old (L.numbers self.old.ledger) result (state_of self.new.live) report.new (L.numbers self.new.ledger) }
    {
        let n = settle(&mut self.live.book, &mut self.ledger, pass, report)?;
        self.live.figures = figures;
        Ok(n)
    }

    // Closes a day that is not closed.
    fn end(&mut self, report: &mut [Row]) -> Result<usize, Refusal>
        requires { early_refusal (state_of self.old.live) Close ≡ None }
        ensures { Stepped L.numbers Close self.old report.old result self.new report.new }
    {
        let figures = self.live.figures;
        let pass = ClosePass {
            opened: is_open(figures.phase),
            quote: figures.quote,
        };
        let closed = Figures {
            phase: Phase::Closed,
            ..figures
        };
        self.carry(&pass, closed, report)
    }

    // Fills at the quote, and then every order that is left lapses; the day is closed after it.
    pub fn close(&mut self, report: &mut [Row]) -> Result<usize, Refusal>
        ensures { Stepped L.numbers Close self.old report.old result self.new report.new }
    {
        if is_closed(self.live.figures.phase) {
            return Err(Refusal::DayClosed);
        }
        self.end(report)
    }

    // Moves the time of a day that takes it.
    fn tick(&mut self, time: u32, report: &mut [Row]) -> Result<usize, Refusal>
        requires { early_refusal (state_of self.old.live) (Clock time) ≡ None }
        ensures { Stepped L.numbers (Clock time) self.old report.old result self.new report.new }
    {
        let figures = self.live.figures;
        let quote = timer_quote(figures);
        self.carry(
            &TimerPass { time, quote },
            Figures { time, ..figures },
            report,
        )
    }

    // Moves the time, and in an open day fills the orders that are due then, at the quote.
    pub fn clock(&mut self, time: u32, report: &mut [Row]) -> Result<usize, Refusal>
        ensures { Stepped L.numbers (Clock time) self.old report.old result self.new report.new }
    {
        self.live.may_tick(time)?;
        self.tick(time, report)
    }

    // Carries a sale out: its fills, the elections, and its price as the latest.
    fn sell(&mut self, sale: RoundLot, report: &mut [Row]) -> Result<usize, Refusal>
        requires { is_price sale.price ≡ true }
        ensures { SoldOn sale (state_of self.old.live) report.old (L.numbers self.old.ledger) result (state_of self.new.live) report.new (L.numbers self.new.ledger) }
    {
        let pass = self.live.book.sale(sale);
        let after = Figures {
            phase: Phase::Open,
            latest: sale.price,
            rising: sale.rising,
            ..self.live.figures
        };
        let n = self.carry(&pass, after, report)?;
        self.live.elect(sale.price);
        Ok(n)
    }

    // The first sale of the day, which opens it. An opening and a trade stay two calls of two lines: they differ in the check.
    pub fn opening(&mut self, new: NewSale, report: &mut [Row]) -> Result<usize, Refusal>
        ensures { Stepped L.numbers (Opening new) self.old report.old result self.new report.new }
    {
        self.live.may_open(new)?;
        self.sell(round_lot(self.live.figures, true, new), report)
    }

    // A sale after the opening.
    pub fn trade(&mut self, new: NewSale, report: &mut [Row]) -> Result<usize, Refusal>
        ensures { Stepped L.numbers (Trade new) self.old report.old result self.new report.new }
    {
        self.live.may_trade(new)?;
        self.sell(round_lot(self.live.figures, false, new), report)
    }
}

// Why a call is refused, before its rows are counted: the first reason that fits.
ghost use Rattle.std.specs.Prelude.{◌≡◌};
ghost use Rattle.ledger.specs.Posting.{answer_of};
ghost use Rattle.rules.specs.Machine.{clock_refusal, quote_refusal, sale_refusal};
ghost use Rattle.rules.specs.States.{is_closed};
ghost use Rattle.rules.specs.declared.call.Call.TheVariants.{Clock, Opening, Trade, Quote as QuoteCall};
ghost use Rattle.day.specs.Calls.{early_refusal};
ghost use Rattle.day.specs.Days.{state_of};

use crate::live::Live;
use market::limits::{is_price, is_time, is_volume};
use market::refusal::Refusal;
use rules::call::{NewQuote, NewSale};
use rules::figures::{Figures, Phase};

// Whether a day in this phase refuses every call, with 1.
pub(crate) fn is_closed(phase: Phase) -> bool
    ensures { result ≡ is_closed phase }
{
    phase == Phase::Closed
}

// Refusals 4 and 6 of a quote.
fn check_quote(quote: NewQuote) -> Result<(), Refusal>
    ensures { result ≡ answer_of (quote_refusal quote) }
{
    let bid_fits = quote.bid == 0 || is_price(quote.bid);
    let offer_fits = quote.offer == 0 || is_price(quote.offer);
    if !bid_fits || !offer_fits {
        Err(Refusal::BadField)
    } else if quote.bid == 0 || quote.offer == 0 || quote.bid < quote.offer {
        Ok(())
    } else {
        Err(Refusal::QuoteCrossed)
    }
}

// Refusals 4 and 5 of a clock.
fn check_clock(figures: &Figures, time: u32) -> Result<(), Refusal>
    ensures { result ≡ answer_of (clock_refusal figures.now time) }
{
    if !is_time(time) {
        Err(Refusal::BadField)
    } else if time < figures.time {
        Err(Refusal::TimeEarlier)
    } else {
        Ok(())
    }
}

// Refusal 4 of a sale.
fn check_sale(figures: &Figures, sale: NewSale) -> Result<(), Refusal>
    ensures { result ≡ answer_of (sale_refusal figures.now sale) }
{
    if is_price(sale.price) && is_volume(figures.unit, sale.volume) {
        Ok(())
    } else {
        Err(Refusal::BadField)
    }
}

// One function for each call. Over `Call`, an order and a cancel would be looked up twice, since their checks give what they
// find; and one function for these four would be told by its caller which refusals the phases have, and which check.
impl Live {
    // Whether a quote call may be carried out, or why not.
    pub(crate) fn may_quote(&self, quote: NewQuote) -> Result<(), Refusal>
        ensures { result ≡ answer_of (early_refusal (state_of self.now) (QuoteCall quote)) }
    {
        match self.figures.phase {
            Phase::Closed => Err(Refusal::DayClosed),
            Phase::Unopened | Phase::Open => check_quote(quote),
        }
    }

    // Whether the time may move, or why not.
    pub(crate) fn may_tick(&self, time: u32) -> Result<(), Refusal>
        ensures { result ≡ answer_of (early_refusal (state_of self.now) (Clock time)) }
    {
        match self.figures.phase {
            Phase::Closed => Err(Refusal::DayClosed),
            Phase::Unopened | Phase::Open => check_clock(&self.figures, time),
        }
    }

    // Whether this sale may open the day, or why not.
    pub(crate) fn may_open(&self, sale: NewSale) -> Result<(), Refusal>
        ensures { result ≡ answer_of (early_refusal (state_of self.now) (Opening sale)) }
    {
        match self.figures.phase {
            Phase::Closed => Err(Refusal::DayClosed),
            Phase::Open => Err(Refusal::DayOpen),
            Phase::Unopened => check_sale(&self.figures, sale),
        }
    }

    // Whether this sale may be a trade, or why not.
    pub(crate) fn may_trade(&self, sale: NewSale) -> Result<(), Refusal>
        ensures { result ≡ answer_of (early_refusal (state_of self.now) (Trade sale)) }
    {
        match self.figures.phase {
            Phase::Closed => Err(Refusal::DayClosed),
            Phase::Unopened => Err(Refusal::DayUnopened),
            Phase::Open => check_sale(&self.figures, sale),
        }
    }
}

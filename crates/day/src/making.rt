// The making of a day, and its ledger.
ghost use Rattle.std.specs.Prelude.{◌≡◌};
ghost use Rattle.day.specs.Days.{Made, MadeClosed, fresh_figures, state_of};

use crate::live::{Day, Live};
use book::book::Book;
use book::quote::Quote;
use ledger::posting::Ledger;
use market::limits::{is_price, is_tag, is_unit};
use market::refusal::Refusal;
use rules::call::NewDay;
use rules::figures::{Figures, Phase};

// The figures of a new day.
fn fresh_figures(new: NewDay) -> Figures
    ensures { result ≡ fresh_figures new }
{
    Figures {
        phase: Phase::Unopened,
        unit: new.unit,
        tag: new.tag,
        time: 0,
        quote: Quote::default(),
        latest: new.prior_close,
        rising: false,
        accepted: 0,
    }
}

impl Live {
    // A new day's orders and figures, in the memory of a reserved book; or a closed day, where a field is out of range. A
    // refused making still has a day to give, as the rules say, so the answer stands beside it and not in its place.
    fn new(book: Book, new: NewDay) -> (Live, Result<(), Refusal>)
        ensures made { Made new result.1 (state_of result.0) }
        ensures closed { MadeClosed result.1 (state_of result.0) }
    {
        let mut book = book;
        if is_unit(new.unit) && is_price(new.prior_close) && is_tag(new.tag) {
            let _ = book.clear_for(new.unit);
            let figures = fresh_figures(new);
            (Live { book, figures }, Ok(()))
        } else {
            let _ = book.clear_for(100);
            let figures = Figures {
                phase: Phase::Closed,
                ..fresh_figures(NewDay {
                    unit: 100,
                    prior_close: 1,
                    tag: 1,
                })
            };
            (Live { book, figures }, Err(Refusal::BadField))
        }
    }
}

impl<L: Ledger> Day<L> {
    // Makes a day above a ledger. A refused making gives a closed day that still holds the ledger, untouched: that is a rule, so
    // the answer stands beside the day.
    pub fn new(book: Book, ledger: L, new: NewDay) -> (Day<L>, Result<(), Refusal>)
        ensures made { Made new result.1 (state_of result.0.live) }
        ensures closed { MadeClosed result.1 (state_of result.0.live) }
        ensures ledger { result.0.ledger ≡ ledger }
    {
        let (live, answer) = Live::new(book, new);
        (Day { live, ledger }, answer)
    }

    // The ledger, to ask its three numbers.
    pub fn ledger(&self) -> &L
        ensures { result.now ≡ self.now.ledger }
    {
        &self.ledger
    }

    // Takes the day apart, and gives the ledger back.
    pub fn into_ledger(self) -> L
        ensures { result ≡ self.ledger }
    {
        let Day { live: _, ledger } = self;
        ledger
    }
}

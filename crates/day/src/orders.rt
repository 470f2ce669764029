// The calls that bring and take away orders, the quote, and the question by number.
ghost use Rattle.std.specs.Prelude.{◌≡◌, ◌≤◌, [], if◌then◌else◌, Some, None, Ok, nat_eq, ok_or};
ghost use Rattle.market.specs.declared.mark.Mark.TheVariants.{Lapse};
ghost use Rattle.market.specs.declared.refusal.Refusal.TheVariants.{BadField};
ghost use Rattle.book.specs.Orders.{find_in};
ghost use Rattle.book.specs.Sales.{row_of};
ghost use Rattle.rules.specs.Machine.{after_call, new_order, price_or_none, quote_refusal};
ghost use Rattle.rules.specs.Steps.{quiet};
ghost use Rattle.rules.specs.declared.call.Call.TheVariants.{Cancel, Order as OrderCall, Quote as QuoteCall};
ghost use Rattle.day.specs.Calls.{Admitted, MayCancel};
ghost use Rattle.day.specs.Days.{Stepped, state_of};

use crate::live::{Day, Live};
use crate::refusals::is_closed;
use book::lawful::is_lawful;
use book::order::Order;
use book::pass::Pass;
use book::quote::Quote;
use book::row::Row;
use ledger::posting::Ledger;
use market::kind::Kind;
use market::limits::{has_accepted_room, has_live_room};
use market::mark::Mark;
use market::refusal::Refusal;
use market::side::Side;
use rules::call::{NewOrder, NewQuote};
use rules::figures::Figures;

// The order that an order call makes, or 4 where its fields are out of range.
fn new_order(figures: &Figures, new: NewOrder) -> Result<Order, Refusal>
    requires { figures.now.accepted ≤ 60000 }
    ensures { result ≡ ok_or (new_order figures.now new) BadField }
{
    let side = Side::try_from(new.side)?;
    let kind = Kind::try_from(new.kind)?;
    let order = Order {
        number: figures.accepted + 1,
        side,
        kind,
        shares: new.shares,
        limit: new.limit,
        stop: new.stop,
        receipt: figures.time,
        elected: false,
        in_hand: false,
    };
    if is_lawful(figures.unit, &order) {
        Ok(order)
    } else {
        Err(Refusal::BadField)
    }
}

// A price as a quote call gives it, 0 where it is missing. A function, since the rule's 0 is said here and no conversion of
// std makes an `Option` of a number.
fn price_or_none(price: u32) -> Option<u32>
    ensures { result ≡ price_or_none price }
{
    if price == 0 { None } else { Some(price) }
}

impl Live {
    // The order that an order call makes, or why the call is refused.
    fn admit(&self, new: NewOrder) -> Result<Order, Refusal>
        ensures { Admitted (state_of self.now) new result }
    {
        if is_closed(self.figures.phase) {
            return Err(Refusal::DayClosed);
        }
        let order = new_order(&self.figures, new)?;
        if !has_accepted_room(self.figures.accepted) {
            return Err(Refusal::AcceptedFull);
        }
        if !has_live_room(self.book.orders().len()) {
            return Err(Refusal::BookFull);
        }
        Ok(order)
    }

    // Takes in an order that was admitted.
    fn join(&mut self, new: NewOrder, order: Order)
        requires { Admitted (state_of self.old) new (Ok order) }
        ensures { state_of self.new ≡ after_call (state_of self.old) (OrderCall new) }
    {
        let _ = self.book.enter(order);
        self.figures = Figures {
            accepted: self.figures.accepted + 1,
            ..self.figures
        };
    }

    // The order that a cancel takes away, or why the call is refused.
    fn may_cancel(&self, number: u32) -> Result<Order, Refusal>
        ensures { MayCancel (state_of self.now) number result }
    {
        if is_closed(self.figures.phase) {
            return Err(Refusal::DayClosed);
        }
        match self.book.find(number) {
            None => Err(Refusal::NoSuchOrder),
            Some(order) if order.in_hand => Err(Refusal::OrderInHand),
            Some(order) => Ok(order),
        }
    }

    // Takes the order with a number away.
    fn take_away(&mut self, number: u32)
        ensures { state_of self.new ≡ after_call (state_of self.old) (Cancel number) }
    {
        self.book.settle(&CancelPass { number });
    }

    // Sets the quote.
    fn set_quote(&mut self, new: NewQuote)
        requires { quote_refusal new ≡ None }
        ensures { state_of self.new ≡ after_call (state_of self.old) (QuoteCall new) }
    {
        let quote = Quote {
            bid: price_or_none(new.bid),
            offer: price_or_none(new.offer),
        };
        self.figures = Figures {
            quote,
            ..self.figures
        };
    }
}

// The pass of a cancel: the order with a number leaves. Its row is reported to nobody.
#[derive(Clone, Copy)]
struct CancelPass {
    number: u32,
}

impl Pass for CancelPass {
    ghost leaves = { λ p o. (if nat_eq o.number p.number then Some (row_of 0 Lapse o) else None) };

    fn row(&self, order: &Order) -> Option<Row> {
        if order.number == self.number {
            Some(order.row(0, Mark::Lapse))
        } else {
            None
        }
    }
}

impl<L: Ledger> Day<L> {
    // Enters an order, and answers its number. A price that the kind does not use is 0.
    pub fn order(&mut self, new: NewOrder) -> Result<u32, Refusal>
        ensures { Stepped L.numbers (OrderCall new) self.old [] result self.new [] }
    {
        let order = self.live.admit(new)?;
        self.live.join(new, order);
        Ok(order.number)
    }

    // Takes a waiting order away, and answers its shares.
    pub fn cancel(&mut self, number: u32) -> Result<u32, Refusal>
        ensures { Stepped L.numbers (Cancel number) self.old [] result self.new [] }
    {
        let order = self.live.may_cancel(number)?;
        self.live.take_away(number);
        Ok(order.shares)
    }

    // Sets bid and offer; a missing one is 0.
    pub fn quote(&mut self, new: NewQuote) -> Result<(), Refusal>
        ensures { Stepped L.numbers (QuoteCall new) self.old [] (quiet result) self.new [] }
    {
        self.live.may_quote(new)?;
        self.live.set_quote(new);
        Ok(())
    }

    // The live order with a number, or none.
    pub fn find(&self, number: u32) -> Option<Order>
        ensures { result ≡ find_in number (state_of self.now.live).book }
    {
        self.live.book.find(number)
    }
}

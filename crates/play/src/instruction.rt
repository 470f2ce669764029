// What the records of a file ask for.
ghost use Rattle.std.specs.Prelude.{◌≡◌};

use dayfile::entry::Entry;
use rules::call::{Call, NewDay, NewOrder, NewQuote, NewSale};

// A start makes the day, and every other record is a call. What a record says stays a type apart from the day's calls: the
// reader of files knows no day.
#[derive(Clone, Copy)]
pub enum Instruction {
    Make(NewDay),
    Call(Call),
}

impl From<Entry> for Instruction {
    ghost use Rattle.play.specs.Runs.{instruction_of};

    ghost from_gives = { λ entry instruction. instruction ≡ instruction_of entry };

    fn from(entry: Entry) -> Instruction {
        match entry {
            Entry::Start {
                unit,
                prior_close,
                tag,
            } => Instruction::Make(NewDay {
                unit,
                prior_close,
                tag,
            }),
            Entry::Clock { time } => Instruction::Call(Call::Clock(time)),
            Entry::Order {
                side,
                kind,
                shares,
                limit,
                stop,
            } => Instruction::Call(Call::Order(NewOrder {
                side,
                kind,
                shares,
                limit,
                stop,
            })),
            Entry::Cancel { number } => Instruction::Call(Call::Cancel(number)),
            Entry::Quote { bid, offer } => Instruction::Call(Call::Quote(NewQuote { bid, offer })),
            Entry::Opening { price, volume } => {
                Instruction::Call(Call::Opening(NewSale { price, volume }))
            }
            Entry::Trade { price, volume } => {
                Instruction::Call(Call::Trade(NewSale { price, volume }))
            }
            Entry::Close => Instruction::Call(Call::Close),
        }
    }
}

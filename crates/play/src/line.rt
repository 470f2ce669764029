// The lines that a play prints.
use book::row::Row;
use dayfile::fault::Fault;
use market::refusal::Refusal;

#[derive(Clone, Copy)]
pub enum Line {
    // a row of a report: its five numbers
    Row(Row),
    // a record that was refused: its number in the file, from 1, and the refusal's
    Refused { record: u32, reason: Refusal },
    // the ledger's shares and money, at the end of a file without a fault
    Total { shares: i64, money: i64 },
    // the fault of a file: its byte place and its number
    Fault(Fault),
}

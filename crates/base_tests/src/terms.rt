// Every number, both ways, and the names of sides and kinds.
use market::kind::Kind;
use market::mark::Mark;
use market::numbered::UnknownNumber;
use market::refusal::Refusal;
use market::side::{MarketSide, Side};
use std::test::Fail;

#[test]
fn sides(rt: HostRuntime) {
    for (n, side) in [(1, Side::Buy), (2, Side::SellLong), (3, Side::SellShort)] {
        assert_eq!(rt; u32::from(side), n);
        assert_eq!(rt; Side::try_from(n), Ok(side));
    }
    for n in [0, 4, 258, u32::MAX] {
        assert_eq!(rt; Side::try_from(n), Err(UnknownNumber(n)));
    }
    assert_eq!(rt; Side::Buy.market_side(), MarketSide::Buying);
    assert_eq!(rt; Side::SellLong.market_side(), MarketSide::Selling);
    assert_eq!(rt; Side::SellShort.market_side(), MarketSide::Selling);
}

#[test]
fn kinds(rt: HostRuntime) {
    for (n, kind) in [
        (1, Kind::Market),
        (2, Kind::Limit),
        (3, Kind::Stop),
        (4, Kind::StopLimit),
    ] {
        assert_eq!(rt; u32::from(kind), n);
        assert_eq!(rt; Kind::try_from(n), Ok(kind));
    }
    for n in [0, 5, 257, u32::MAX] {
        assert_eq!(rt; Kind::try_from(n), Err(UnknownNumber(n)));
    }
}

#[test]
fn marks(rt: HostRuntime) {
    let table = [
        (1, Mark::Opening),
        (2, Mark::Sale),
        (3, Mark::Offer),
        (4, Mark::Bid),
        (5, Mark::Hand),
        (6, Mark::Lapse),
    ];
    for (n, mark) in table {
        assert_eq!(rt; u32::from(mark), n);
        assert_eq!(rt; Mark::try_from(n), Ok(mark));
    }
    for n in [0, 7, 262, u32::MAX] {
        assert_eq!(rt; Mark::try_from(n), Err(UnknownNumber(n)));
    }
}

#[test]
fn refusals(rt: HostRuntime) {
    let table = [
        (1, Refusal::DayClosed),
        (2, Refusal::DayUnopened),
        (3, Refusal::DayOpen),
        (4, Refusal::BadField),
        (5, Refusal::TimeEarlier),
        (6, Refusal::QuoteCrossed),
        (7, Refusal::AcceptedFull),
        (8, Refusal::BookFull),
        (9, Refusal::NoSuchOrder),
        (10, Refusal::OrderInHand),
        (11, Refusal::NotForTicket),
        (12, Refusal::BadTicket),
        (13, Refusal::ReportFull),
        (14, Refusal::LedgerFull),
        (15, Refusal::FileTooLong),
        (16, Refusal::FileCut),
        (17, Refusal::BadWord),
        (18, Refusal::OutputShort),
    ];
    for (n, refusal) in table {
        assert_eq!(rt; u32::from(refusal), n);
        assert_eq!(rt; Refusal::try_from(n), Ok(refusal));
    }
    for n in [0, 19, 31, u32::MAX] {
        assert_eq!(rt; Refusal::try_from(n), Err(UnknownNumber(n)));
    }
}

#[test]
fn names(rt: HostRuntime) -> Result<(), Fail> {
    for (side, name) in [
        (Side::Buy, "buy"),
        (Side::SellLong, "sell long"),
        (Side::SellShort, "sell short"),
    ] {
        assert_eq!(rt; side.to_string(rt.alloc())?.as_str(), name);
    }
    for (kind, name) in [
        (Kind::Market, "market"),
        (Kind::Limit, "limit"),
        (Kind::Stop, "stop"),
        (Kind::StopLimit, "stop limit"),
    ] {
        assert_eq!(rt; kind.to_string(rt.alloc())?.as_str(), name);
    }
    Ok(())
}

#[test]
fn unknown_numbers(rt: HostRuntime) -> Result<(), Fail> {
    let unknown = UnknownNumber(258);
    assert_eq!(rt; Refusal::from(unknown), Refusal::BadField);
    let text = unknown.to_string(rt.alloc())?;
    assert_eq!(rt; text.as_str(), "no term has the number 258");
    Ok(())
}

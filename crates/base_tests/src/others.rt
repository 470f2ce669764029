// The law's function over the ledgers that others wrote.
use ledger::fill::Fill;
use ledger::post_all::post_all;
use ledger::posting::Ledger;
use ledger::postings::Posting;
use market::refusal::Refusal;
use market::side::Side;
use other_ledgers::four_sums::FourSums;
use other_ledgers::no_places::NoPlaces;

// A fill of these fields, to be posted. The walkthrough has a helper like it: it and the tests share no crate of helpers.
fn posting(side: Side, shares: u32, price: u32) -> Posting {
    Posting::from(Fill {
        side,
        shares,
        price,
    })
}

fn postings() -> [Posting; 3] {
    [
        posting(Side::Buy, 60, 200_000),
        posting(Side::Buy, 100, 200_000),
        posting(Side::SellShort, 40, 200_100),
    ]
}

#[test]
fn four_sums(rt: HostRuntime) {
    let mut ledger = FourSums::new();
    let mut list = postings();
    post_all(&mut ledger, &mut list);
    assert_eq!(rt; list[0].answer, Some(Ok(())));
    assert_eq!(rt; list[1].answer, Some(Err(Refusal::BadField)));
    assert_eq!(rt; list[2].answer, Some(Ok(())));
    assert_eq!(rt; ledger.shares(), -20);
    assert_eq!(rt; ledger.money(), 3_996_000);
    assert_eq!(rt; ledger.places(), 998);
}

#[test]
fn no_places(rt: HostRuntime) {
    let mut ledger = NoPlaces {};
    let mut list = postings();
    post_all(&mut ledger, &mut list);
    assert_eq!(rt; list[0].answer, Some(Err(Refusal::LedgerFull)));
    assert_eq!(rt; list[1].answer, Some(Err(Refusal::BadField)));
    assert_eq!(rt; list[2].answer, Some(Err(Refusal::LedgerFull)));
    assert_eq!(rt; ledger.shares(), 0);
    assert_eq!(rt; ledger.money(), 0);
    assert_eq!(rt; ledger.places(), 0);
}

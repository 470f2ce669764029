// The limits of the fields. Each test is the range of the same name in specs/. Ranges that differ only in their ends stay
// functions of their own: one function over two numbers would no longer say which field is meant.
ghost use Rattle.std.specs.Prelude.{◌≡◌};
ghost use Rattle.market.specs.Limits.{is_price, is_time, is_unit, is_odd_lot, is_volume, is_tag, has_live_room, has_accepted_room, is_postable};

// Ten-thousandths of a dollar.
pub fn is_price(p: u32) -> bool
    ensures { result ≡ is_price p }
{
    (1..=200_000_000).contains(&p)
}

// Milliseconds after midnight.
pub fn is_time(t: u32) -> bool
    ensures { result ≡ is_time t }
{
    t <= 86_399_999
}

// The unit of trading, a round lot.
pub fn is_unit(unit: u32) -> bool
    ensures { result ≡ is_unit unit }
{
    unit == 10 || unit == 100
}

// An odd lot, 1 to the unit less one.
pub fn is_odd_lot(unit: u32, shares: u32) -> bool
    ensures { result ≡ is_odd_lot unit shares }
{
    is_unit(unit) && (1..unit).contains(&shares)
}

// The volume of a sale.
pub fn is_volume(unit: u32, volume: u32) -> bool
    ensures { result ≡ is_volume unit volume }
{
    is_unit(unit) && (unit..=100_000_000).contains(&volume)
}

// The tag of a day.
pub fn is_tag(tag: u32) -> bool
    ensures { result ≡ is_tag tag }
{
    (1..=268_435_455).contains(&tag)
}

// Whether one more order may join this many live ones.
pub fn has_live_room(live: usize) -> bool
    ensures { result ≡ has_live_room live }
{
    live < 512
}

// Whether one more order may be accepted after this many.
pub fn has_accepted_room(accepted: u32) -> bool
    ensures { result ≡ has_accepted_room accepted }
{
    accepted < 60_000
}

// The shares of one posting to a ledger.
pub fn is_postable(shares: u32) -> bool
    ensures { result ≡ is_postable shares }
{
    (1..=99).contains(&shares)
}

// A walk through what is delivered: a morning booked into two ledgers, one sale, and a whole day.
#![tactic(auto)]

mod morning;
mod sale;
mod whole_day;

use std::io;

fn main(rt: HostRuntime) -> io::Result<()> {
    morning::show(&rt)?;
    sale::show(&rt)?;
    whole_day::show(&rt)
}

// The program: plays the day file on standard input, and prints its lines.
#![tactic(auto)]

ghost use Rattle.std.specs.Prelude.{IfOk};
ghost use Rattle.odd_lot_day.specs.Wholes.{WholeText};

use anyhow::anyhow;
use market::refusal::Refusal;
use play::play::play;
use std::alloc::Global;
use std::io::{Read, Write};

// The file on standard input: at most one byte more than a file may have, since a longer one is faulty however it goes on.
fn read_input(rt: &HostRuntime) -> anyhow::Result<Vec<u8>> {
    let mut file = Vec::new(rt.alloc());
    let mut input = rt.stdin().take(65_537);
    input
        .read_to_end(&mut file)
        .map_err(|e| anyhow!("standard input cannot be read: {e}"))?;
    Ok(file)
}

// All lines of a file, in an output that is made larger until none is cut off.
fn lines_of(heap: Global, file: &[u8]) -> anyhow::Result<Vec<u8>>
    ensures { IfOk result (λ v. WholeText file.now v.items) }
{
    for doubled in 0u32..16 {
        let mut out = vec![in heap; 0u8; 524_288 << doubled]?;
        let ending = play(heap, file, out.as_mut_slice()).map_err(|_| anyhow!(
            "no memory for the order book"
        ))?;
        if ending.end != Err(Refusal::OutputShort) {
            out.truncate(ending.written);
            return Ok(out);
        }
    }
    Err(anyhow!("the lines are longer than any output that was tried"))
}

fn run(rt: &HostRuntime) -> anyhow::Result<()> {
    let file = read_input(rt)?;
    let lines = lines_of(rt.alloc(), file.as_slice())?;
    rt.stdout()
        .write_all(lines.as_slice())
        .map_err(|e| anyhow!("the lines cannot be written: {e}"))
}

fn main(rt: HostRuntime) -> anyhow::Result<()> {
    run(&rt)
}

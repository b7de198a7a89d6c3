// Reads lines with two kinds each, and writes for each line the kind that both have in common.
#![tactic(auto)]

use narrowing::report::report;
use settings::amounts;
use std::io::{BufRead, BufReader, Write};

// Goes on after a line that is refused, and ends where the input or the output fails.
fn main(rt: HostRuntime) -> anyhow::Result<()> {
    let order = amounts();
    for line in BufReader::new(rt.alloc(), rt.stdin())?.split(rt.alloc(), b'\n') {
        let mut text = report(&order, line?.as_slice(), rt.alloc())?;
        text.push(b'\n')?;
        rt.stdout().write_all(text.as_slice())?;
    }
    Ok(())
}

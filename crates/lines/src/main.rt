// Reads lines, and writes each line and below it what it says: its statements, or why it is refused.
#![tactic(auto)]

use grammar::statement::MOST_STATEMENTS;
use listing::report::report;
use settings::{amounts, features};
use std::io::{BufRead, BufReader, Write};
use terms::term::Term;

// Goes on after a line that is refused, and ends where the input or the output fails.
fn main(rt: HostRuntime) -> anyhow::Result<()> {
    let order = amounts();
    let features = features();
    let mut term = Term::new(rt.alloc(), MOST_STATEMENTS)?;
    for line in BufReader::new(rt.alloc(), rt.stdin())?.split(rt.alloc(), b'\n') {
        let mut line = line?;
        let mut text = report(&order, &features, line.as_slice(), &mut term, rt.alloc())?;
        line.push(b'\n')?;
        text.extend_from_slice(b"\n\n")?;
        rt.stdout().write_all(line.as_slice())?;
        rt.stdout().write_all(text.as_slice())?;
    }
    Ok(())
}

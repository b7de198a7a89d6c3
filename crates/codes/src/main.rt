// Reads a file, tries its rules on its entries with kinds alone, and writes what comes of each.
#![tactic(auto)]

use answering::answer_input;
use kinds::list::List;
use std::io::Write;

// A refused file is an answer too. Only an input that cannot be read, or memory that cannot be had, is an error.
fn main(rt: HostRuntime) -> anyhow::Result<()> {
    let text = answer_input::<_, List, _>(rt.stdin(), rt.alloc())?;
    rt.stdout().write_all(text.as_slice())?;
    Ok(())
}

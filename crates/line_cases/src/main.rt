// Reads lines of the language into a term and holds what comes of each to a recorded outcome.
//
// A line of the input is a line of the language, a tab, and its outcome: the statements with one blank between, as
// `X1:any/1..9 X1.paid=X2`, or `!`, the number of the refusal and its place. `room 3` takes a term with room for three statements.
#![tactic(auto)]

use anyhow::anyhow;
use grammar::statement::MOST_STATEMENTS;
use listing::rows::Listing;
use orders::texts::WrittenOrder;
use settings::{amounts, features};
use std::alloc::{AllocError, Global};
use std::io::{BufRead, BufReader, Write};
use terms::term::Term;

// A case: the number of its line in the input, a line of the language, and what is to come of it.
#[derive(Clone, Copy)]
struct Case<'a> {
    number: u64,
    line: &'a str,
    expected: &'a str,
}

// The statements of a term, with one blank between.
fn statements_text<O: WrittenOrder>(
    listing: &Listing<'_, O>,
    term: &Term<O::Kind>,
    heap: Global,
) -> Result<Vec<u8>, AllocError> {
    let mut text = Vec::new(heap);
    // A term answers its statements by number.
    for number in 1..=term.statements() {
        if number > 1 {
            text.push(b' ')?;
        }
        listing.put_statement(term.statement(number).unwrap(), &mut text)?;
    }
    Ok(text)
}

// What comes of reading a line.
fn outcome<K: Copy, O: WrittenOrder<Kind = K>>(
    listing: &Listing<'_, O>,
    term: &mut Term<K>,
    line: &[u8],
    heap: Global,
) -> Result<Vec<u8>, AllocError> {
    match term.read(listing.order, listing.features, line) {
        Ok(()) => statements_text(listing, term, heap),
        Err(refusal) => Ok(format!(in heap; "!{refusal}")?.into_bytes()),
    }
}

// Holds one case to its outcome, and prints the case where they differ.
fn check_case<K: Copy, O: WrittenOrder<Kind = K>>(
    rt: &HostRuntime,
    listing: &Listing<'_, O>,
    term: &mut Term<K>,
    case: Case<'_>,
) -> anyhow::Result<bool> {
    let got = outcome(listing, term, case.line.as_bytes(), rt.alloc())?;
    if got.as_slice() == case.expected.as_bytes() {
        return Ok(true);
    }
    let number = case.number;
    let expected = case.expected;
    print!(rt; "{number}: expected {expected}, got ")?;
    rt.stdout().write_all(got.as_slice())?;
    println!(rt)?;
    Ok(false)
}

// The room that a line asks for.
fn room_of(line: &str) -> anyhow::Result<usize> {
    match line.strip_prefix("room ") {
        Some(number) => Ok(number.parse::<usize>()?),
        None => Err(anyhow!("a line with neither a tab nor a room")),
    }
}

fn main(rt: HostRuntime) -> anyhow::Result<()> {
    let order = amounts();
    let features = features();
    let listing = Listing {
        order: &order,
        features: &features,
    };
    let mut term = Term::new(rt.alloc(), MOST_STATEMENTS)?;
    // How many cases there are, and how many of them agree: numbers, so that the input may be of any length.
    let mut cases = 0u64;
    let mut agree = 0u64;
    let lines = BufReader::new(rt.alloc(), rt.stdin())?.lines(rt.alloc());
    for (number, text) in (1u64..).zip(lines) {
        let text = text?;
        match text.as_str().rsplit_once('\t') {
            Some((line, expected)) => {
                let case = Case {
                    number,
                    line,
                    expected,
                };
                cases = cases.wrapping_add(1);
                if check_case(&rt, &listing, &mut term, case)? {
                    agree = agree.wrapping_add(1);
                }
            }
            None => term = Term::new(rt.alloc(), room_of(text.as_str())?)?,
        }
    }
    println!(rt; "{agree} of {cases} agree")?;
    Ok(())
}

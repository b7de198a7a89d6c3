// Answers many files and holds each answer to the one that is recorded, worked out by other means.
//
// A line of the input is a program, `codes` or `recon`, a tab, a file, a tab, and what the program must print for it. In the last two `|`
// stands for a line feed, and `{3*ab}` for `ababab`.
#![tactic(auto)]

use answering::answer;
use anyhow::anyhow;
use bands::order::Bands;
use kinds::list::List;
use orders::pair::Pair;
use std::alloc::{AllocError, Global};
use std::io::{BufRead, BufReader, Write};

// The program that is to answer: `codes` has kinds alone, `recon` kinds with amounts.
#[derive(Clone, Copy)]
enum Program {
    Codes,
    Recon,
}

// A case: the number of its line in the input, who answers which file, and the answer that is wanted.
#[derive(Clone, Copy)]
struct Case<'a> {
    number: u64,
    program: Program,
    file: &'a str,
    expected: &'a str,
}

fn program_of(name: &str) -> anyhow::Result<Program> {
    match name {
        "codes" => Ok(Program::Codes),
        "recon" => Ok(Program::Recon),
        _ => Err(anyhow!("a program that is neither codes nor recon")),
    }
}

fn case_of(number: u64, line: &str) -> anyhow::Result<Case<'_>> {
    let Some((program, rest)) = line.split_once('\t') else {
        return Err(anyhow!("a line with no tab"));
    };
    let Some((file, expected)) = rest.rsplit_once('\t') else {
        return Err(anyhow!("a line with one tab"));
    };
    let program = program_of(program)?;
    Ok(Case {
        number,
        program,
        file,
        expected,
    })
}

// Adds what a text without braces stands for.
fn put_plain(text: &str, bytes: &mut Vec<u8>) -> Result<(), AllocError> {
    for byte in text.bytes() {
        bytes.push(if byte == b'|' { b'\n' } else { byte })?;
    }
    Ok(())
}

// Adds what stands between braces, as `3*ab`.
fn put_repeated(text: &str, bytes: &mut Vec<u8>) -> anyhow::Result<()> {
    let Some((times, text)) = text.split_once('*') else {
        return Err(anyhow!("braces with no star"));
    };
    for _ in 0..times.parse::<usize>()? {
        put_plain(text, bytes)?;
    }
    Ok(())
}

// The bytes that a text stands for.
fn expand(text: &str, heap: Global) -> anyhow::Result<Vec<u8>> {
    let mut bytes = Vec::new(heap);
    for part in text.split('}') {
        match part.split_once('{') {
            Some((plain, repeated)) => {
                put_plain(plain, &mut bytes)?;
                put_repeated(repeated, &mut bytes)?;
            }
            None => put_plain(part, &mut bytes)?,
        }
    }
    Ok(bytes)
}

fn answer_of(program: Program, file: &[u8], heap: Global) -> Result<Vec<u8>, AllocError> {
    match program {
        Program::Codes => answer::<_, List>(file, heap),
        Program::Recon => answer::<_, Pair<List, Bands>>(file, heap),
    }
}

// An answer on one line.
fn on_one_line(answer: &[u8], heap: Global) -> Result<Vec<u8>, AllocError> {
    let mut line = Vec::new(heap);
    for byte in answer.iter() {
        line.push(if *byte == b'\n' { b'|' } else { *byte })?;
    }
    Ok(line)
}

// Holds one case to its answer, and prints the case where they differ.
fn check_case(rt: &HostRuntime, case: Case<'_>) -> anyhow::Result<bool> {
    let file = expand(case.file, rt.alloc())?;
    let expected = expand(case.expected, rt.alloc())?;
    let got = answer_of(case.program, file.as_slice(), rt.alloc())?;
    if got.as_slice() == expected.as_slice() {
        return Ok(true);
    }
    let number = case.number;
    let expected = case.expected;
    print!(rt; "{number}: expected {expected}, got ")?;
    rt.stdout()
        .write_all(on_one_line(got.as_slice(), rt.alloc())?.as_slice())?;
    println!(rt)?;
    Ok(false)
}

fn main(rt: HostRuntime) -> anyhow::Result<()> {
    // For each case, whether it agrees.
    let mut cases = Vec::new(rt.alloc());
    let lines = BufReader::new(rt.alloc(), rt.stdin())?.lines(rt.alloc());
    for (number, line) in (1u64..).zip(lines) {
        let line = line?;
        cases.push(check_case(&rt, case_of(number, line.as_str())?)?)?;
    }
    let agree = cases.iter().filter(|agrees| **agrees).count();
    let cases = cases.len();
    println!(rt; "{agree} of {cases} agree")?;
    Ok(())
}

// Lines of entries and of rules, and the text of what comes of them.
use grammar::statement::MOST_STATEMENTS;
use kinds::list::shipped::shipped;
use orders::texts::WrittenOrder;
use refusals::Refusal;
use settings::{amounts, features};
use std::alloc::{AllocError, Global};
use std::test::Fail;
use terms::term::Term;
use trials::text::{put_trial, put_trials};
use trials::trial::{Outcome, Trial};
use trials::try_all;

// The features of `settings`.
const FEATURES: usize = 7;

fn terms<O: WrittenOrder>(
    order: &O,
    lines: &[&[u8]],
    heap: Global,
) -> Result<Vec<Term<O::Kind>>, Fail> {
    let mut terms = Vec::new(heap);
    for line in lines {
        let mut term = Term::new(heap, MOST_STATEMENTS)?;
        if term.read(order, &features(), line).is_err() {
            return Err(Fail::new("a line is refused"));
        }
        terms.push(term)?;
    }
    Ok(terms)
}

// What comes of the rules on the entries, in cases of so many features.
fn tried<O: WrittenOrder>(
    order: &O,
    features: usize,
    entries: &[&[u8]],
    rules: &[&[u8]],
    heap: Global,
) -> Result<Vec<u8>, Fail> {
    let entries = terms(order, entries, heap)?;
    let rules = terms(order, rules, heap)?;
    let trials = try_all(order, features, entries.as_slice(), rules.as_slice(), heap)?;
    let mut text = Vec::new(heap);
    put_trials(order, trials.as_slice(), &mut text)?;
    Ok(text)
}

// Forty pounds that were sent back in parts.
#[test]
fn forty_pounds(rt: HostRuntime) -> Result<(), Fail> {
    let text = tried(
        &amounts(),
        FEATURES,
        &[b"debit/-4000..-4000(back=>debit/-4000..-1)"],
        &[b"any/1..9", b"debit/-5000..-1(back=>any/-4000..0)"],
        rt.alloc(),
    )?;
    assert!(rt; text.as_slice() == b"1 1 no 1\n1 2 yes debit/-4000..-4000\n".as_slice());
    Ok(())
}

// A rule that is accepted changes what the next rule sees; a rule that clashes, or that another entry was tried with, changes nothing.
#[test]
fn one_rule_after_the_other(rt: HostRuntime) -> Result<(), Fail> {
    let text = tried(
        &shipped(),
        FEATURES,
        &[b"any", b"any(paid=>debit)"],
        &[
            b"any(paid=>credit)",
            b"any(paid=>debit)",
            b"by_dd(paid=>any)",
            b"returned",
        ],
        rt.alloc(),
    )?;
    let told = b"1 1 yes any\n1 2 no 3\n1 3 yes by_dd\n1 4 yes returned_dd\n\
        2 1 no 3\n2 2 yes any\n2 3 yes by_dd\n2 4 yes returned_dd\n";
    assert!(rt; text.as_slice() == told.as_slice());
    Ok(())
}

// The root's cell refers to another, whose kind is told.
#[test]
fn the_kind_at_the_end_of_the_root(rt: HostRuntime) -> Result<(), Fail> {
    let text = tried(
        &shipped(),
        FEATURES,
        &[b"X:any(next=>by_dd(next=>X))"],
        &[b"X:debit(next=>X)", b"fee"],
        rt.alloc(),
    )?;
    assert!(rt; text.as_slice() == b"1 1 yes returned_dd\n1 2 no 1\n".as_slice());
    Ok(())
}

// A feature past the case's is a reason to refuse the entry, and so each rule on it; more features than a case may have, each of all.
#[test]
fn entries_that_are_refused(rt: HostRuntime) -> Result<(), Fail> {
    let entries: [&[u8]; 2] = [b"any(paid=>any)", b"any"];
    let rules: [&[u8]; 2] = [b"any", b"any(paid=>any)"];
    let few = tried(&shipped(), 0, &entries, &rules, rt.alloc())?;
    let told = b"1 1 refused 8\n1 2 refused 8\n2 1 yes any\n2 2 refused 8\n";
    assert!(rt; few.as_slice() == told.as_slice());
    let many = tried(&shipped(), 17, &entries, &rules, rt.alloc())?;
    let told = b"1 1 refused 6\n1 2 refused 6\n2 1 refused 6\n2 2 refused 6\n";
    assert!(rt; many.as_slice() == told.as_slice());
    Ok(())
}

// A description with three parts that are described so too, four times: 121 variables.
fn wide_line(heap: Global) -> Result<String, AllocError> {
    let mut line = format!(in heap; "any")?;
    for _ in 0..4 {
        line = format!(in heap; "any(a=>{line},b=>{line},f=>{line})")?;
    }
    Ok(line)
}

// The first two rules take 241 cells more, and then 121 variables are too many for the cells; the next rule and the next entry are tried
// all the same.
#[test]
fn too_many_variables(rt: HostRuntime) -> Result<(), Fail> {
    let heap = rt.alloc();
    let wide = wide_line(heap)?;
    let below = format!(in heap; "any(for=>{wide})")?;
    let rules = [
        wide.as_bytes(),
        below.as_bytes(),
        wide.as_bytes(),
        b"fee".as_slice(),
    ];
    let text = tried(&shipped(), FEATURES, &[b"any", b"debit"], &rules, heap)?;
    let told = b"1 1 yes any\n1 2 yes any\n1 3 refused 9\n1 4 yes fee\n\
        2 1 yes debit\n2 2 yes debit\n2 3 refused 9\n2 4 yes fee\n";
    assert!(rt; text.as_slice() == told.as_slice());
    Ok(())
}

// One trial alone has no line feed.
#[test]
fn the_text_of_a_trial(rt: HostRuntime) -> Result<(), Fail> {
    let mut text = Vec::new(rt.alloc());
    let trial = Trial {
        entry: 3,
        rule: 7,
        outcome: Outcome::Refused {
            refusal: Refusal::Full,
        },
    };
    put_trial(&shipped(), trial, &mut text)?;
    assert!(rt; text.as_slice() == b"3 7 refused 9".as_slice());
    Ok(())
}

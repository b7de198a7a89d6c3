// Compiling terms: the codes of an entry and of a rule.
use compiler::entry::Entry;
use compiler::rule::Rule;
use instructions::instruction::Instruction;
use kinds::list::shipped::shipped;
use refusals::Refusal;
use settings::features;
use std::alloc::Global;
use std::test::Fail;
use terms::term::Term;

// The features of `settings`, by their numbers.
const PAID: usize = 0;

const BACK: usize = 1;

const FOR: usize = 2;

// The line as a term over the shipped list.
fn term(heap: Global, line: &[u8]) -> Result<Term<usize>, Fail> {
    let mut term = Term::new(heap, 399)?;
    if term.read(&shipped(), &features(), line).is_err() {
        return Err(Fail::new("the line is refused"));
    }
    Ok(term)
}

fn push(register: usize) -> Instruction {
    Instruction::PushCell { register }
}

fn sort(register: usize, kind: usize) -> Instruction {
    Instruction::SetSort { register, kind }
}

fn feature(register: usize, feature: usize, value: usize) -> Instruction {
    Instruction::SetFeature {
        register,
        feature,
        value,
    }
}

fn narrow(register: usize, kind: usize) -> Instruction {
    Instruction::IntersectSort { register, kind }
}

fn back(depth: usize, label: usize) -> Instruction {
    Instruction::WriteTest { depth, label }
}

#[test]
fn a_new_entry_is_that_of_a_bare_name(rt: HostRuntime) -> Result<(), Fail> {
    let entry: Entry<usize> = Entry::new(rt.alloc(), 5)?;
    assert!(rt;
        [entry.variables(), entry.features()] == [1, 0]
            && entry.code() == [push(0)].as_slice()
            && entry.kinds().is_empty()
            && entry.statements().is_empty()
    );
    Ok(())
}

#[test]
fn a_new_rule_is_that_of_a_bare_name(rt: HostRuntime) -> Result<(), Fail> {
    let rule: Rule<usize> = Rule::new(rt.alloc(), 5)?;
    assert!(rt; rule.variables() == 1 && rule.reads().is_empty() && rule.writes().is_empty());
    Ok(())
}

#[test]
fn the_code_of_an_entry(rt: HostRuntime) -> Result<(), Fail> {
    let term = term(rt.alloc(), b"any(paid=>fee(back=>Y),for=>Y)")?;
    let mut entry = Entry::new(rt.alloc(), 8)?;
    let compiled = entry.compile(&term);
    let code = [
        push(0),
        sort(0, 0),
        push(1),
        feature(0, PAID, 1),
        sort(1, 1),
        push(2),
        feature(1, BACK, 2),
        feature(0, FOR, 2),
    ];
    let sizes = [
        entry.variables(),
        entry.features(),
        entry.statements().len(),
    ];
    assert!(rt;
        compiled == Ok(8)
            && entry.code() == code.as_slice()
            && entry.kinds() == [0, 9].as_slice()
            && sizes == [3, 7, 5]
    );
    Ok(())
}

#[test]
fn the_codes_of_a_rule(rt: HostRuntime) -> Result<(), Fail> {
    let term = term(rt.alloc(), b"any(paid=>any(back=>Y),for=>Y)")?;
    let mut rule = Rule::new(rt.alloc(), 13)?;
    let compiled = rule.compile(&term);
    let reads = [
        narrow(0, 0),
        Instruction::TestFeature {
            register: 0,
            feature: PAID,
            value: 1,
            depth: 1,
            label: 0,
        },
        narrow(1, 1),
        Instruction::TestFeature {
            register: 1,
            feature: BACK,
            value: 2,
            depth: 2,
            label: 3,
        },
        Instruction::UnifyFeature {
            register: 0,
            feature: FOR,
            value: 2,
        },
    ];
    let writes = [
        push(1),
        feature(0, PAID, 1),
        sort(1, 1),
        push(2),
        feature(1, BACK, 2),
        back(2, 4),
        back(1, 4),
        feature(0, FOR, 2),
    ];
    let sizes = [rule.variables(), rule.features(), rule.statements().len()];
    assert!(rt;
        compiled == Ok(13)
            && rule.reads() == reads.as_slice()
            && rule.writes() == writes.as_slice()
            && rule.kinds() == [0, 0].as_slice()
            && sizes == [3, 7, 5]
    );
    Ok(())
}

#[test]
fn where_memory_is_shorter_than_the_code_an_entry_is_left(rt: HostRuntime) -> Result<(), Fail> {
    let short = term(rt.alloc(), b"rent")?;
    let long = term(rt.alloc(), b"rent(paid=>fee)")?;
    let mut entry = Entry::new(rt.alloc(), 4)?;
    let compiled = [entry.compile(&short), entry.compile(&long)];
    assert!(rt;
        compiled == [Ok(2), Err(Refusal::Memory)]
            && entry.code() == [push(0), sort(0, 0)].as_slice()
            && entry.kinds() == [5].as_slice()
    );
    Ok(())
}

#[test]
fn where_memory_is_shorter_than_the_codes_a_rule_is_left(rt: HostRuntime) -> Result<(), Fail> {
    let short = term(rt.alloc(), b"rent")?;
    let long = term(rt.alloc(), b"rent(paid=>fee)")?;
    let mut rule = Rule::new(rt.alloc(), 6)?;
    let compiled = [rule.compile(&short), rule.compile(&long)];
    assert!(rt;
        compiled == [Ok(1), Err(Refusal::Memory)]
            && rule.reads() == [narrow(0, 0)].as_slice()
            && rule.writes().is_empty()
    );
    Ok(())
}

// An entry without memory holds the code of a bare name, and takes no other; a rule's code of a bare name has no instruction.
#[test]
fn no_memory_at_all(rt: HostRuntime) -> Result<(), Fail> {
    let bare = term(rt.alloc(), b"X")?;
    let mut entry = Entry::new(rt.alloc(), 0)?;
    let mut rule = Rule::new(rt.alloc(), 0)?;
    assert!(rt;
        entry.code() == [push(0)].as_slice()
            && [entry.compile(&bare), rule.compile(&bare)] == [Err(Refusal::Memory), Ok(0)]
    );
    Ok(())
}

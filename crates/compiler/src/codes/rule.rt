// The codes of a term that is matched, and what they have for one statement.
ghost use Rattle.std.specs.Prelude.{◌≡◌, ◌+◌, ◌^◌, ◌<◌, ◌≤◌, ◌++◌, [], ◌∷◌, length, vec_len, vec_capacity};
ghost use Rattle.instructions.specs.declared.instruction.Instruction.TheVariants.{WriteTest};
ghost use Rattle.instructions.specs.Codes.{Compiling, closes, ends_before, read as reading, subject as subject_in, is_root_kind as root_kind, told_by_rule, opened as open_after, read_code, write_code};
ghost use Rattle.compiler.specs.Passing.{Counts, Goes, Known, label_of, open_in};

use super::{Pass, Source, tell};
use grammar::statement::Statement;
use instructions::instruction::Instruction;

mod compiling;
mod questions;

// How many instructions the codes of a rule have together at most.
pub const MOST_IN_RULE: usize = 1196;

// The statements that were compiled, and their codes, in memory that is taken once. Each code has memory for as many instructions as both
// may have together.
#[derive(Drop)]
pub struct Rule<K> {
    source: Source<K>,
    reads: Vec<Instruction>,
    writes: Vec<Instruction>,
    ghost reads_are: { reads.items ≡ read_code source.statements.items },
    ghost writes_are: { writes.items ≡ write_code source.statements.items },
    ghost reads_held: { source.room ≤ vec_capacity reads },
    ghost writes_held: { source.room ≤ vec_capacity writes },
}

// The variable that a statement is about.
fn subject<K: Copy>(statement: Statement<K>) -> usize
    ensures { result ≡ subject_in statement }
{
    match statement {
        Statement::Kind { variable, .. } => variable,
        Statement::Feature { variable, .. } => variable,
    }
}

// Whether a statement says of what kind the root is, which is always there.
fn is_root_kind<K: Copy>(statement: Statement<K>) -> bool
    ensures { result ≡ root_kind statement }
{
    match statement {
        Statement::Kind { variable, .. } => variable == 0,
        Statement::Feature { .. } => false,
    }
}

// The variable whose description is open after a statement: a new value, or what the statement is about.
fn open_variable<K: Copy>(statement: Statement<K>, pass: Pass) -> usize
    ensures { result ≡ open_in pass.met statement }
{
    match statement {
        Statement::Kind { variable, .. } => variable,
        Statement::Feature {
            variable,
            value,
            ..
        } => if value == pass.met { value } else { variable },
    }
}

// The instruction that reads a statement, after which the innermost open description has this depth. Where a new value is missing,
// writing begins at the label.
fn read<K: Copy>(statement: Statement<K>, pass: Pass, depth: usize, label: usize) -> Instruction
    ensures { (c : Compiling) → Counts pass c → depth ≡ open_after c statement → label ≡ label_of c statement → result ≡ reading c statement }
{
    match statement {
        Statement::Kind { variable, .. } => Instruction::IntersectSort {
            register: variable,
            kind: pass.kinds,
        },
        Statement::Feature {
            variable,
            feature,
            value,
        } => {
            if value == pass.met {
                Instruction::TestFeature {
                    register: variable,
                    feature,
                    value,
                    depth,
                    label,
                }
            } else {
                Instruction::UnifyFeature {
                    register: variable,
                    feature,
                    value,
                }
            }
        }
    }
}

// The test where the description ends that is one deeper than `above`, behind the instructions that are there.
fn write_test(writes: &mut Vec<Instruction>, above: usize, label: usize)
    requires bound { above + 1 < 2 ^ 64 }
    requires room { vec_len writes.old < vec_capacity writes.old }
    ensures items { writes.new.items ≡ writes.old.items ++ WriteTest (above + 1) label ∷ [] }
    ensures capacity { vec_capacity writes.new ≡ vec_capacity writes.old }
{
    writes.push_reserved(Instruction::WriteTest {
        depth: above + 1,
        label,
    });
}

// The tests where descriptions end, the deepest first: all that are open from depth `from` up and deeper than `to`.
fn close(writes: &mut Vec<Instruction>, from: usize, to: usize, label: usize)
    requires { vec_len writes.old + length (closes from to label) ≤ vec_capacity writes.old }
    ensures items { writes.new.items ≡ writes.old.items ++ closes from to label }
    ensures capacity { vec_capacity writes.new ≡ vec_capacity writes.old }
{
    for above in (to..from).rev() {
        write_test(writes, above, label);
    }
}

// The tests where all descriptions end that are still open, from depth `from` up.
fn close_all(writes: &mut Vec<Instruction>, from: usize, label: usize)
    requires { vec_len writes.old + length (closes from 0 label) ≤ vec_capacity writes.old }
    ensures items { writes.new.items ≡ writes.old.items ++ closes from 0 label }
    ensures capacity { vec_capacity writes.new ≡ vec_capacity writes.old }
{
    close(writes, from, 0, label);
}

// Goes on by one statement: first the tests of the descriptions that end before it, then what reads it and what writes it. Answers how
// deep the innermost open description then is.
fn step<K: Copy>(
    reads: &mut Vec<Instruction>,
    writes: &mut Vec<Instruction>,
    depths: &[usize],
    statement: Statement<K>,
    pass: Pass,
    depth: usize,
) -> usize
    requires { (c : Compiling) × Goes pass depth reads.old.items writes.old.items c × Known depths.now c statement × (vec_len reads.old < vec_capacity reads.old) × (vec_len writes.old + length (ends_before c (subject_in statement)) + length (told_by_rule c statement) ≤ vec_capacity writes.old) }
    ensures reads { (c : Compiling) → Goes pass depth reads.old.items writes.old.items c → Known depths.now c statement → reads.new.items ≡ reads.old.items ++ reading c statement ∷ [] }
    ensures writes { (c : Compiling) → Goes pass depth reads.old.items writes.old.items c → Known depths.now c statement → writes.new.items ≡ (writes.old.items ++ ends_before c (subject_in statement)) ++ told_by_rule c statement }
    ensures opened { (c : Compiling) → Goes pass depth reads.old.items writes.old.items c → Known depths.now c statement → result ≡ open_after c statement }
    ensures capacity { (vec_capacity reads.new ≡ vec_capacity reads.old) × (vec_capacity writes.new ≡ vec_capacity writes.old) }
{
    close(writes, depth, depths[subject(statement)], reads.len());
    let opened = depths[open_variable(statement, pass)];
    reads.push_reserved(read(statement, pass, opened, writes.len()));
    if !is_root_kind(statement) {
        tell(writes, statement, pass);
    }
    opened
}

// The machine that runs the codes of a term on cells in memory.
ghost use Rattle.std.specs.Prelude.{◌≡◌, ℕ, ◌+◌, ◌*◌, ◌<◌, ◌≤◌, ◌^◌, true, length, None, is_err, IfSome, IfOk};
ghost use Rattle.instructions.specs.Steps.{step, present_in, entered, run as ran};
ghost use Rattle.cases.specs.Machines.{state_in, machine_in, Sets, Steps, AllSet, Runs, StateWithin, RunsWithin};
ghost use Rattle.cases.specs.Pushing.{Uses};
ghost use Rattle.cases.specs.Within.{Beyond};

pub mod limits;

use super::{Progress, cell_in, leave, narrow_end, numbered, on, test, tie, write};
use crate::store::end;
use instructions::instruction::{Instruction, Mode};
use joining::cell::Cell;
use orders::order::Order;

// One instruction in one mode, or none where it clashes.
fn advance<O: Order>(
    order: &O,
    kinds: &[O::Kind],
    instruction: Instruction,
    features: usize,
    cells: &mut [Cell<O::Kind>],
    slots: &mut [Option<usize>],
    pending: &mut [(usize, usize)],
    registers: &mut [usize],
    progress: Progress,
) -> Option<Progress>
    requires room { length cells.old * features < length pending.old }
    requires set { progress.set ≤ length registers.old }
    requires sets { Sets (length registers.old) instruction }
    requires used { progress.used + 1 < 2 ^ 64 }
    requires at { progress.at + 1 < 2 ^ 64 }
    ensures bounds { IfSome result (λ p. (p.set ≤ length registers.new) × (p.used ≤ progress.used + 1)) }
    ensures beyond { (n : ℕ) → result ≡ None → Uses features instruction → StateWithin (O.meaning order.now) n (state_in features cells.old slots.old registers.old progress) → Beyond n features cells.old slots.old cells.new slots.new }
    ensures machine { Steps (step (O.meaning order.now) kinds.now instruction (machine_in features cells.old slots.old registers.old progress)) (machine_in features cells.new slots.new registers.new) result }
{
    match (progress.mode, instruction) {
        (Mode::Read, Instruction::IntersectSort { register, kind }) => {
            let wanted = numbered(order, kinds, kind);
            if narrow_end(order, cells, registers, progress.set, register, wanted) {
                Some(on(progress))
            } else {
                None
            }
        }
        (
            Mode::Read,
            Instruction::TestFeature {
                register,
                feature,
                value,
                depth,
                label,
            },
        ) => {
            let at = end(cells, cell_in(registers, progress.set, register));
            Some(test(
                slots, features, registers, at, feature, value, depth, label, progress,
            ))
        }
        (
            Mode::Read,
            Instruction::UnifyFeature {
                register,
                feature,
                value,
            },
        ) => {
            let at = end(cells, cell_in(registers, progress.set, register));
            let cell = cell_in(registers, progress.set, value);
            if tie(order, features, cells, slots, pending, at, feature, cell) {
                Some(on(progress))
            } else {
                None
            }
        }
        (Mode::Read, _) => Some(on(progress)),
        (Mode::Write { depth }, Instruction::WriteTest { depth: from, label }) => {
            Some(leave(progress, depth, from, label))
        }
        (Mode::Write { .. }, _) => {
            let written = write(
                order,
                kinds,
                instruction,
                features,
                cells,
                slots,
                registers,
                progress,
            );
            Some(on(written))
        }
    }
}

// The present instruction; none at the end of a code.
fn present(reads: &[Instruction], writes: &[Instruction], progress: Progress) -> Option<Instruction>
    ensures { result ≡ present_in reads.now writes.now progress.mode progress.at }
{
    match progress.mode {
        Mode::Read => reads.get(progress.at).copied(),
        Mode::Write { .. } => writes.get(progress.at).copied(),
    }
}

// The number of the present instruction in its code, from 1.
fn number(progress: Progress) -> usize
    requires { progress.at + 1 < 2 ^ 64 }
    ensures { result ≡ progress.at + 1 }
{
    progress.at + 1
}

// Runs a rule's codes, or answers the number of the instruction that clashes, from 1. At a clash the memory is left as it is by then.
fn run<O: Order>(
    order: &O,
    reads: &[Instruction],
    writes: &[Instruction],
    kinds: &[O::Kind],
    features: usize,
    cells: &mut [Cell<O::Kind>],
    slots: &mut [Option<usize>],
    pending: &mut [(usize, usize)],
    registers: &mut [usize],
    begin: Progress,
) -> Result<Progress, usize>
    requires room { length cells.old * features < length pending.old }
    requires set { begin.set ≤ length registers.old }
    requires reads { AllSet (length registers.old) reads.now }
    requires writes { AllSet (length registers.old) writes.now }
    requires used { begin.used + (length reads.now + length writes.now) < 2 ^ 64 }
    ensures set { IfOk result (λ p. p.set ≤ length registers.new) }
    ensures answer { Runs (ran (O.meaning order.now) kinds.now reads.now writes.now (length reads.now + length writes.now) (machine_in features cells.old slots.old registers.old begin)) (state_in features cells.new slots.new registers.new) result }
    ensures beyond { (n : ℕ) → is_err result ≡ true → RunsWithin (O.meaning order.now) n reads.now writes.now (machine_in features cells.old slots.old registers.old begin) → Beyond n features cells.old slots.old cells.new slots.new }
{
    let mut progress = begin;
    let turns = reads.len() + writes.len();
    for turn in 0..turns {
        match present(reads, writes, progress) {
            Some(instruction) => match advance(
                order,
                kinds,
                instruction,
                features,
                cells,
                slots,
                pending,
                registers,
                progress,
            ) {
                Some(next) => progress = next,
                None => return Err(number(progress)),
            },
            None => return Ok(progress),
        }
    }
    Ok(progress)
}

// Runs an entry's code.
fn enter<O: Order>(
    order: &O,
    code: &[Instruction],
    kinds: &[O::Kind],
    features: usize,
    cells: &mut [Cell<O::Kind>],
    slots: &mut [Option<usize>],
    registers: &mut [usize],
    begin: Progress,
) -> Progress
    requires set { begin.set ≤ length registers.old }
    requires code { AllSet (length registers.old) code.now }
    requires used { begin.used + length code.now < 2 ^ 64 }
    ensures set { result.set ≤ length registers.new }
    ensures answer { state_in features cells.new slots.new registers.new result ≡ entered (O.meaning order.now) kinds.now code.now (state_in features cells.old slots.old registers.old begin) }
{
    let mut progress = begin;
    for instruction in code {
        progress = write(
            order,
            kinds,
            *instruction,
            features,
            cells,
            slots,
            registers,
            progress,
        );
    }
    progress
}

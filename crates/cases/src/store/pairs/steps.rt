// What instructions find and write: the registers of a machine, and how far it has come.
ghost use Rattle.std.specs.Prelude.{◌≡◌, ℕ, false, ◌+◌, ◌*◌, ◌<◌, ◌≤◌, ◌^◌, suc, cond, length, take, get_or, nat_le, slice_index};
ghost use Rattle.joining.specs.Heap.{slot_in, refers_in, follow, put_kind, put_slot, push as pushed};
ghost use Rattle.instructions.specs.declared.instruction.Mode.TheVariants.{Read};
ghost use Rattle.instructions.specs.Steps.{set_place, write as written};
ghost use Rattle.cases.specs.Memory.{heap_in};
ghost use Rattle.cases.specs.Machines.{state_in, Narrows, Ties, Tests, Sets};
ghost use Rattle.cases.specs.Within.{Within, Beyond};
ghost use Rattle.cases.specs.Calls.{over};

pub mod machine;

use super::join;
use crate::store::{empty, end, fill, kind, renew, set_kind, slot};
use instructions::instruction::{Instruction, Mode};
use joining::cell::Cell;
use orders::order::Order;

// How far a machine has come: how many cells are in use, how many registers are set, and where the present instruction stands.
#[derive(Clone, Copy)]
pub struct Progress {
    pub used: usize,
    pub set: usize,
    pub mode: Mode,
    pub at: usize,
}

// To the next instruction of the same code.
fn on(progress: Progress) -> Progress
    requires { progress.at + 1 < 2 ^ 64 }
    ensures { result ≡ record progress { at = progress.at + 1 } }
{
    Progress {
        at: progress.at + 1,
        ..progress
    }
}

// The cell in a register; 0 where it is not set.
fn cell_in(registers: &[usize], set: usize, register: usize) -> usize
    requires { set ≤ length registers.now }
    ensures { result ≡ slice_index (take set registers.now) register }
{
    if register < set {
        registers[register]
    } else {
        0
    }
}

// Sets a register, and answers how many are set then. Only the next one comes to those that are set.
fn put(registers: &mut [usize], set: usize, register: usize, cell: usize) -> usize
    requires set_before { set ≤ length registers.old }
    requires room { register < length registers.old }
    ensures within { result ≤ length registers.new }
    ensures places { take result registers.new ≡ set_place register cell (take set registers.old) }
{
    if register < set {
        registers[register] = cell;
        return set;
    }
    if register > set {
        return set;
    }
    registers[register] = cell;
    set + 1
}

// The registers that are set stand first in the place list; the rest of it is kept.
#[tactic(auto, using(crate::proofs::Terms::noted))]
fn note(registers: &[usize], set: usize, places: &mut [usize])
    requires { (set ≤ length registers.now) × (set ≤ length places.old) }
    ensures { places.new ≡ over (take set registers.now) places.old }
{
    places[..set].copy_from_slice(&registers[..set]);
}

// Narrows an end to a kind: whether there is a common kind.
fn narrow<O: Order>(order: &O, cells: &mut [Cell<O::Kind>], at: usize, kind_wanted: O::Kind) -> bool
    ensures answer { Narrows (O.meaning order.now) at kind_wanted cells.old cells.new result }
    ensures kept { result ≡ false → cells.new ≡ cells.old }
{
    match order.common(kind(order, cells, at), kind_wanted) {
        Some(common) => {
            set_kind(cells, at, common);
            true
        }
        None => false,
    }
}

// The same at the end of a register's cell.
fn narrow_end<O: Order>(
    order: &O,
    cells: &mut [Cell<O::Kind>],
    registers: &[usize],
    set: usize,
    register: usize,
    kind_wanted: O::Kind,
) -> bool
    requires { set ≤ length registers.now }
    ensures answer { Narrows (O.meaning order.now) (follow (refers_in (O.meaning order.now).widest cells.old) (length cells.old) (slice_index (take set registers.now) register)) kind_wanted cells.old cells.new result }
    ensures kept { result ≡ false → cells.new ≡ cells.old }
{
    let at = end(cells, cell_in(registers, set, register));
    narrow(order, cells, at, kind_wanted)
}

// Has the feature of an end lead to a cell: what is in the slot is joined with the cell, or the slot is filled. Whether no kinds clash.
fn tie<O: Order>(
    order: &O,
    features: usize,
    cells: &mut [Cell<O::Kind>],
    slots: &mut [Option<usize>],
    pending: &mut [(usize, usize)],
    at: usize,
    feature: usize,
    cell: usize,
) -> bool
    requires { length cells.old * features < length pending.old }
    ensures answer { Ties (O.meaning order.now) features at feature cell cells.old slots.old cells.new slots.new result }
    ensures beyond { (n : ℕ) → result ≡ false → at < n → feature < features → cell < n → Within n features cells.old slots.old (O.meaning order.now).widest → Beyond n features cells.old slots.old cells.new slots.new }
{
    match slot(slots, features, at, feature) {
        Some(content) => join(order, cells, slots, pending, features, content, cell),
        None => {
            fill(slots, features, at, feature, cell);
            true
        }
    }
}

// What a test finds in the slot of an end is the value; where it finds nothing, writing begins.
fn test(
    slots: &[Option<usize>],
    features: usize,
    registers: &mut [usize],
    at: usize,
    feature: usize,
    value: usize,
    depth: usize,
    label: usize,
    progress: Progress,
) -> Progress
    requires set { progress.set ≤ length registers.old }
    requires sets { value < length registers.old }
    requires at { progress.at + 1 < 2 ^ 64 }
    ensures set { result.set ≤ length registers.new }
    ensures tested { Tests value depth label (slot_in slots.now features at feature) registers.old registers.new progress result }
{
    match slot(slots, features, at, feature) {
        Some(content) => {
            let set = put(registers, progress.set, value, content);
            on(Progress { set, ..progress })
        }
        None => Progress {
            mode: Mode::Write { depth },
            at: label,
            ..progress
        },
    }
}

// Where a description ends: reading goes on at the label if writing began at its depth or deeper.
fn leave(progress: Progress, began: usize, depth: usize, label: usize) -> Progress
    requires { progress.at + 1 < 2 ^ 64 }
    ensures { result ≡ cond (nat_le depth began) (record { used = progress.used; set = progress.set; mode = Read; at = label }) (record { used = progress.used; set = progress.set; mode = progress.mode; at = progress.at + 1 }) }
{
    if depth <= began {
        Progress {
            mode: Mode::Read,
            at: label,
            ..progress
        }
    } else {
        on(progress)
    }
}

// The kind with this number; the widest past the last.
fn numbered<O: Order>(order: &O, kinds: &[O::Kind], number: usize) -> O::Kind
    ensures { result ≡ get_or kinds.now number (O.meaning order.now).widest }
{
    if number < kinds.len() {
        kinds[number]
    } else {
        order.widest()
    }
}

// Takes the next cell into use.
fn push<O: Order>(
    order: &O,
    cells: &mut [Cell<O::Kind>],
    slots: &mut [Option<usize>],
    features: usize,
    used: usize,
)
    ensures { heap_in (suc used) features cells.new slots.new ≡ pushed (O.meaning order.now).widest (heap_in used features cells.old slots.old) }
{
    renew(order, cells, used);
    empty(slots, features, used);
}

// Gives the cell in a register this kind.
fn set_sort<K: Copy>(
    cells: &mut [Cell<K>],
    registers: &[usize],
    set: usize,
    register: usize,
    kind: K,
)
    requires { set ≤ length registers.now }
    ensures { (top : K) → cells.new ≡ put_kind top cells.old (slice_index (take set registers.now) register) kind }
{
    set_kind(cells, cell_in(registers, set, register), kind);
}

// Has the feature of the end of a register's cell lead to the cell in another register.
fn set_feature<K>(
    cells: &[Cell<K>],
    slots: &mut [Option<usize>],
    features: usize,
    registers: &[usize],
    set: usize,
    register: usize,
    feature: usize,
    value: usize,
)
    requires { set ≤ length registers.now }
    ensures { (top : K) → slots.new ≡ put_slot slots.old features (follow (refers_in top cells.now) (length cells.now) (slice_index (take set registers.now) register)) feature (slice_index (take set registers.now) value) }
{
    let from = end(cells, cell_in(registers, set, register));
    fill(
        slots,
        features,
        from,
        feature,
        cell_in(registers, set, value),
    );
}

// What an instruction writes; those that do not write leave all as it is.
fn write<O: Order>(
    order: &O,
    kinds: &[O::Kind],
    instruction: Instruction,
    features: usize,
    cells: &mut [Cell<O::Kind>],
    slots: &mut [Option<usize>],
    registers: &mut [usize],
    progress: Progress,
) -> Progress
    requires set { progress.set ≤ length registers.old }
    requires sets { Sets (length registers.old) instruction }
    requires used { progress.used + 1 < 2 ^ 64 }
    ensures set { result.set ≤ length registers.new }
    ensures used { result.used ≤ progress.used + 1 }
    ensures place { (result.mode ≡ progress.mode) × (result.at ≡ progress.at) }
    ensures state { state_in features cells.new slots.new registers.new result ≡ written (O.meaning order.now) kinds.now instruction (state_in features cells.old slots.old registers.old progress) }
{
    match instruction {
        Instruction::PushCell { register } => {
            push(order, cells, slots, features, progress.used);
            let set = put(registers, progress.set, register, progress.used);
            Progress {
                used: progress.used + 1,
                set,
                ..progress
            }
        }
        Instruction::SetSort { register, kind } => {
            let kind = numbered(order, kinds, kind);
            set_sort(cells, registers, progress.set, register, kind);
            progress
        }
        Instruction::SetFeature {
            register,
            feature,
            value,
        } => {
            let set = progress.set;
            set_feature(
                cells, slots, features, registers, set, register, feature, value,
            );
            progress
        }
        Instruction::IntersectSort { .. }
        | Instruction::TestFeature { .. }
        | Instruction::UnifyFeature { .. }
        | Instruction::WriteTest { .. } => progress,
    }
}

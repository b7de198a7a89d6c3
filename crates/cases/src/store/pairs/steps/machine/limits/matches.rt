// Matching a rule at a cell, which is that of its root.
ghost use Rattle.std.specs.Prelude.{◌≡◌, ℕ, ◌+◌, ◌*◌, ◌<◌, ◌≤◌, ◌∷◌, [], true, length, take, slice_index, is_err, IfOk};
ghost use Rattle.grammar.specs.Lawful.{depths};
ghost use Rattle.instructions.specs.Law.{most_turns, match_at};
ghost use Rattle.instructions.specs.Steps.{run as ran};
ghost use Rattle.instructions.specs.declared.instruction.Mode.TheVariants.{Read};
ghost use Rattle.compiler.specs.Rules.{statements_of};
ghost use Rattle.osf.specs.Runs.{match_rule as matched};
ghost use Rattle.osf.specs.Calls.{features_below as all_below};
ghost use Rattle.cases.specs.Memory.{heap_in};
ghost use Rattle.cases.specs.Pushing.{Codes, Room};
ghost use Rattle.cases.specs.Machines.{state_in, machine_in, AllSet, Runs};
ghost use Rattle.cases.specs.Calls.{lent, heap_of, match_of, Kept};
ghost use Rattle.cases.specs.Terms.{Told, WrittenOrBack};
ghost use Rattle.cases.specs.Law.{LawIn};

use super::to_match;
use crate::case::Case;
use crate::store::pairs::steps::machine::run;
use crate::store::pairs::steps::{Progress, note};
use crate::store::{accept, copy, to_copy};
use compiler::rule::Rule;
use grammar::statement::MOST_VARIABLES;
use instructions::instruction::{Instruction, Mode};
use joining::cell::Cell;
use orders::order::Order;
use refusals::Refusal;

// Runs a rule's codes, or answers the number of the statement that clashes and leaves cells and slots as they were. Where nothing leads out
// of the first `most` cells, the codes come to no others.
fn run_or_restore<O: Order>(
    order: &O,
    reads: &[Instruction],
    writes: &[Instruction],
    kinds: &[O::Kind],
    features: usize,
    cells: &mut [Cell<O::Kind>],
    slots: &mut [Option<usize>],
    pending: &mut [(usize, usize)],
    spare_cells: &mut [Cell<O::Kind>],
    spare_slots: &mut [Option<usize>],
    registers: &mut [usize],
    most: usize,
    begin: Progress,
) -> Result<Progress, usize>
    requires sizes { length slots.old ≡ length cells.old * features }
    requires room { length cells.old * features < length pending.old }
    requires spare { (length spare_cells.old ≡ length cells.old) × (length spare_slots.old ≡ length slots.old) }
    requires set { begin.set ≤ length registers.old }
    requires reads { AllSet (length registers.old) reads.now }
    requires writes { AllSet (length registers.old) writes.now }
    requires used { begin.used ≤ length cells.old }
    requires codes { Codes reads.now writes.now features }
    requires most { Room reads.now writes.now most begin.mode begin.at begin.used }
    requires places { (r : ℕ) → slice_index (take begin.set registers.old) r < most }
    ensures set { IfOk result (λ p. p.set ≤ length registers.new) }
    ensures answer { Runs (ran (O.meaning order.now) kinds.now reads.now writes.now (length reads.now + length writes.now) (machine_in features cells.old slots.old registers.old begin)) (state_in features cells.new slots.new registers.new) result }
    ensures back { is_err result ≡ true → (cells.new ≡ cells.old) × (slots.new ≡ slots.old) }
{
    let count = to_copy(cells, slots, features, most);
    copy(cells, slots, spare_cells, spare_slots, count, features);
    let outcome = run(
        order, reads, writes, kinds, features, cells, slots, pending, registers, begin,
    );
    if outcome.is_err() {
        copy(spare_cells, spare_slots, cells, slots, count, features);
    }
    outcome
}

// A rule begins to read at its root, whose register alone is set.
#[tactic(auto, using(crate::proofs::Terms::rooted_first))]
fn root(registers: &mut [usize], cell: usize, used: usize) -> Progress
    requires { 0 < length registers.old }
    ensures begins { result ≡ record { used = used; set = 1; mode = Read; at = 0 } }
    ensures root { take 1 registers.new ≡ cell ∷ [] }
{
    registers[0] = cell;
    Progress {
        used,
        set: 1,
        mode: Mode::Read,
        at: 0,
    }
}

// Tells the cells of a rule's variables, and how many cells are in use then; or the statement that clashes, and tells no cell.
fn tell(
    outcome: Result<Progress, usize>,
    registers: &[usize],
    places: &mut [usize],
) -> Result<usize, usize>
    requires { IfOk outcome (λ p. (p.set ≤ length registers.now) × (p.set ≤ length places.old)) }
    ensures { Told outcome registers.now places.old places.new result }
{
    match outcome {
        Ok(end) => {
            note(registers, end.set, places);
            Ok(end.used)
        }
        Err(statement) => Err(statement),
    }
}

// Runs a rule's codes at a cell, where so many cells are in use, and tells the cells of its variables. Answers how many cells are in use
// then; or the statement that clashes, and leaves all as it was.
fn write<O: Order>(
    order: &O,
    rule: &Rule<O::Kind>,
    features: usize,
    cells: &mut [Cell<O::Kind>],
    slots: &mut [Option<usize>],
    pending: &mut [(usize, usize)],
    spare_cells: &mut [Cell<O::Kind>],
    spare_slots: &mut [Option<usize>],
    registers: &mut [usize],
    cell: usize,
    places: &mut [usize],
    used: usize,
) -> Result<usize, usize>
    requires sizes { length slots.old ≡ length cells.old * features }
    requires room { length cells.old * features < length pending.old }
    requires spare { (length spare_cells.old ≡ length cells.old) × (length spare_slots.old ≡ length slots.old) }
    requires used { used ≤ length cells.old }
    requires cell { cell < used }
    requires features { all_below features (statements_of rule.now) ≡ true }
    requires registers { length registers.old ≡ length (depths (statements_of rule.now)) }
    requires places { length (depths (statements_of rule.now)) ≤ length places.old }
    ensures { WrittenOrBack features places.old (match_at (O.meaning order.now) (statements_of rule.now) (most_turns (statements_of rule.now)) (heap_in used features cells.old slots.old) cell) cells.old slots.old cells.new slots.new places.new result }
{
    let most = used + (registers.len() - 1);
    let begin = root(registers, cell, used);
    let outcome = run_or_restore(
        order,
        rule.reads(),
        rule.writes(),
        rule.kinds(),
        features,
        cells,
        slots,
        pending,
        spare_cells,
        spare_slots,
        registers,
        most,
        begin,
    );
    tell(outcome, registers, places)
}

// The same with registers of its own, one for each variable.
fn write_anew<O: Order>(
    order: &O,
    rule: &Rule<O::Kind>,
    features: usize,
    cells: &mut [Cell<O::Kind>],
    slots: &mut [Option<usize>],
    pending: &mut [(usize, usize)],
    spare_cells: &mut [Cell<O::Kind>],
    spare_slots: &mut [Option<usize>],
    cell: usize,
    places: &mut [usize],
    used: usize,
) -> Result<usize, usize>
    requires sizes { length slots.old ≡ length cells.old * features }
    requires room { length cells.old * features < length pending.old }
    requires spare { (length spare_cells.old ≡ length cells.old) × (length spare_slots.old ≡ length slots.old) }
    requires used { used ≤ length cells.old }
    requires cell { cell < used }
    requires features { all_below features (statements_of rule.now) ≡ true }
    requires places { length (depths (statements_of rule.now)) ≤ length places.old }
    ensures { WrittenOrBack features places.old (match_at (O.meaning order.now) (statements_of rule.now) (most_turns (statements_of rule.now)) (heap_in used features cells.old slots.old) cell) cells.old slots.old cells.new slots.new places.new result }
{
    let mut registers = [0; MOST_VARIABLES];
    write(
        order,
        rule,
        features,
        cells,
        slots,
        pending,
        spare_cells,
        spare_slots,
        &mut registers[..rule.variables()],
        cell,
        places,
        used,
    )
}

// Matches a rule at a cell, and answers the cells in use; or refusal 6, 7, 8, 9 or 10. The cell of each variable is written into the
// place list.
pub fn match_rule<O: Order>(
    order: &O,
    case: &mut Case,
    cells: &mut [Cell<O::Kind>],
    slots: &mut [Option<usize>],
    pending: &mut [(usize, usize)],
    spare_cells: &mut [Cell<O::Kind>],
    spare_slots: &mut [Option<usize>],
    rule: &Rule<O::Kind>,
    cell: usize,
    places: &mut [usize],
) -> Result<usize, Refusal>
    ensures answer { result ≡ (match_of (O.meaning order.now) (lent cells.old slots.old pending.old spare_cells.old spare_slots.old) case.old (statements_of rule.now) cell places.old cells.old slots.old).answer }
    ensures kept { Kept (match_of (O.meaning order.now) (lent cells.old slots.old pending.old spare_cells.old spare_slots.old) case.old (statements_of rule.now) cell places.old cells.old slots.old) case.old cells.old slots.old case.new cells.new slots.new places.new }
    ensures refused { is_err result ≡ true → (case.new ≡ case.old) × ((cells.new ≡ cells.old) × ((slots.new ≡ slots.old) × (places.new ≡ places.old))) }
    ensures law { LawIn (O.meaning order.now) case.old (lent cells.old slots.old pending.old spare_cells.old spare_slots.old) (matched (statements_of rule.now) cell) places.old (heap_of case.old cells.old slots.old) (heap_of case.new cells.new slots.new) }
{
    match to_match(
        *case,
        cells.len(),
        slots.len(),
        pending.len(),
        spare_cells.len(),
        spare_slots.len(),
        rule.statements(),
        rule.variables(),
        cell,
        places.len(),
    ) {
        Ok(size) => match write_anew(
            order,
            rule,
            case.features,
            &mut cells[..case.cells],
            &mut slots[..size],
            pending,
            &mut spare_cells[..case.cells],
            &mut spare_slots[..size],
            cell,
            places,
            case.used,
        ) {
            Ok(used) => accept(case, used),
            Err(statement) => Err(Refusal::Clash { statement }),
        },
        Err(refusal) => Err(refusal),
    }
}

// Entering a term: all of it is new.
ghost use Rattle.std.specs.Prelude.{◌≡◌, ◌≤◌, true, length, is_err};
ghost use Rattle.grammar.specs.Lawful.{depths};
ghost use Rattle.instructions.specs.Law.{enter as entering};
ghost use Rattle.compiler.specs.Entries.{statements_of};
ghost use Rattle.osf.specs.Runs.{enter as entered};
ghost use Rattle.cases.specs.Memory.{heap_in};
ghost use Rattle.cases.specs.Calls.{lent, heap_of, enter_of, Kept};
ghost use Rattle.cases.specs.Terms.{Written};
ghost use Rattle.cases.specs.Law.{LawIn};

use super::to_enter;
use crate::case::Case;
use crate::store::accept;
use crate::store::pairs::steps::machine::enter as run;
use crate::store::pairs::steps::{Progress, note};
use compiler::entry::Entry;
use grammar::statement::MOST_VARIABLES;
use instructions::instruction::Mode;
use joining::cell::Cell;
use orders::order::Order;
use refusals::Refusal;

// Runs the code of an entry, where so many cells are in use, and tells the cells of its variables. Answers how many cells are in use then.
fn write<O: Order>(
    order: &O,
    entry: &Entry<O::Kind>,
    features: usize,
    cells: &mut [Cell<O::Kind>],
    slots: &mut [Option<usize>],
    registers: &mut [usize],
    places: &mut [usize],
    used: usize,
) -> usize
    requires used { used ≤ length cells.old }
    requires registers { length registers.old ≡ length (depths (statements_of entry.now)) }
    requires places { length (depths (statements_of entry.now)) ≤ length places.old }
    ensures { Written features places.old (entering (O.meaning order.now) (statements_of entry.now) (heap_in used features cells.old slots.old)) cells.new slots.new places.new result }
{
    let begin = Progress {
        used,
        set: 0,
        mode: Mode::Read,
        at: 0,
    };
    let end = run(
        order,
        entry.code(),
        entry.kinds(),
        features,
        cells,
        slots,
        registers,
        begin,
    );
    note(registers, end.set, places);
    end.used
}

// The same with registers of its own, one for each variable.
fn write_anew<O: Order>(
    order: &O,
    entry: &Entry<O::Kind>,
    features: usize,
    cells: &mut [Cell<O::Kind>],
    slots: &mut [Option<usize>],
    places: &mut [usize],
    used: usize,
) -> usize
    requires used { used ≤ length cells.old }
    requires places { length (depths (statements_of entry.now)) ≤ length places.old }
    ensures { Written features places.old (entering (O.meaning order.now) (statements_of entry.now) (heap_in used features cells.old slots.old)) cells.new slots.new places.new result }
{
    let mut registers = [0; MOST_VARIABLES];
    write(
        order,
        entry,
        features,
        cells,
        slots,
        &mut registers[..entry.variables()],
        places,
        used,
    )
}

// Enters a term, and answers the cells in use; or refusal 6, 8 or 9. The cell of each variable is written into the place list.
pub fn enter<O: Order>(
    order: &O,
    case: &mut Case,
    cells: &mut [Cell<O::Kind>],
    slots: &mut [Option<usize>],
    pending: &[(usize, usize)],
    spare_cells: &[Cell<O::Kind>],
    spare_slots: &[Option<usize>],
    entry: &Entry<O::Kind>,
    places: &mut [usize],
) -> Result<usize, Refusal>
    ensures answer { result ≡ (enter_of (O.meaning order.now) (lent cells.old slots.old pending.now spare_cells.now spare_slots.now) case.old (statements_of entry.now) places.old cells.old slots.old).answer }
    ensures kept { Kept (enter_of (O.meaning order.now) (lent cells.old slots.old pending.now spare_cells.now spare_slots.now) case.old (statements_of entry.now) places.old cells.old slots.old) case.old cells.old slots.old case.new cells.new slots.new places.new }
    ensures refused { is_err result ≡ true → (case.new ≡ case.old) × ((cells.new ≡ cells.old) × ((slots.new ≡ slots.old) × (places.new ≡ places.old))) }
    ensures law { LawIn (O.meaning order.now) case.old (lent cells.old slots.old pending.now spare_cells.now spare_slots.now) (entered (statements_of entry.now)) places.old (heap_of case.old cells.old slots.old) (heap_of case.new cells.new slots.new) }
{
    match to_enter(
        *case,
        cells.len(),
        slots.len(),
        pending.len(),
        spare_cells.len(),
        spare_slots.len(),
        entry.statements(),
        entry.variables(),
        places.len(),
    ) {
        Ok(size) => {
            let used = write_anew(
                order,
                entry,
                case.features,
                &mut cells[..case.cells],
                &mut slots[..size],
                places,
                case.used,
            );
            accept(case, used)
        }
        Err(refusal) => Err(refusal),
    }
}

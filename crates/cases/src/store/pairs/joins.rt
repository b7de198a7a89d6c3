// Joining two cells of a case.
ghost use Rattle.std.specs.Prelude.{◌≡◌, ℕ, ◌*◌, ◌<◌, ◌||◌, [], length, is_err, not, true, nat_le};
ghost use Rattle.joining.specs.Joining.{join as joining};
ghost use Rattle.cases.specs.Memory.{heap_in, JoinedOrBack};
ghost use Rattle.osf.specs.Runs.{join as joined_by};
ghost use Rattle.cases.specs.Calls.{lent, over, heap_of, join_of};
ghost use Rattle.cases.specs.Law.{LawIn};

use super::join;
use crate::case::Case;
use crate::store::{copy, slots_to_change, to_copy};
use joining::cell::Cell;
use orders::order::Order;
use refusals::Refusal;

// Joins two cells of those in use, or answers that they clash and leaves cells and slots as they were.
fn join_or_restore<O: Order>(
    order: &O,
    features: usize,
    cells: &mut [Cell<O::Kind>],
    slots: &mut [Option<usize>],
    pending: &mut [(usize, usize)],
    spare_cells: &mut [Cell<O::Kind>],
    spare_slots: &mut [Option<usize>],
    used: usize,
    first: usize,
    second: usize,
) -> bool
    requires sizes { length slots.old ≡ length cells.old * features }
    requires used { (first < used) × (second < used) }
    requires room { length cells.old * features < length pending.old }
    requires spare { (length spare_cells.old ≡ length cells.old) × (length spare_slots.old ≡ length slots.old) }
    ensures { JoinedOrBack (joining (O.meaning order.now) first second (heap_in used features cells.old slots.old)) (heap_in used features cells.old slots.old) (heap_in used features cells.new slots.new) result }
{
    let count = to_copy(cells, slots, features, used);
    copy(cells, slots, spare_cells, spare_slots, count, features);
    let joined = join(order, cells, slots, pending, features, first, second);
    if !joined {
        copy(spare_cells, spare_slots, cells, slots, count, features);
    }
    joined
}

// Whether both cells are in use.
fn both_in_use(case: Case, first: usize, second: usize) -> bool
    ensures { result ≡ not (nat_le case.used first || nat_le case.used second) }
{
    first < case.used && second < case.used
}

// Joins a first and a second cell and all that follows, and answers the cells in use; or refusal 6, 7 or 10.
pub fn join_cells<O: Order>(
    order: &O,
    case: Case,
    cells: &mut [Cell<O::Kind>],
    slots: &mut [Option<usize>],
    pending: &mut [(usize, usize)],
    spare_cells: &mut [Cell<O::Kind>],
    spare_slots: &mut [Option<usize>],
    first: usize,
    second: usize,
) -> Result<usize, Refusal>
    ensures answer { result ≡ (join_of (O.meaning order.now) (lent cells.old slots.old pending.old spare_cells.old spare_slots.old) case first second cells.old slots.old).answer }
    ensures kept { let left = join_of (O.meaning order.now) (lent cells.old slots.old pending.old spare_cells.old spare_slots.old) case first second cells.old slots.old in (cells.new ≡ over left.heap.cells cells.old) × (slots.new ≡ over left.heap.slots slots.old) }
    ensures refused { is_err result ≡ true → (cells.new ≡ cells.old) × (slots.new ≡ slots.old) }
    ensures law { LawIn (O.meaning order.now) case (lent cells.old slots.old pending.old spare_cells.old spare_slots.old) (joined_by first second) [] (heap_of case cells.old slots.old) (heap_of case cells.new slots.new) }
{
    match slots_to_change(
        case,
        cells.len(),
        slots.len(),
        pending.len(),
        spare_cells.len(),
        spare_slots.len(),
    ) {
        Some(size) => {
            if !both_in_use(case, first, second) {
                return Err(Refusal::Cell);
            }
            let joined = join_or_restore(
                order,
                case.features,
                &mut cells[..case.cells],
                &mut slots[..size],
                pending,
                &mut spare_cells[..case.cells],
                &mut spare_slots[..size],
                case.used,
                first,
                second,
            );
            if joined {
                Ok(case.used)
            } else {
                Err(Refusal::Clash { statement: 0 })
            }
        }
        None => Err(Refusal::Memory),
    }
}

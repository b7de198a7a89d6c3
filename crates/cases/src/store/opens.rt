// Opening a case.
ghost use Rattle.std.specs.Prelude.{◌≡◌, length, IfOk};
ghost use Rattle.joining.specs.Heap.{new_cells};
ghost use Rattle.osf.specs.Calls.{opens};
ghost use Rattle.osf.specs.Reached.{Opens};
ghost use Rattle.cases.specs.Calls.{lent, heap_of, as_opened, OpenedIn};

use super::slots_to_change;
use crate::case::{Case, MOST_CELLS, MOST_FEATURES};
use joining::cell::Cell;
use orders::order::Order;
use refusals::Refusal;

// Makes all cells new.
fn renew_all<O: Order>(order: &O, cells: &mut [Cell<O::Kind>])
    ensures { cells.new ≡ new_cells (O.meaning order.now).widest (length cells.old) }
{
    let kind = order.widest();
    for index in 0..cells.len() {
        cells[index] = Cell {
            refers: index,
            kind,
        };
    }
}

// Makes all cells of a case new and all its slots empty; or refusal 6.
fn prepare<O: Order>(
    order: &O,
    count: usize,
    features: usize,
    cells: &mut [Cell<O::Kind>],
    slots: &mut [Option<usize>],
    pending: &[(usize, usize)],
    spare_cells: &[Cell<O::Kind>],
    spare_slots: &[Option<usize>],
) -> Result<Case, Refusal>
    ensures answer { result ≡ as_opened (opens (O.meaning order.now).widest count features (lent cells.old slots.old pending.now spare_cells.now spare_slots.now)) }
    ensures kept { OpenedIn (opens (O.meaning order.now).widest count features (lent cells.old slots.old pending.now spare_cells.now spare_slots.now)) cells.old slots.old cells.new slots.new }
{
    let case = Case {
        cells: count,
        features,
        used: 0,
    };
    if count == 0 || count > MOST_CELLS || features > MOST_FEATURES {
        return Err(Refusal::Memory);
    }
    match slots_to_change(
        case,
        cells.len(),
        slots.len(),
        pending.len(),
        spare_cells.len(),
        spare_slots.len(),
    ) {
        Some(size) => {
            renew_all(order, &mut cells[..count]);
            slots[..size].fill(None);
            Ok(case)
        }
        None => Err(Refusal::Memory),
    }
}

// A case of so many cells and features, none of its cells in use; or refusal 6.
pub fn open<O: Order>(
    order: &O,
    count: usize,
    features: usize,
    cells: &mut [Cell<O::Kind>],
    slots: &mut [Option<usize>],
    pending: &[(usize, usize)],
    spare_cells: &[Cell<O::Kind>],
    spare_slots: &[Option<usize>],
) -> Result<Case, Refusal>
    ensures answer { result ≡ as_opened (opens (O.meaning order.now).widest count features (lent cells.old slots.old pending.now spare_cells.now spare_slots.now)) }
    ensures kept { OpenedIn (opens (O.meaning order.now).widest count features (lent cells.old slots.old pending.now spare_cells.now spare_slots.now)) cells.old slots.old cells.new slots.new }
    ensures law { IfOk result (λ case. Opens (O.meaning order.now) count features (heap_of case cells.new slots.new)) }
{
    prepare(
        order,
        count,
        features,
        cells,
        slots,
        pending,
        spare_cells,
        spare_slots,
    )
}

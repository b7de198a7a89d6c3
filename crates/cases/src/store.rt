// The memory of a case: its cells and slots, what is read of them and written, and whether it is long enough for the case.
ghost use Rattle.std.specs.Prelude.{◌≡◌, ◌+◌, ◌*◌, ◌≤◌, Ok, length, nat_lt};
ghost use Rattle.std.specs.List.{list_all};
ghost use Rattle.joining.specs.Heap.{follow, refers_in, kind_in, slot_in, put_kind, put_refers, put_slot, put_new, emptied};
ghost use Rattle.osf.specs.Calls.{short_for, too_short_for};
ghost use Rattle.cases.specs.Memory.{Place, Slots};
ghost use Rattle.cases.specs.Within.{content_below, copied, first_of};
ghost use Rattle.cases.specs.Calls.{lent_to_ask, with_used};

pub mod asks;
pub mod opens;
pub mod pairs;

use crate::case::Case;
use joining::cell::Cell;
use orders::order::Order;
use refusals::Refusal;

// The end of a cell. A cell past the memory is one.
fn end<K>(cells: &[Cell<K>], cell: usize) -> usize
    ensures { (top : K) → result ≡ follow (refers_in top cells.now) (length cells.now) cell }
{
    let mut at = cell;
    for i in 0..cells.len() {
        if at >= cells.len() {
            return at;
        }
        let next = cells[at].refers;
        if next == at {
            return at;
        }
        at = next;
    }
    at
}

// The kind of a cell: past the memory, the widest.
fn kind<O: Order>(order: &O, cells: &[Cell<O::Kind>], cell: usize) -> O::Kind
    ensures { result ≡ kind_in (O.meaning order.now).widest cells.now cell }
{
    if cell < cells.len() {
        cells[cell].kind
    } else {
        order.widest()
    }
}

// Where the slot of a cell for a feature stands, if there is one.
fn place(slots: usize, features: usize, cell: usize, feature: usize) -> Option<usize>
    ensures { Place slots (cell * features + feature) result }
{
    let index = cell.checked_mul(features)?.checked_add(feature)?;
    (index < slots).then_some(index)
}

// What stands in a slot: nothing, past the memory.
fn slot(slots: &[Option<usize>], features: usize, cell: usize, feature: usize) -> Option<usize>
    ensures { result ≡ slot_in slots.now features cell feature }
{
    match place(slots.len(), features, cell, feature) {
        Some(index) => slots[index],
        None => None,
    }
}

// Gives a cell this kind.
fn set_kind<K: Copy>(cells: &mut [Cell<K>], cell: usize, kind: K)
    ensures { (top : K) → cells.new ≡ put_kind top cells.old cell kind }
{
    if cell < cells.len() {
        cells[cell].kind = kind;
    }
}

// Has a cell refer to another.
fn refer<K: Copy>(cells: &mut [Cell<K>], cell: usize, other: usize)
    ensures { (top : K) → cells.new ≡ put_refers top cells.old cell other }
{
    if cell < cells.len() {
        cells[cell].refers = other;
    }
}

// Fills a slot.
fn fill(slots: &mut [Option<usize>], features: usize, cell: usize, feature: usize, to: usize)
    ensures { slots.new ≡ put_slot slots.old features cell feature to }
{
    if let Some(index) = place(slots.len(), features, cell, feature) {
        slots[index] = Some(to);
    }
}

// Makes a cell new: it refers to itself and has the widest kind.
fn renew<O: Order>(order: &O, cells: &mut [Cell<O::Kind>], cell: usize)
    ensures { cells.new ≡ put_new (O.meaning order.now).widest cells.old cell }
{
    if cell < cells.len() {
        cells[cell] = Cell {
            refers: cell,
            kind: order.widest(),
        };
    }
}

// Empties the slots of a cell.
fn empty(slots: &mut [Option<usize>], features: usize, cell: usize)
    ensures { slots.new ≡ emptied slots.old (cell * features) features }
{
    for feature in 0..features {
        if let Some(index) = place(slots.len(), features, cell, feature) {
            slots[index] = None;
        }
    }
}

// Whether all these cells refer to cells below a bound.
fn refer_below<K>(cells: &[Cell<K>], bound: usize) -> bool
    ensures { result ≡ list_all (λ c. nat_lt c.refers bound) cells.now }
{
    cells.iter().all(|cell| cell.refers < bound)
}

// Whether what is in a slot is below a bound.
fn is_below(content: Option<usize>, bound: usize) -> bool
    ensures { result ≡ content_below bound content }
{
    match content {
        Some(cell) => cell < bound,
        None => true,
    }
}

// Whether all that is in these slots is.
fn lead_below(slots: &[Option<usize>], bound: usize) -> bool
    ensures { result ≡ list_all (content_below bound) slots.now }
{
    slots.iter().all(|slot| is_below(*slot, bound))
}

// How many cells to copy before a change that is to come to no more than so many, the first ones: these, where nothing leads out of
// them; or all.
fn to_copy<K>(cells: &[Cell<K>], slots: &[Option<usize>], features: usize, most: usize) -> usize
    requires { length slots.now ≡ length cells.now * features }
    ensures within { (result ≤ length cells.now) × (result * features ≤ length slots.now) }
    ensures count { result ≡ copied most features cells.now slots.now }
{
    if most < cells.len()
        && refer_below(&cells[..most], most)
        && lead_below(&slots[..most * features], most)
    {
        most
    } else {
        cells.len()
    }
}

// Copies the first cells, so many, and their slots over others.
fn copy<K: Copy>(
    from_cells: &[Cell<K>],
    from_slots: &[Option<usize>],
    cells: &mut [Cell<K>],
    slots: &mut [Option<usize>],
    count: usize,
    features: usize,
)
    requires cells { (count ≤ length from_cells.now) × (count ≤ length cells.old) }
    requires slots { (count * features ≤ length from_slots.now) × (count * features ≤ length slots.old) }
    ensures cells { cells.new ≡ first_of count from_cells.now cells.old }
    ensures slots { slots.new ≡ first_of (count * features) from_slots.now slots.old }
{
    let rows = count * features;
    cells[..count].copy_from_slice(&from_cells[..count]);
    slots[..rows].copy_from_slice(&from_slots[..rows]);
}

// How many slots the case has; none where its cells or its slots do not lie in the memory whole.
fn slots_of(case: Case, cells: usize, slots: usize) -> Option<usize>
    ensures { Slots (case.cells * case.features) (short_for case.cells case.features (lent_to_ask cells slots)) result }
{
    let size = case.cells.checked_mul(case.features)?;
    (case.cells <= cells && size <= slots).then_some(size)
}

// The same for a call that may change the case: it takes pending pairs and a spare copy too.
fn slots_to_change(
    case: Case,
    cells: usize,
    slots: usize,
    pending: usize,
    spare_cells: usize,
    spare_slots: usize,
) -> Option<usize>
    ensures { Slots (case.cells * case.features) (too_short_for case.cells case.features (record { cells = cells; slots = slots; pending = pending; spare_cells = spare_cells; spare_slots = spare_slots })) result }
{
    let size = slots_of(case, cells, slots)?;
    (size < pending && case.cells <= spare_cells && size <= spare_slots).then_some(size)
}

// Takes cells into use, and answers how many are in use.
fn accept(case: &mut Case, used: usize) -> Result<usize, Refusal>
    ensures { (case.new ≡ with_used case.old used) × (result ≡ Ok used) }
{
    case.used = used;
    Ok(used)
}

// The memory of a case, taken once and used for every entry.
ghost use Rattle.std.specs.Prelude.{◌≡◌, ◌+◌, ◌*◌, length};

use cases::case::Case;
use joining::cell::Cell;

pub mod calls;

// A case of 256 cells and so many features, as the calls on it are lent it, and the place list.
#[derive(Drop)]
struct Memory<K> {
    features: usize,
    case: Case,
    cells: Vec<Cell<K>>,
    slots: Vec<Option<usize>>,
    pending: Vec<(usize, usize)>,
    spare_cells: Vec<Cell<K>>,
    spare_slots: Vec<Option<usize>>,
    places: Vec<usize>,
    ghost cells_are: { length cells.items ≡ 256 },
    ghost slots_are: { length slots.items ≡ 256 * features },
    ghost pending_are: { length pending.items ≡ 256 * features + 1 },
    ghost spare_cells_are: { length spare_cells.items ≡ 256 },
    ghost spare_slots_are: { length spare_slots.items ≡ 256 * features },
    ghost places_are: { length places.items ≡ 200 },
}

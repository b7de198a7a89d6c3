// A case in its memory, and the entry and the rule of a line. `steps` has what the tests are tables of: calls, each with the answer that is
// wanted.
use cases::case::Case;
use cases::open;
use compiler::entry::Entry;
use compiler::rule::Rule;
use joining::cell::Cell;
use orders::order::Order;
use orders::texts::WrittenOrder;
use settings::features;
use std::alloc::Global;
use std::test::Fail;
use terms::term::Term;

mod matching;
mod steps;

// The features of `settings`.
const FEATURES: usize = 7;

// A case and the memory that its calls are lent.
#[derive(Drop)]
pub struct Held<K> {
    pub case: Case,
    pub cells: Vec<Cell<K>>,
    pub slots: Vec<Option<usize>>,
    pub pending: Vec<(usize, usize)>,
    pub spare_cells: Vec<Cell<K>>,
    pub spare_slots: Vec<Option<usize>>,
    pub places: Vec<usize>,
}

fn many<T: Copy>(heap: Global, value: T, count: usize) -> Result<Vec<T>, Fail> {
    Ok(vec![in heap; value; count]?)
}

// A place list of so many places.
fn places_for(heap: Global, count: u8) -> Result<Vec<usize>, Fail> {
    many(heap, 99, usize::from(count))
}

// Enough for so many cells. What it holds before a case is opened does not matter.
fn memory_for<K: Copy>(heap: Global, kind: K, cells: u8, places: u8) -> Result<Held<K>, Fail> {
    let cell = Cell { refers: 77, kind };
    let count = usize::from(cells);
    let slots = count * FEATURES;
    Ok(Held {
        case: Case {
            cells: count,
            features: FEATURES,
            used: 77,
        },
        cells: many(heap, cell, count)?,
        slots: many(heap, Some(77), slots)?,
        pending: many(heap, (77, 77), slots + 1)?,
        spare_cells: many(heap, cell, count)?,
        spare_slots: many(heap, Some(77), slots)?,
        places: places_for(heap, places)?,
    })
}

// A new case of so many cells, and a place list of so many places.
fn opened<O: Order>(order: &O, heap: Global, cells: u8, places: u8) -> Result<Held<O::Kind>, Fail> {
    let mut held = memory_for(heap, order.widest(), cells, places)?;
    match open(
        order,
        usize::from(cells),
        FEATURES,
        held.cells.as_mut_slice(),
        held.slots.as_mut_slice(),
        held.pending.as_slice(),
        held.spare_cells.as_slice(),
        held.spare_slots.as_slice(),
    ) {
        Ok(case) => {
            held.case = case;
            Ok(held)
        }
        Err(_) => Err(Fail::new("no case")),
    }
}

fn reads<O: WrittenOrder>(order: &O, term: &mut Term<O::Kind>, line: &[u8]) -> bool {
    term.read(order, &features(), line).is_ok()
}

fn term<O: WrittenOrder>(order: &O, heap: Global, line: &[u8]) -> Result<Term<O::Kind>, Fail> {
    let mut term = Term::new(heap, 399)?;
    if reads(order, &mut term, line) {
        Ok(term)
    } else {
        Err(Fail::new("a line is refused"))
    }
}

fn entry<O: WrittenOrder>(order: &O, heap: Global, line: &[u8]) -> Result<Entry<O::Kind>, Fail> {
    let term = term(order, heap, line)?;
    let mut entry = Entry::new(heap, 599)?;
    if entry.compile(&term).is_err() {
        return Err(Fail::new("an entry is not compiled"));
    }
    Ok(entry)
}

fn rule<O: WrittenOrder>(order: &O, heap: Global, line: &[u8]) -> Result<Rule<O::Kind>, Fail> {
    let term = term(order, heap, line)?;
    let mut rule = Rule::new(heap, 1196)?;
    if rule.compile(&term).is_err() {
        return Err(Fail::new("a rule is not compiled"));
    }
    Ok(rule)
}

// Tables of steps: calls in a case, and what is looked at in its memory, each with the answer that is wanted.
use super::matching::Matching;
use super::{Held, entry, opened, places_for, rule};
use cases::{enter, kind_at, leads_to};
use compiler::entry::Entry;
use refusals::Refusal;
use std::alloc::Global;
use std::process::Abort;
use std::test::Fail;

mod amounts;
mod kinds_alone;
mod table;

#[derive(Drop)]
pub enum Step<'a, K> {
    // Enters the line.
    Enter(&'a [u8], Result<usize, Refusal>),
    // Matches the line at the cell.
    Match(&'a [u8], usize, Result<usize, Refusal>),
    // The kind at the cell's end.
    Kind(usize, Result<K, Refusal>),
    // The end that the feature leads to from the cell's end.
    Leads(usize, usize, Result<Option<usize>, Refusal>),
    // The cell that the cell refers to.
    Refers(usize, usize),
    // How many cells are in use.
    Used(usize),
    // The place list.
    Places(&'a [usize]),
    // From here on the place list is a new one of so many places.
    Lend(u8),
}

fn entered<O: Matching>(
    order: &O,
    held: &mut Held<O::Kind>,
    entry: &Entry<O::Kind>,
) -> Result<usize, Refusal> {
    enter(
        order,
        &mut held.case,
        held.cells.as_mut_slice(),
        held.slots.as_mut_slice(),
        held.pending.as_slice(),
        held.spare_cells.as_slice(),
        held.spare_slots.as_slice(),
        entry,
        held.places.as_mut_slice(),
    )
}

fn kind<O: Matching>(order: &O, held: &Held<O::Kind>, cell: usize) -> Result<O::Kind, Refusal> {
    kind_at(
        order,
        held.case,
        held.cells.as_slice(),
        held.slots.as_slice(),
        cell,
    )
}

fn led<O: Matching>(
    order: &O,
    held: &Held<O::Kind>,
    cell: usize,
    feature: usize,
) -> Result<Option<usize>, Refusal> {
    leads_to(
        order,
        held.case,
        held.cells.as_slice(),
        held.slots.as_slice(),
        cell,
        feature,
    )
}

fn refers<K: Copy>(held: &Held<K>, cell: usize) -> Option<usize> {
    held.cells.get(cell).map(|cell| cell.refers)
}

fn same_kind<O: Matching>(
    told: Result<O::Kind, Refusal>,
    answer: Result<O::Kind, Refusal>,
) -> bool {
    match (told, answer) {
        (Ok(told), Ok(answer)) => O::same(told, answer),
        (Err(told), Err(answer)) => told == answer,
        _ => false,
    }
}

// Takes the step, and tells whether it comes out as is wanted.
fn comes_out<O: Matching>(
    order: &O,
    heap: Global,
    held: &mut Held<O::Kind>,
    step: &Step<O::Kind>,
) -> Result<bool, Fail> {
    Ok(match step {
        Step::Enter(line, answer) => entered(order, held, &entry(order, heap, line)?) == *answer,
        Step::Match(line, cell, answer) => {
            order.matched(held, &rule(order, heap, line)?, *cell) == *answer
        }
        Step::Kind(cell, answer) => same_kind::<O>(kind(order, held, *cell), *answer),
        Step::Leads(cell, feature, answer) => led(order, held, *cell, *feature) == *answer,
        Step::Refers(cell, answer) => refers(held, *cell) == Some(*answer),
        Step::Used(answer) => held.case.used == *answer,
        Step::Places(answer) => held.places.as_slice() == *answer,
        Step::Lend(count) => {
            held.places = places_for(heap, *count)?;
            true
        }
    })
}

// Takes the steps, numbered from 0 on, and asserts of each that it comes out as is wanted.
fn take<O: Matching>(
    rt: &impl Abort,
    order: &O,
    heap: Global,
    held: &mut Held<O::Kind>,
    steps: &[Step<O::Kind>],
) -> Result<(), Fail> {
    for (number, step) in steps.iter().enumerate() {
        assert!(rt; comes_out(order, heap, held, step)?, "step {number}");
    }
    Ok(())
}

// The same in a new case of so many cells, with a place list of so many places.
fn take_in_new<O: Matching>(
    rt: &impl Abort,
    order: &O,
    heap: Global,
    cells: u8,
    places: u8,
    steps: &[Step<O::Kind>],
) -> Result<(), Fail> {
    let mut held = opened(order, heap, cells, places)?;
    take(rt, order, heap, &mut held, steps)
}

// Cases over the shipped list of kinds alone.
use super::Step::{Enter, Kind, Leads, Lend, Match, Places, Refers, Used};
use super::{take, take_in_new};
use crate::memory::{Held, opened};
use joining::cell;
use kinds::list::shipped::shipped;
use refusals::Refusal::{Cell, Clash, Feature, Full};
use std::test::Fail;

// The features of `settings`, by their numbers.
const PAID: usize = 0;

const BACK: usize = 1;

const FOR: usize = 2;

const NEXT: usize = 3;

// What was paid and what was sent back become one; then a fee is refused at the third statement, and all is as it was.
#[test]
fn two_cells_become_one(rt: HostRuntime) -> Result<(), Fail> {
    let steps = [
        Enter(b"any(paid=>by_dd,back=>returned)", Ok(3)),
        Places(&[0, 1, 2, 99]),
        Match(b"any(paid=>Y,back=>Y)", 0, Ok(3)),
        Places(&[0, 1, 2, 99]),
        Refers(1, 2),
        Kind(1, Ok(7)),
        Leads(0, PAID, Ok(Some(2))),
        Leads(0, BACK, Ok(Some(2))),
        Match(b"any(paid=>fee)", 0, Err(Clash { statement: 3 })),
        Used(3),
        Places(&[0, 1, 2, 99]),
        Kind(2, Ok(7)),
    ];
    take_in_new(&rt, &shipped(), rt.alloc(), 8, 4, &steps)
}

// Has the cell refer to another.
fn refer(held: &mut Held<usize>, cell: usize, other: usize) {
    if cell < held.cells.len() {
        held.cells[cell].refers = other;
    }
}

fn is_kept(held: &Held<usize>, cells: &[cell::Cell<usize>], slots: &[Option<usize>]) -> bool {
    held.cells.as_slice() == cells && held.slots.as_slice() == slots
}

// A cell in use refers to one far past those in use, as no call leaves it. The rule narrows that one before it clashes, and all is as it
// was.
#[test]
fn a_reference_past_those_in_use(rt: HostRuntime) -> Result<(), Fail> {
    let order = shipped();
    let mut held = opened(&order, rt.alloc(), 8, 4)?;
    let before = [Enter(b"any(paid=>by_dd,back=>returned)", Ok(3))];
    take(&rt, &order, rt.alloc(), &mut held, &before)?;
    refer(&mut held, 1, 7);
    let cells = held.cells.clone()?;
    let slots = held.slots.clone()?;
    let after = [
        Match(
            b"any(paid=>credit,back=>fee)",
            0,
            Err(Clash { statement: 5 }),
        ),
        Used(3),
        Leads(0, PAID, Ok(Some(7))),
        Kind(1, Ok(0)),
    ];
    take(&rt, &order, rt.alloc(), &mut held, &after)?;
    assert!(rt; is_kept(&held, cells.as_slice(), slots.as_slice()));
    Ok(())
}

// A thing that leads to itself, and a rule that makes two such things one.
#[test]
fn a_cyclic_term(rt: HostRuntime) -> Result<(), Fail> {
    let steps = [
        Enter(b"X:debit(next=>Y:by_dd(next=>X))", Ok(2)),
        Leads(0, NEXT, Ok(Some(1))),
        Leads(1, NEXT, Ok(Some(0))),
        Match(b"X:returned(next=>X)", 0, Ok(2)),
        Kind(0, Ok(7)),
        Kind(1, Ok(7)),
        Leads(0, NEXT, Ok(Some(1))),
        Leads(1, NEXT, Ok(Some(1))),
    ];
    take_in_new(&rt, &shipped(), rt.alloc(), 8, 4, &steps)
}

// What was paid is not there and is written, what it was for is read, what was sent back is written again.
#[test]
fn from_reading_to_writing_and_back_twice(rt: HostRuntime) -> Result<(), Fail> {
    let steps = [
        Enter(b"any(for=>debit)", Ok(2)),
        Match(b"any(paid=>rent,for=>fee,back=>credit)", 0, Ok(4)),
        Places(&[0, 2, 1, 3]),
        Leads(0, PAID, Ok(Some(2))),
        Kind(2, Ok(5)),
        Leads(0, FOR, Ok(Some(1))),
        Kind(1, Ok(9)),
        Leads(0, BACK, Ok(Some(3))),
        Kind(3, Ok(1)),
    ];
    take_in_new(&rt, &shipped(), rt.alloc(), 8, 4, &steps)
}

// A rule fills the case to its last cell; then each reason to refuse, in the order of their numbers.
#[test]
fn to_the_last_cell(rt: HostRuntime) -> Result<(), Fail> {
    let steps = [
        Enter(b"any", Ok(1)),
        Match(b"any(paid=>any,back=>any,for=>any,next=>any)", 0, Err(Full)),
        Match(b"any(paid=>rent,back=>any,for=>any)", 0, Ok(4)),
        Used(4),
        Places(&[0, 1, 2, 3, 99]),
        Kind(1, Ok(5)),
        Kind(4, Err(Cell)),
        Leads(0, 7, Err(Feature)),
        Lend(4),
        Match(b"any(paid=>any,back=>any,for=>any,next=>any)", 4, Err(Cell)),
        Match(
            b"any(paid=>any,back=>any,for=>any,next=>any)",
            0,
            Err(Feature),
        ),
    ];
    take_in_new(&rt, &shipped(), rt.alloc(), 4, 5, &steps)
}

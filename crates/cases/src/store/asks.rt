// The questions: the kind at a cell's end, and the end that a feature leads to.
ghost use Rattle.std.specs.Prelude.{◌≡◌, length};
ghost use Rattle.osf.specs.Runs.{ask_kind, ask_feature};
ghost use Rattle.cases.specs.Calls.{lent_to_ask, heap_of, kind_answer, feature_answer};
ghost use Rattle.cases.specs.Law.{LawAsked};

use super::{end, kind, slot, slots_of};
use crate::case::Case;
use joining::cell::Cell;
use orders::order::Order;
use refusals::Refusal;

// The kind at the cell's end; or refusal 6 or 7.
pub fn kind_at<O: Order>(
    order: &O,
    case: Case,
    cells: &[Cell<O::Kind>],
    slots: &[Option<usize>],
    cell: usize,
) -> Result<O::Kind, Refusal>
    ensures answer { result ≡ kind_answer (O.meaning order.now) case cell cells.now slots.now }
    ensures law { LawAsked (O.meaning order.now) (lent_to_ask (length cells.now) (length slots.now)) (ask_kind cell) (heap_of case cells.now slots.now) }
{
    match slots_of(case, cells.len(), slots.len()) {
        Some(_) => {
            if cell >= case.used {
                return Err(Refusal::Cell);
            }
            let cells = &cells[..case.cells];
            Ok(kind(order, cells, end(cells, cell)))
        }
        None => Err(Refusal::Memory),
    }
}

// The end that the feature leads to from the cell's end, or none where it is absent; or refusal 6, 7 or 8.
pub fn leads_to<O: Order>(
    order: &O,
    case: Case,
    cells: &[Cell<O::Kind>],
    slots: &[Option<usize>],
    cell: usize,
    feature: usize,
) -> Result<Option<usize>, Refusal>
    ensures answer { result ≡ feature_answer (O.meaning order.now) case cell feature cells.now slots.now }
    ensures law { LawAsked (O.meaning order.now) (lent_to_ask (length cells.now) (length slots.now)) (ask_feature cell feature) (heap_of case cells.now slots.now) }
{
    match slots_of(case, cells.len(), slots.len()) {
        Some(size) => {
            if cell >= case.used {
                return Err(Refusal::Cell);
            }
            if feature >= case.features {
                return Err(Refusal::Feature);
            }
            let cells = &cells[..case.cells];
            match slot(&slots[..size], case.features, end(cells, cell), feature) {
                Some(value) => Ok(Some(end(cells, value))),
                None => Ok(None),
            }
        }
        None => Err(Refusal::Memory),
    }
}

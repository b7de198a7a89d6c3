// Whether a case, its memory and a place list suffice for a term: the reasons to refuse a call before it begins, in their order.
ghost use Rattle.std.specs.Prelude.{◌≡◌, ◌+◌, ◌<◌, ◌||◌, true, not, nat_lt, IfOk};
ghost use Rattle.osf.specs.Calls.{features_below as all_below};
ghost use Rattle.cases.specs.Limits.{is_below, may_enter, may_match};

pub mod enters;
pub mod matches;

use crate::case::Case;
use crate::store::slots_to_change;
use grammar::statement::Statement;
use refusals::Refusal;

// The feature of a statement is below the case's.
fn feature_below<K: Copy>(features: usize, statement: Statement<K>) -> bool
    ensures { result ≡ is_below features statement }
{
    match statement {
        Statement::Kind { .. } => true,
        Statement::Feature { feature, .. } => feature < features,
    }
}

// All features of statements are below the case's.
fn features_below<K: Copy>(features: usize, statements: &[Statement<K>]) -> bool
    ensures { result ≡ all_below features statements.now }
{
    for statement in statements {
        if !feature_below(features, *statement) {
            return false;
        }
    }
    true
}

// No feature is past the case's, and the place list has a place for each variable.
fn in_range<K: Copy>(
    features: usize,
    statements: &[Statement<K>],
    variables: usize,
    places: usize,
) -> bool
    ensures { result ≡ not (not (all_below features statements.now) || nat_lt places variables) }
{
    features_below(features, statements) && variables <= places
}

// So many cells more may be taken into use.
fn has_room(case: Case, more: usize) -> bool
    ensures { result ≡ not (nat_lt case.cells (case.used + more)) }
{
    case.used <= case.cells && more <= case.cells - case.used
}

// How many slots the case has; or the first reason not to enter a term.
fn to_enter<K: Copy>(
    case: Case,
    cells: usize,
    slots: usize,
    pending: usize,
    spare_cells: usize,
    spare_slots: usize,
    statements: &[Statement<K>],
    variables: usize,
    places: usize,
) -> Result<usize, Refusal>
    ensures { result ≡ may_enter (record { cells = cells; slots = slots; pending = pending; spare_cells = spare_cells; spare_slots = spare_slots }) case statements.now variables places }
{
    match slots_to_change(case, cells, slots, pending, spare_cells, spare_slots) {
        Some(size) => {
            if !in_range(case.features, statements, variables, places) {
                return Err(Refusal::Feature);
            }
            if !has_room(case, variables) {
                return Err(Refusal::Full);
            }
            Ok(size)
        }
        None => Err(Refusal::Memory),
    }
}

// The same for a term that is matched at a cell, which is that of its root.
fn to_match<K: Copy>(
    case: Case,
    cells: usize,
    slots: usize,
    pending: usize,
    spare_cells: usize,
    spare_slots: usize,
    statements: &[Statement<K>],
    variables: usize,
    cell: usize,
    places: usize,
) -> Result<usize, Refusal>
    requires { 0 < variables }
    ensures fits { IfOk result (λ size. (cell < case.used) × (all_below case.features statements.now ≡ true)) }
    ensures answer { result ≡ may_match (record { cells = cells; slots = slots; pending = pending; spare_cells = spare_cells; spare_slots = spare_slots }) case statements.now variables cell places }
{
    match slots_to_change(case, cells, slots, pending, spare_cells, spare_slots) {
        Some(size) => {
            if cell >= case.used {
                return Err(Refusal::Cell);
            }
            if !in_range(case.features, statements, variables, places) {
                return Err(Refusal::Feature);
            }
            if !has_room(case, variables - 1) {
                return Err(Refusal::Full);
            }
            Ok(size)
        }
        None => Err(Refusal::Memory),
    }
}

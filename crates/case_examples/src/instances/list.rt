// Matching over the kinds of a list.
ghost use Rattle.std.specs.Prelude.{◌≡◌};
ghost use Rattle.kinds.specs.Lists.{list_order};
ghost use Rattle.compiler.specs.Rules.{statements_of};
ghost use Rattle.cases.specs.Calls.{lent, match_of};

use cases::case::Case;
use cases::match_rule;
use compiler::rule::Rule;
use joining::cell::Cell;
use kinds::list::List;
use refusals::Refusal;

// Over the kinds of a list.
pub fn match_kinds(
    order: &List,
    case: &mut Case,
    cells: &mut [Cell<usize>],
    slots: &mut [Option<usize>],
    pending: &mut [(usize, usize)],
    spare_cells: &mut [Cell<usize>],
    spare_slots: &mut [Option<usize>],
    rule: &Rule<usize>,
    cell: usize,
    places: &mut [usize],
) -> Result<usize, Refusal>
    ensures { result ≡ (match_of (list_order order.now) (lent cells.old slots.old pending.old spare_cells.old spare_slots.old) case.old (statements_of rule.now) cell places.old cells.old slots.old).answer }
{
    match_rule(
        order,
        case,
        cells,
        slots,
        pending,
        spare_cells,
        spare_slots,
        rule,
        cell,
        places,
    )
}

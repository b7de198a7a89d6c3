// Matching over pairs of a kind and a band of amounts.
ghost use Rattle.std.specs.Prelude.{◌≡◌};
ghost use Rattle.bands.specs.Order.{bands};
ghost use Rattle.kinds.specs.Lists.{list_order};
ghost use Rattle.orders.specs.Pairs.{paired};
ghost use Rattle.compiler.specs.Rules.{statements_of};
ghost use Rattle.cases.specs.Calls.{lent, match_of};

use bands::band::Band;
use bands::order::Bands;
use cases::case::Case;
use cases::match_rule;
use compiler::rule::Rule;
use joining::cell::Cell;
use kinds::list::List;
use orders::pair::{Both, Pair};
use refusals::Refusal;

// Over pairs of a kind and a band of amounts.
pub fn match_amounts(
    order: &Pair<List, Bands>,
    case: &mut Case,
    cells: &mut [Cell<Both<usize, Band>>],
    slots: &mut [Option<usize>],
    pending: &mut [(usize, usize)],
    spare_cells: &mut [Cell<Both<usize, Band>>],
    spare_slots: &mut [Option<usize>],
    rule: &Rule<Both<usize, Band>>,
    cell: usize,
    places: &mut [usize],
) -> Result<usize, Refusal>
    ensures { result ≡ (match_of (paired (list_order order.now.first) bands) (lent cells.old slots.old pending.old spare_cells.old spare_slots.old) case.old (statements_of rule.now) cell places.old cells.old slots.old).answer }
{
    match_rule(
        order,
        case,
        cells,
        slots,
        pending,
        spare_cells,
        spare_slots,
        rule,
        cell,
        places,
    )
}

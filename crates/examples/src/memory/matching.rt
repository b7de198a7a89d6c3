// Matching in a held case, by the calls of `case_examples`.
use super::Held;
use bands::band::Band;
use bands::order::Bands;
use case_examples::instances::list::match_kinds;
use case_examples::instances::nested::match_nested;
use case_examples::instances::pair::match_amounts;
use compiler::rule::Rule;
use kinds::list::List;
use orders::pair::{Both, Pair};
use orders::texts::WrittenOrder;
use refusals::Refusal;

// An order at which there is matching here.
pub trait Matching: WrittenOrder {
    fn matched(
        &self,
        held: &mut Held<Self::Kind>,
        rule: &Rule<Self::Kind>,
        cell: usize,
    ) -> Result<usize, Refusal>;

    fn same(a: Self::Kind, b: Self::Kind) -> bool;
}

impl Matching for List {
    fn matched(
        &self,
        held: &mut Held<usize>,
        rule: &Rule<usize>,
        cell: usize,
    ) -> Result<usize, Refusal> {
        match_kinds(
            self,
            &mut held.case,
            held.cells.as_mut_slice(),
            held.slots.as_mut_slice(),
            held.pending.as_mut_slice(),
            held.spare_cells.as_mut_slice(),
            held.spare_slots.as_mut_slice(),
            rule,
            cell,
            held.places.as_mut_slice(),
        )
    }

    fn same(a: usize, b: usize) -> bool {
        a == b
    }
}

impl Matching for Pair<List, Bands> {
    fn matched(
        &self,
        held: &mut Held<Both<usize, Band>>,
        rule: &Rule<Both<usize, Band>>,
        cell: usize,
    ) -> Result<usize, Refusal> {
        match_amounts(
            self,
            &mut held.case,
            held.cells.as_mut_slice(),
            held.slots.as_mut_slice(),
            held.pending.as_mut_slice(),
            held.spare_cells.as_mut_slice(),
            held.spare_slots.as_mut_slice(),
            rule,
            cell,
            held.places.as_mut_slice(),
        )
    }

    fn same(a: Both<usize, Band>, b: Both<usize, Band>) -> bool {
        a == b
    }
}

impl Matching for Pair<List, Pair<Bands, Bands>> {
    fn matched(
        &self,
        held: &mut Held<Both<usize, Both<Band, Band>>>,
        rule: &Rule<Both<usize, Both<Band, Band>>>,
        cell: usize,
    ) -> Result<usize, Refusal> {
        match_nested(
            self,
            &mut held.case,
            held.cells.as_mut_slice(),
            held.slots.as_mut_slice(),
            held.pending.as_mut_slice(),
            held.spare_cells.as_mut_slice(),
            held.spare_slots.as_mut_slice(),
            rule,
            cell,
            held.places.as_mut_slice(),
        )
    }

    fn same(a: Both<usize, Both<Band, Band>>, b: Both<usize, Both<Band, Band>>) -> bool {
        a == b
    }
}

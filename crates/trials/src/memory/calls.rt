// The calls on the case in the memory.
ghost use Rattle.std.specs.Prelude.{◌≡◌, IfOk, slice_index};
ghost use Rattle.compiler.specs.Entries.{statements_of as statements_of_entry};
ghost use Rattle.compiler.specs.Rules.{statements_of as statements_of_rule};
ghost use Rattle.osf.specs.Calls.{opens};
ghost use Rattle.trials.specs.Trials.{lent_for, asked, refused_with as as_refused, told, outcome_of};
ghost use Rattle.trials.specs.Memory.{heap_in, places_in, entering, matching, Stands, Opened, Begun, Holds};

use super::Memory;
use crate::trial::Outcome;
use cases::case::Case;
use cases::{enter, kind_at, match_rule, open};
use compiler::entry::Entry;
use compiler::rule::Rule;
use grammar::statement::MOST_VARIABLES;
use joining::cell::Cell;
use orders::order::Order;
use refusals::Refusal;
use std::alloc::{AllocError, Global};

pub mod rules;

const CELLS: usize = 256;

// A clash is told by its statement.
fn refused_with<K>(refusal: Refusal) -> Outcome<K>
    ensures { result ≡ as_refused refusal }
{
    match refusal {
        Refusal::Clash { statement } => Outcome::No { statement },
        _ => Outcome::Refused { refusal },
    }
}

impl<K: Copy> Memory<K> {
    // No case is open in it yet.
    fn new(kind: K, features: usize, heap: Global) -> Result<Memory<K>, AllocError>
        ensures { IfOk result (λ memory. memory.features ≡ features) }
    {
        let cell = Cell { refers: 0, kind };
        let Some(slots) = CELLS.checked_mul(features) else {
            return Err(AllocError);
        };
        let Some(pairs) = slots.checked_add(1) else {
            return Err(AllocError);
        };
        let cells = vec![in heap; cell; CELLS]?;
        let spare_cells = vec![in heap; cell; CELLS]?;
        let spare_slots = vec![in heap; None; slots]?;
        let pending = vec![in heap; (0, 0); pairs]?;
        let places = vec![in heap; 0; MOST_VARIABLES]?;
        let slots = vec![in heap; None; slots]?;
        Ok(Memory {
            features,
            case: Case {
                cells: CELLS,
                features,
                used: 0,
            },
            cells,
            slots,
            pending,
            spare_cells,
            spare_slots,
            places,
        })
    }

    // Opens the case anew.
    fn open<O: Order<Kind = K>>(&mut self, order: &O) -> Result<(), Refusal>
        ensures opened { Opened (O.meaning order.now) (opens (O.meaning order.now).widest 256 self.old.features (lent_for self.old.features)) self.new result }
        ensures features { self.new.features ≡ self.old.features }
    {
        match open(
            order,
            CELLS,
            self.features,
            self.cells.as_mut_slice(),
            self.slots.as_mut_slice(),
            self.pending.as_slice(),
            self.spare_cells.as_slice(),
            self.spare_slots.as_slice(),
        ) {
            Ok(case) => {
                self.case = case;
                self.places.fill(0);
                Ok(())
            }
            Err(refusal) => Err(refusal),
        }
    }

    fn enter<O: Order<Kind = K>>(&mut self, order: &O, entry: &Entry<K>) -> Result<usize, Refusal>
        requires { Stands (O.meaning order.now) self.old }
        ensures answer { result ≡ (entering (O.meaning order.now) self.old (statements_of_entry entry.now)).answer }
        ensures left { Holds (O.meaning order.now) (entering (O.meaning order.now) self.old (statements_of_entry entry.now)) self.new }
        ensures features { self.new.features ≡ self.old.features }
    {
        enter(
            order,
            &mut self.case,
            self.cells.as_mut_slice(),
            self.slots.as_mut_slice(),
            self.pending.as_slice(),
            self.spare_cells.as_slice(),
            self.spare_slots.as_slice(),
            entry,
            self.places.as_mut_slice(),
        )
    }

    fn match_rule<O: Order<Kind = K>>(
        &mut self,
        order: &O,
        rule: &Rule<K>,
        root: usize,
    ) -> Result<usize, Refusal>
        requires { Stands (O.meaning order.now) self.old }
        ensures answer { result ≡ (matching (O.meaning order.now) self.old (statements_of_rule rule.now) root).answer }
        ensures left { Holds (O.meaning order.now) (matching (O.meaning order.now) self.old (statements_of_rule rule.now) root) self.new }
        ensures features { self.new.features ≡ self.old.features }
    {
        match_rule(
            order,
            &mut self.case,
            self.cells.as_mut_slice(),
            self.slots.as_mut_slice(),
            self.pending.as_mut_slice(),
            self.spare_cells.as_mut_slice(),
            self.spare_slots.as_mut_slice(),
            rule,
            root,
            self.places.as_mut_slice(),
        )
    }

    #[tactic(auto, unfolding(crate::specs::Memory::Stands, crate::specs::Trials::asked))]
    fn kind_at<O: Order<Kind = K>>(&self, order: &O, cell: usize) -> Result<K, Refusal>
        requires { Stands (O.meaning order.now) self.now }
        ensures { result ≡ asked (O.meaning order.now) self.now.features cell (heap_in self.now) }
    {
        kind_at(
            order,
            self.case,
            self.cells.as_slice(),
            self.slots.as_slice(),
            cell,
        )
    }

    // The cell of the first variable in the place list.
    fn root(&self) -> usize
        ensures { result ≡ slice_index (places_in self.now) 0 }
    {
        self.places[0]
    }

    // Opens the case anew and enters the entry; answers the cell of its root.
    fn begin<O: Order<Kind = K>>(&mut self, order: &O, entry: &Entry<K>) -> Result<usize, Refusal>
        ensures begun { Begun (O.meaning order.now) self.old.features (statements_of_entry entry.now) self.new result }
        ensures features { self.new.features ≡ self.old.features }
    {
        if let Err(refusal) = self.open(order) {
            return Err(refusal);
        }
        match self.enter(order, entry) {
            Ok(_) => Ok(self.root()),
            Err(refusal) => Err(refusal),
        }
    }

    // What came of a rule at the root, by the answer to its match.
    fn told<O: Order<Kind = K>>(
        &self,
        order: &O,
        root: usize,
        answer: Result<usize, Refusal>,
    ) -> Outcome<K>
        requires { Stands (O.meaning order.now) self.now }
        ensures { result ≡ told answer (asked (O.meaning order.now) self.now.features root (heap_in self.now)) }
    {
        match answer {
            Ok(_) => match self.kind_at(order, root) {
                Ok(kind) => Outcome::Yes { kind },
                Err(refusal) => Outcome::Refused { refusal },
            },
            Err(refusal) => refused_with(refusal),
        }
    }

    // What comes of a rule at the root.
    fn try_rule<O: Order<Kind = K>>(&mut self, order: &O, rule: &Rule<K>, root: usize) -> Outcome<K>
        requires { Stands (O.meaning order.now) self.old }
        ensures outcome { result ≡ outcome_of (O.meaning order.now) self.old.features root (matching (O.meaning order.now) self.old (statements_of_rule rule.now) root) }
        ensures left { Holds (O.meaning order.now) (matching (O.meaning order.now) self.old (statements_of_rule rule.now) root) self.new }
        ensures features { self.new.features ≡ self.old.features }
    {
        let answer = self.match_rule(order, rule, root);
        self.told(order, root, answer)
    }
}

// Rules on an entry, and entries one after the other.
ghost use Rattle.std.specs.Prelude.{◌≡◌, ◌+◌, ◌≤◌, ◌++◌, map, length, replicate, vec_len, vec_capacity};
ghost use Rattle.compiler.specs.Entries.{statements_of as statements_of_entry};
ghost use Rattle.compiler.specs.Rules.{statements_of as statements_of_rule};
ghost use Rattle.trials.specs.Trials.{numbered, outcomes_at, outcomes};
ghost use Rattle.trials.specs.declared.trial.Outcome.TheVariants.{Refused as refused};
ghost use Rattle.trials.specs.Memory.{heap_in, places_in, Stands};

use super::Memory;
use crate::trial::{Outcome, Trial};
use compiler::entry::Entry;
use compiler::rule::Rule;
use orders::order::Order;
use refusals::Refusal;

pub mod entries;

// Notes that each rule is refused, as the entry was. There is room for the trials, and so below.
fn refuse_rules<K: Copy>(refusal: Refusal, entry: usize, rules: usize, trials: &mut Vec<Trial<K>>)
    requires { vec_len trials.old + rules ≤ vec_capacity trials.old }
    ensures trials { trials.new.items ≡ trials.old.items ++ numbered entry 1 (replicate rules (refused refusal)) }
    ensures capacity { vec_capacity trials.new ≡ vec_capacity trials.old }
{
    for index in 0..rules {
        trials.push_reserved(Trial {
            entry,
            rule: index + 1,
            outcome: Outcome::Refused { refusal },
        });
    }
}

impl<K: Copy> Memory<K> {
    // Tries the rules in order at the root, and notes what comes of each.
    fn try_rules<O: Order<Kind = K>>(
        &mut self,
        order: &O,
        entry: usize,
        root: usize,
        rules: &[Rule<K>],
        trials: &mut Vec<Trial<K>>,
    )
        requires stands { Stands (O.meaning order.now) self.old }
        requires room { vec_len trials.old + length rules.now ≤ vec_capacity trials.old }
        ensures trials { trials.new.items ≡ trials.old.items ++ numbered entry 1 (outcomes_at (O.meaning order.now) self.old.features root (places_in self.old) (heap_in self.old) (map statements_of_rule rules.now)) }
        ensures capacity { vec_capacity trials.new ≡ vec_capacity trials.old }
        ensures features { self.new.features ≡ self.old.features }
    {
        for (index, rule) in rules.iter().enumerate() {
            let outcome = self.try_rule(order, rule, root);
            trials.push_reserved(Trial {
                entry,
                rule: index + 1,
                outcome,
            });
        }
    }

    // Tries the rules on the entry with this number.
    fn try_entry<O: Order<Kind = K>>(
        &mut self,
        order: &O,
        number: usize,
        entry: &Entry<K>,
        rules: &[Rule<K>],
        trials: &mut Vec<Trial<K>>,
    )
        requires { vec_len trials.old + length rules.now ≤ vec_capacity trials.old }
        ensures trials { trials.new.items ≡ trials.old.items ++ numbered number 1 (outcomes (O.meaning order.now) self.old.features (statements_of_entry entry.now) (map statements_of_rule rules.now)) }
        ensures capacity { vec_capacity trials.new ≡ vec_capacity trials.old }
        ensures features { self.new.features ≡ self.old.features }
    {
        match self.begin(order, entry) {
            Ok(root) => self.try_rules(order, number, root, rules, trials),
            Err(refusal) => refuse_rules(refusal, number, rules.len(), trials),
        }
    }
}

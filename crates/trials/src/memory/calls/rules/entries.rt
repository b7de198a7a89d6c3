// Every rule tried on every entry.
ghost use Rattle.std.specs.Prelude.{◌≡◌, ◌+◌, ◌*◌, ◌≤◌, ◌++◌, ◌∷◌, [], map, length, vec_len, vec_capacity, IfOk, OnOk};
ghost use Rattle.compiler.specs.Views.{statements_in};
ghost use Rattle.compiler.specs.Entries.{statements_of as statements_of_entry, room_of as room_of_entry};
ghost use Rattle.compiler.specs.Rules.{statements_of as statements_of_rule};
ghost use Rattle.trials.specs.Trials.{trials_from, trials as trials_of};

use crate::memory::Memory;
use crate::trial::Trial;
use compiler::entry::{Entry, MOST_IN_ENTRY};
use compiler::rule::{MOST_IN_RULE, Rule};
use orders::order::Order;
use std::alloc::{AllocError, Global};
use terms::term::Term;

// The rule of a term. There is room for every term.
fn compiled<K: Copy>(term: &Term<K>, heap: Global) -> Result<Rule<K>, AllocError>
    ensures { IfOk result (λ rule. statements_of_rule rule ≡ statements_in term.now) }
{
    let mut rule = Rule::new(heap, MOST_IN_RULE)?;
    rule.compile(term).unwrap();
    Ok(rule)
}

// Adds a rule behind the others.
fn add_rule<K: Copy>(rule: Rule<K>, rules: &mut Vec<Rule<K>>) -> Result<(), AllocError>
    ensures { OnOk result (map statements_of_rule rules.new.items ≡ map statements_of_rule rules.old.items ++ statements_of_rule rule ∷ []) }
{
    rules.push(rule)?;
    Ok(())
}

fn compile_all<K: Copy>(terms: &[Term<K>], heap: Global) -> Result<Vec<Rule<K>>, AllocError>
    ensures { IfOk result (λ rules. map statements_of_rule rules.items ≡ map statements_in terms.now) }
{
    let mut rules = Vec::with_capacity(heap, terms.len())?;
    for term in terms {
        add_rule(compiled(term, heap)?, &mut rules)?;
    }
    Ok(rules)
}

// The term takes the place of the one in the entry. There is room for every term.
fn refill<K: Copy>(entry: &mut Entry<K>, term: &Term<K>)
    requires { 599 ≤ room_of_entry entry.old }
    ensures statements { statements_of_entry entry.new ≡ statements_in term.now }
    ensures room { room_of_entry entry.new ≡ room_of_entry entry.old }
{
    entry.compile(term).unwrap();
}

// Room for a trial of each rule on each entry.
fn room_for<K: Copy>(
    entries: usize,
    rules: usize,
    heap: Global,
) -> Result<Vec<Trial<K>>, AllocError>
    ensures { IfOk result (λ trials. (trials.items ≡ []) × (entries * rules ≤ vec_capacity trials)) }
{
    match entries.checked_mul(rules) {
        Some(count) => Vec::with_capacity(heap, count),
        None => Err(AllocError),
    }
}

impl<K: Copy> Memory<K> {
    // Tries the rules on the entries in order. Each is compiled in the place of the one before it.
    fn try_entries<O: Order<Kind = K>>(
        &mut self,
        order: &O,
        entries: &[Term<K>],
        entry: &mut Entry<K>,
        rules: &[Rule<K>],
        trials: &mut Vec<Trial<K>>,
    )
        requires entry { 599 ≤ room_of_entry entry.old }
        requires room { vec_len trials.old + length entries.now * length rules.now ≤ vec_capacity trials.old }
        ensures { trials.new.items ≡ trials.old.items ++ trials_from (O.meaning order.now) self.old.features 1 (map statements_in entries.now) (map statements_of_rule rules.now) }
    {
        for (index, term) in entries.iter().enumerate() {
            refill(entry, term);
            self.try_entry(order, index + 1, entry, rules, trials);
        }
    }
}

// The trials; all memory is taken before the first.
fn all_trials<K: Copy, O: Order<Kind = K>>(
    order: &O,
    features: usize,
    entries: &[Term<K>],
    rules: &[Term<K>],
    heap: Global,
) -> Result<Vec<Trial<K>>, AllocError>
    ensures { IfOk result (λ trials. trials.items ≡ trials_of (O.meaning order.now) features (map statements_in entries.now) (map statements_in rules.now)) }
{
    let mut memory = Memory::new(order.widest(), features, heap)?;
    let mut entry = Entry::new(heap, MOST_IN_ENTRY)?;
    let rules = compile_all(rules, heap)?;
    let mut trials = room_for(entries.len(), rules.len(), heap)?;
    memory.try_entries(order, entries, &mut entry, rules.as_slice(), &mut trials);
    Ok(trials)
}

// Tries every rule on every entry. For each entry in order a case of 256 cells and so many features is opened, the entry is entered in it,
// and the rules are matched in order at its root, each on what the accepted ones before it have left.
pub fn try_all<K: Copy, O: Order<Kind = K>>(
    order: &O,
    features: usize,
    entries: &[Term<K>],
    rules: &[Term<K>],
    heap: Global,
) -> Result<Vec<Trial<K>>, AllocError>
    ensures trials { IfOk result (λ trials. trials.items ≡ trials_of (O.meaning order.now) features (map statements_in entries.now) (map statements_in rules.now)) }
    ensures count { IfOk result (λ trials. length trials.items ≡ length entries.now * length rules.now) }
{
    all_trials(order, features, entries, rules, heap)
}

// From the statements of a term to the codes of a rule.
ghost use Rattle.std.specs.Prelude.{◌≡◌, ◌+◌, ◌≤◌, ℕ, true, length, is_ok, is_err, vec_capacity};
ghost use Rattle.grammar.specs.Lawful.{lawful as lawful_statements, depths as depths_of, statements as without_places};
ghost use Rattle.instructions.specs.Codes.{read_code, write_code};
ghost use Rattle.terms.specs.Terms.{said_of};
ghost use Rattle.compiler.specs.Passing.{written_by_rule};
ghost use Rattle.compiler.specs.Views.{statements_in, features_in};
ghost use Rattle.compiler.specs.Rules.{room_of, IsRule};
ghost use Rattle.compiler.specs.Compiled.{compiled};

use super::{Rule, close_all, is_root_kind, step};
use crate::codes::BEGINNING;
use grammar::statement::{Said, Statement};
use instructions::instruction::Instruction;
use refusals::Refusal;
use terms::term::Term;

// The codes of statements, in the place of what is in memory.
fn write<K: Copy>(
    statements: &[Statement<K>],
    depths: &[usize],
    reads: &mut Vec<Instruction>,
    writes: &mut Vec<Instruction>,
)
    requires lawful { (n : ℕ) × (lawful_statements n statements.now ≡ true) }
    requires depths { depths.now ≡ depths_of statements.now }
    requires few { (length statements.now ≤ 399) × (length depths.now ≤ 200) }
    requires fits { (length (read_code statements.now) ≤ vec_capacity reads.old) × (length (write_code statements.now) ≤ vec_capacity writes.old) }
    ensures reads { reads.new.items ≡ read_code statements.now }
    ensures writes { writes.new.items ≡ write_code statements.now }
    ensures capacity { (vec_capacity reads.new ≡ vec_capacity reads.old) × (vec_capacity writes.new ≡ vec_capacity writes.old) }
{
    reads.clear();
    writes.clear();
    let mut pass = BEGINNING;
    let mut depth = 0;
    for statement in statements {
        depth = step(reads, writes, depths, *statement, pass, depth);
        pass = pass.after(*statement);
    }
    close_all(writes, depth, reads.len());
}

// How many of the statements a rule writes: all but the root's kind.
fn written<K: Copy>(said: &[Said<K>]) -> usize
    ensures value { result ≡ written_by_rule (without_places said.now) }
    ensures most { result ≤ length said.now }
{
    let mut count = 0;
    for one in said {
        if !is_root_kind(one.statement) {
            count += 1;
        }
    }
    count
}

// How many instructions the codes of a rule have together. Each statement is read, and each but the root's kind is written; each variable
// but the root is pushed, and has a test where its description ends.
#[tactic(auto, using(crate::proofs::RuleLengths::rule_length, crate::proofs::Onward::some_variable))]
fn rule_len<K: Copy>(term: &Term<K>) -> usize
    ensures value { result ≡ length (read_code (statements_in term.now)) + length (write_code (statements_in term.now)) }
    ensures more { length (said_of term.now) ≤ result }
    ensures most { result ≤ 1196 }
{
    let said = term.said();
    said.len() + written(said) + 2 * (term.variables() - 1)
}

impl<K: Copy> Rule<K> {
    // Compiles a term, and answers how many instructions its codes have together; or refuses for reason 6 exactly where there is memory for
    // fewer, and leaves the rule as it was.
    pub fn compile(&mut self, term: &Term<K>) -> Result<usize, Refusal>
        ensures answer { result ≡ compiled (room_of self.old) (length (read_code (statements_in term.now)) + length (write_code (statements_in term.now))) }
        ensures rule { is_ok result ≡ true → IsRule self.new (features_in term.now) (statements_in term.now) }
        ensures enough { 1196 ≤ room_of self.old → is_ok result ≡ true }
        ensures kept { is_err result ≡ true → self.new ≡ self.old }
        ensures room { room_of self.new ≡ room_of self.old }
    {
        let len = rule_len(term);
        if len > self.source.room() {
            return Err(Refusal::Memory);
        }
        self.source.take(term);
        write(
            self.source.statements(),
            term.depths(),
            &mut self.reads,
            &mut self.writes,
        );
        Ok(len)
    }
}

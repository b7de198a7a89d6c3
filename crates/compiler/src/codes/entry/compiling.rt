// From the statements of a term to the code of an entry.
ghost use Rattle.std.specs.Prelude.{◌≡◌, ◌<◌, ◌≤◌, true, length, is_ok, is_err, vec_capacity};
ghost use Rattle.grammar.specs.Lawful.{depths as depths_of};
ghost use Rattle.instructions.specs.Codes.{entry_code};
ghost use Rattle.terms.specs.Terms.{said_of};
ghost use Rattle.compiler.specs.Views.{statements_in, features_in};
ghost use Rattle.compiler.specs.Entries.{room_of, IsEntry};
ghost use Rattle.compiler.specs.Compiled.{compiled};

use super::Entry;
use crate::codes::{BEGINNING, push_root, tell};
use grammar::statement::Statement;
use instructions::instruction::Instruction;
use refusals::Refusal;
use terms::term::Term;

// The code of statements, in the place of what is in memory.
fn write<K: Copy>(statements: &[Statement<K>], code: &mut Vec<Instruction>)
    requires fits { length (entry_code statements.now) ≤ vec_capacity code.old }
    requires few { (length statements.now ≤ 399) × (length (depths_of statements.now) ≤ 200) }
    ensures code { code.new.items ≡ entry_code statements.now }
    ensures capacity { vec_capacity code.new ≡ vec_capacity code.old }
{
    code.clear();
    push_root(code);
    let mut pass = BEGINNING;
    for statement in statements {
        tell(code, *statement, pass);
        pass = pass.after(*statement);
    }
}

// How many instructions the code of an entry has: one for each variable and one for each statement.
#[tactic(auto, using(crate::proofs::Lengths::entry_length, crate::proofs::Onward::some_variable))]
fn entry_len<K: Copy>(term: &Term<K>) -> usize
    ensures value { result ≡ length (entry_code (statements_in term.now)) }
    ensures more { length (said_of term.now) < result }
    ensures most { result ≤ 599 }
{
    term.variables() + term.statements()
}

impl<K: Copy> Entry<K> {
    // Compiles a term, and answers how many instructions its code has; or refuses for reason 6 exactly where there is memory for fewer,
    // and leaves the entry as it was.
    pub fn compile(&mut self, term: &Term<K>) -> Result<usize, Refusal>
        ensures answer { result ≡ compiled (room_of self.old) (length (entry_code (statements_in term.now))) }
        ensures entry { is_ok result ≡ true → IsEntry self.new (features_in term.now) (statements_in term.now) }
        ensures enough { 599 ≤ room_of self.old → is_ok result ≡ true }
        ensures kept { is_err result ≡ true → self.new ≡ self.old }
        ensures room { room_of self.new ≡ room_of self.old }
    {
        let len = entry_len(term);
        if len > self.source.room() {
            return Err(Refusal::Memory);
        }
        self.source.take(term);
        write(self.source.statements(), &mut self.code);
        Ok(len)
    }
}

// What the codes of entries and of rules have in common: the statements they are made of, what is counted as these are gone over, and the
// instructions that write one.
ghost use Rattle.std.specs.Prelude.{◌≡◌, ◌+◌, ◌<◌, ◌≤◌, true, [], ◌∷◌, ◌++◌, length, IfOk, vec_len, vec_capacity};
ghost use Rattle.grammar.specs.Lawful.{lawful as lawful_statements, depths as depths_of, statements as without_places};
ghost use Rattle.instructions.specs.declared.instruction.Instruction.TheVariants.{PushCell};
ghost use Rattle.instructions.specs.Codes.{Compiling, kinds as kinds_of, told, next};
ghost use Rattle.terms.specs.Terms.{said_of, features_of};
ghost use Rattle.compiler.specs.Passing.{Counts};

use grammar::statement::{Said, Statement};
use instructions::instruction::Instruction;
use std::alloc::{AllocError, Global};
use terms::term::Term;

pub mod entry;
pub mod rule;

// The statements, lawful over so many features, and the kinds in them, which instructions have by number; how many variables there are;
// and for how many statements there is memory.
#[derive(Drop)]
struct Source<K> {
    statements: Vec<Statement<K>>,
    kinds: Vec<K>,
    features: usize,
    variables: usize,
    room: usize,
    ghost lawful: { lawful_statements features statements.items ≡ true },
    ghost kinds_are: { kinds.items ≡ kinds_of statements.items },
    ghost counted: { variables ≡ length (depths_of statements.items) },
    ghost few: { variables ≤ 200 },
    ghost held: { room ≤ vec_capacity statements },
    ghost kinds_held: { room ≤ vec_capacity kinds },
}

// Puts the statements and their kinds in the place of those in memory.
fn copy<K: Copy>(said: &[Said<K>], statements: &mut Vec<Statement<K>>, kinds: &mut Vec<K>)
    requires { (length said.now ≤ vec_capacity statements.old) × (length said.now ≤ vec_capacity kinds.old) }
    ensures statements { statements.new.items ≡ without_places said.now }
    ensures kinds { kinds.new.items ≡ kinds_of (without_places said.now) }
    ensures capacity { (vec_capacity statements.new ≡ vec_capacity statements.old) × (vec_capacity kinds.new ≡ vec_capacity kinds.old) }
{
    statements.clear();
    kinds.clear();
    for one in said {
        match one.statement {
            Statement::Kind { kind, .. } => kinds.push_reserved(kind),
            Statement::Feature { .. } => {}
        }
        statements.push_reserved(one.statement);
    }
}

impl<K: Copy> Source<K> {
    // No statement. Memory for so many.
    fn new(heap: Global, room: usize) -> Result<Source<K>, AllocError>
        ensures { IfOk result (λ s. (s.statements.items ≡ []) × (s.features ≡ 0) × (s.room ≡ room)) }
    {
        let statements = Vec::with_capacity(heap, room)?;
        let kinds = Vec::with_capacity(heap, room)?;
        Ok(Source {
            statements,
            kinds,
            features: 0,
            variables: 1,
            room,
        })
    }

    // Takes the statements of a term over, for which there is memory.
    fn take(&mut self, term: &Term<K>)
        requires { length (said_of term.now) ≤ self.old.room }
        ensures statements { self.new.statements.items ≡ without_places (said_of term.now) }
        ensures features { self.new.features ≡ features_of term.now }
        ensures room { self.new.room ≡ self.old.room }
    {
        copy(term.said(), &mut self.statements, &mut self.kinds);
        self.features = term.features();
        self.variables = term.variables();
    }

    fn statements(&self) -> &[Statement<K>]
        ensures { result.now ≡ self.now.statements.items }
    {
        self.statements.as_slice()
    }

    fn kinds(&self) -> &[K]
        ensures { result.now ≡ kinds_of self.now.statements.items }
    {
        self.kinds.as_slice()
    }

    fn variables(&self) -> usize
        ensures value { result ≡ length (depths_of self.now.statements.items) }
        ensures few { result ≤ 200 }
    {
        self.variables
    }

    fn features(&self) -> usize
        ensures value { result ≡ self.now.features }
        ensures lawful { lawful_statements result self.now.statements.items ≡ true }
    {
        self.features
    }

    fn room(&self) -> usize
        ensures { result ≡ self.now.room }
    {
        self.room
    }
}

// Between two statements: how many variables are met, and how many kinds came before.
#[derive(Clone, Copy)]
struct Pass {
    met: usize,
    kinds: usize,
}

// The root is met.
const BEGINNING: Pass = Pass { met: 1, kinds: 0 };

impl Pass {
    // After one statement more of a term.
    fn after<K: Copy>(self, statement: Statement<K>) -> Pass
        requires { (self.met ≤ 200) × (self.kinds ≤ 399) }
        ensures { (c : Compiling) → Counts self c → Counts result (next c statement) }
    {
        match statement {
            Statement::Kind { .. } => Pass {
                kinds: self.kinds + 1,
                ..self
            },
            Statement::Feature { value, .. } => Pass {
                met: if value == self.met {
                    self.met + 1
                } else {
                    self.met
                },
                ..self
            },
        }
    }
}

// The instruction that makes the root's cell, behind those that are there.
fn push_root(code: &mut Vec<Instruction>)
    requires { vec_len code.old < vec_capacity code.old }
    ensures items { code.new.items ≡ code.old.items ++ PushCell 0 ∷ [] }
    ensures capacity { vec_capacity code.new ≡ vec_capacity code.old }
{
    code.push_reserved(Instruction::PushCell { register: 0 });
}

// The instructions that write a statement, behind those that are there.
fn tell<K: Copy>(code: &mut Vec<Instruction>, statement: Statement<K>, pass: Pass)
    requires { (c : Compiling) × (Counts pass c) × (vec_len code.old + length (told c statement) ≤ vec_capacity code.old) }
    ensures items { (c : Compiling) → Counts pass c → code.new.items ≡ code.old.items ++ told c statement }
    ensures capacity { vec_capacity code.new ≡ vec_capacity code.old }
{
    match statement {
        Statement::Kind { variable, .. } => code.push_reserved(Instruction::SetSort {
            register: variable,
            kind: pass.kinds,
        }),
        Statement::Feature {
            variable,
            feature,
            value,
        } => {
            if value == pass.met {
                code.push_reserved(Instruction::PushCell { register: value });
            }
            code.push_reserved(Instruction::SetFeature {
                register: variable,
                feature,
                value,
            });
        }
    }
}

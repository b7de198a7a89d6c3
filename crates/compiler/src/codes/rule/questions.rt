// A new rule, and what can be asked of a rule.
ghost use Rattle.std.specs.Prelude.{◌≡◌, ◌≤◌, true, [], length, IfOk};
ghost use Rattle.grammar.specs.Lawful.{lawful as lawful_statements, depths as depths_of};
ghost use Rattle.instructions.specs.Codes.{kinds as kinds_of, read_code, write_code};
ghost use Rattle.compiler.specs.Rules.{statements_of, features_of, room_of, IsRule};

use super::Rule;
use crate::codes::Source;
use grammar::statement::Statement;
use instructions::instruction::Instruction;
use std::alloc::{AllocError, Global};

impl<K: Copy> Rule<K> {
    // The rule of one bare name: no statements, one variable, no instruction. Memory for so many instructions, those of both codes together.
    pub fn new(heap: Global, room: usize) -> Result<Rule<K>, AllocError>
        ensures { IfOk result (λ r. (IsRule r 0 []) × (room_of r ≡ room)) }
    {
        let source = Source::new(heap, room)?;
        let reads = Vec::with_capacity(heap, room)?;
        let writes = Vec::with_capacity(heap, room)?;
        Ok(Rule {
            source,
            reads,
            writes,
        })
    }

    // The instructions that read.
    pub fn reads(&self) -> &[Instruction]
        ensures { result.now ≡ read_code (statements_of self.now) }
    {
        self.reads.as_slice()
    }

    // The instructions that write.
    pub fn writes(&self) -> &[Instruction]
        ensures { result.now ≡ write_code (statements_of self.now) }
    {
        self.writes.as_slice()
    }

    // The kinds, which instructions have by their numbers here.
    pub fn kinds(&self) -> &[K]
        ensures { result.now ≡ kinds_of (statements_of self.now) }
    {
        self.source.kinds()
    }

    // The statements that were compiled.
    pub fn statements(&self) -> &[Statement<K>]
        ensures { result.now ≡ statements_of self.now }
    {
        self.source.statements()
    }

    // How many variables there are.
    pub fn variables(&self) -> usize
        ensures value { result ≡ length (depths_of (statements_of self.now)) }
        ensures few { result ≤ 200 }
    {
        self.source.variables()
    }

    // How many features are declared.
    pub fn features(&self) -> usize
        ensures value { result ≡ features_of self.now }
        ensures lawful { lawful_statements result (statements_of self.now) ≡ true }
    {
        self.source.features()
    }
}

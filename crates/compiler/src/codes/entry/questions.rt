// A new entry, and what can be asked of an entry.
ghost use Rattle.std.specs.Prelude.{◌≡◌, ◌≤◌, true, [], length, IfOk};
ghost use Rattle.grammar.specs.Lawful.{lawful as lawful_statements, depths as depths_of};
ghost use Rattle.instructions.specs.Codes.{kinds as kinds_of, entry_code};
ghost use Rattle.compiler.specs.Entries.{statements_of, features_of, room_of, IsEntry};

use super::Entry;
use crate::codes::{Source, push_root};
use grammar::statement::Statement;
use instructions::instruction::Instruction;
use std::alloc::{AllocError, Global};

impl<K: Copy> Entry<K> {
    // The entry of one bare name: no statements, one variable. Memory for so many instructions; that of the bare name is always held, also
    // where the room is 0, and then no term is compiled.
    pub fn new(heap: Global, room: usize) -> Result<Entry<K>, AllocError>
        ensures { IfOk result (λ e. (IsEntry e 0 []) × (room_of e ≡ room)) }
    {
        let source = Source::new(heap, room)?;
        let mut code = Vec::with_capacity(heap, room.max(1))?;
        push_root(&mut code);
        Ok(Entry { source, code })
    }

    // The instructions.
    pub fn code(&self) -> &[Instruction]
        ensures { result.now ≡ entry_code (statements_of self.now) }
    {
        self.code.as_slice()
    }

    // The kinds, which instructions have by their numbers here.
    pub fn kinds(&self) -> &[K]
        ensures { result.now ≡ kinds_of (statements_of self.now) }
    {
        self.source.kinds()
    }

    // The statements that were compiled.
    pub fn statements(&self) -> &[Statement<K>]
        ensures { result.now ≡ statements_of self.now }
    {
        self.source.statements()
    }

    // How many variables there are.
    pub fn variables(&self) -> usize
        ensures value { result ≡ length (depths_of (statements_of self.now)) }
        ensures few { result ≤ 200 }
    {
        self.source.variables()
    }

    // How many features are declared.
    pub fn features(&self) -> usize
        ensures value { result ≡ features_of self.now }
        ensures lawful { lawful_statements result (statements_of self.now) ≡ true }
    {
        self.source.features()
    }
}

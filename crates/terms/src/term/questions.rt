// A new term, and what can be asked of a term.
ghost use Rattle.std.specs.Prelude.{◌≡◌, ◌≤◌, true, [], map, length, IfOk};
ghost use Rattle.grammar.specs.Lawful.{lawful as lawful_statements, statements as statements_of};
ghost use Rattle.terms.specs.Terms.{said_of, room_of, features_of, depths_in, From0, From1};

use super::{Term, put_root};
use grammar::statement::{Said, Statement};
use std::alloc::{AllocError, Global};

impl<K: Copy> Term<K> {
    // The term of one bare name: no statements, one variable. Room for so many statements.
    pub fn new(heap: Global, room: usize) -> Result<Term<K>, AllocError>
        ensures { IfOk result (λ t. (said_of t ≡ []) × (room_of t ≡ room) × (features_of t ≡ 0)) }
    {
        let Some(variables) = room.checked_add(1) else {
            return Err(AllocError);
        };
        let rows = Vec::with_capacity(heap, room)?;
        let mut depths = Vec::with_capacity(heap, variables)?;
        put_root(&mut depths);
        Ok(Term {
            rows,
            depths,
            features: 0,
            room,
        })
    }

    // For how many statements there is memory.
    pub fn room(&self) -> usize
        ensures { result ≡ room_of self.now }
    {
        self.room
    }

    // How many statements there are.
    pub fn statements(&self) -> usize
        ensures { result ≡ length (said_of self.now) }
    {
        self.rows.len()
    }

    // How many features are declared.
    pub fn features(&self) -> usize
        ensures value { result ≡ features_of self.now }
        ensures lawful { lawful_statements result (statements_of (said_of self.now)) ≡ true }
    {
        self.features
    }

    // How many variables there are.
    pub fn variables(&self) -> usize
        ensures value { result ≡ length (depths_in self.now) }
        ensures few { result ≤ 200 }
    {
        self.depths.len()
    }

    // The statements, each with the place of its word.
    pub fn said(&self) -> &[Said<K>]
        ensures value { result.now ≡ said_of self.now }
        ensures few { length result.now ≤ 399 }
    {
        self.rows.as_slice()
    }

    // The depths of the variables.
    pub fn depths(&self) -> &[usize]
        ensures value { result.now ≡ depths_in self.now }
        ensures few { length result.now ≤ 200 }
    {
        self.depths.as_slice()
    }

    // The statement with this number, from 1.
    pub fn statement(&self, number: usize) -> Option<Statement<K>>
        ensures { From1 (statements_of (said_of self.now)) number result }
    {
        Some(self.row(number)?.statement)
    }

    // The first byte, in its line, of the word that the statement with this number came from.
    pub fn place(&self, number: usize) -> Option<usize>
        ensures { From1 (map (λ s. s.place) (said_of self.now)) number result }
    {
        Some(self.row(number)?.place)
    }

    // The statement with this number, from 1, and its place.
    fn row(&self, number: usize) -> Option<Said<K>>
        ensures { From1 (said_of self.now) number result }
    {
        let index = number.checked_sub(1)?;
        self.rows.get(index).copied()
    }

    // The depth of this variable, from 0.
    pub fn depth(&self, variable: usize) -> Option<usize>
        ensures { From0 (depths_in self.now) variable result }
    {
        self.depths.get(variable).copied()
    }
}

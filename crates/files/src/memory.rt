// Memory for the terms of a file, taken before the file is read.
ghost use Rattle.std.specs.Prelude.{◌≡◌, IfOk, vec_items};
ghost use Rattle.files.specs.Shelves.{Empty};

use grammar::statement::MOST_STATEMENTS;
use std::alloc::{AllocError, Global};
use std::vec::Vec;
use terms::term::Term;

// How many entries a file may have, and how many rules.
pub const MOST_LINES: usize = 200;

// A term for each entry and each rule that a file may have, with memory for as many statements as a line may have.
#[derive(Drop)]
pub struct Memory<K> {
    pub(crate) entries: Vec<Term<K>>,
    pub(crate) rules: Vec<Term<K>>,
    ghost for_entries: { Empty entries.items },
    ghost for_rules: { Empty rules.items },
}

// As many terms as a section may have lines.
fn empty_terms<K: Copy>(heap: Global) -> Result<Vec<Term<K>>, AllocError>
    ensures { IfOk result (λ terms. Empty terms.items) }
{
    let mut terms = Vec::with_capacity(heap, MOST_LINES)?;
    for number in 0..MOST_LINES {
        terms.push(Term::new(heap, MOST_STATEMENTS)?)?;
    }
    Ok(terms)
}

impl<K: Copy> Memory<K> {
    // Memory for the largest file.
    pub fn new(heap: Global) -> Result<Memory<K>, AllocError>
        ensures { IfOk result (λ memory. Empty (vec_items memory.entries) × Empty (vec_items memory.rules)) }
    {
        let entries = empty_terms(heap)?;
        let rules = empty_terms(heap)?;
        Ok(Memory { entries, rules })
    }
}

// Looking up declared kinds.
ghost use Rattle.std.specs.Prelude.{◌≡◌, ◌≤◌, length, map};
ghost use Rattle.declarations.specs.Rows.{rows_of};
ghost use Rattle.declarations.specs.Rows.{row as row_at};
ghost use Rattle.kinds.specs.Stored.{first_named};
ghost use Rattle.kinds.specs.Model.{kinds_of, Finds};

use super::{Kind, Table};

impl Table {
    // How many kinds there are.
    pub fn len(&self) -> usize
        ensures value { result ≡ length (kinds_of self.now) }
        ensures few { result ≤ 64 }
    {
        self.kinds.len()
    }

    // The kind that has this name.
    #[tactic(auto, using(crate::proofs::Finding::finds))]
    pub fn find(&self, word: &[u8]) -> Option<usize>
        ensures { Finds (kinds_of self.now) word.now result }
    {
        first_named(self.kinds.as_slice(), word)
    }

    // The kinds at or under this one, as bits: no bit, 0, where there is no such kind, as rows have it.
    pub fn row(&self, kind: usize) -> u64
        ensures { result ≡ row_at (rows_of (kinds_of self.now)) kind }
    {
        self.kinds.as_slice().get(kind).map_or(0, |kind| kind.row)
    }
}

// The first of the kinds that has this name. One line of the library: a trait for what has a name would be longer than its uses.
#[tactic(auto, unfolding(crate::specs::Stored::first_named))]
fn first_named(kinds: &[Kind], word: &[u8]) -> Option<usize>
    ensures { result ≡ first_named word.now kinds.now }
{
    kinds.iter().position(|kind| kind.name.is(word))
}

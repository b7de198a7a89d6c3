// A draft: kinds being declared, line by line.
ghost use Rattle.std.specs.Prelude.{◌≡◌, [], ◌∷◌};
ghost use Rattle.declarations.specs.Declarations.{any};
ghost use Rattle.kinds.specs.Lists.{drafted};
ghost use Rattle.kinds.specs.Model.{kinds_of};

use crate::table::{ANY, MOST, Table, UNUSED};
use short_lists::ShortList;

pub mod closes;
pub mod declares;

// Kinds that are declared and not closed. A draft is no order: `close` makes a list of it.
#[derive(Drop)]
pub struct Draft {
    table: Table,
}

// Kind 0 alone.
fn any_alone() -> Table
    ensures { kinds_of result ≡ any ∷ [] }
{
    // The room past it is zeros, which cost less to write than copies of `any`.
    let mut room = [UNUSED; MOST];
    room[0] = ANY;
    Table {
        kinds: ShortList { room, len: 1 },
    }
}

impl Draft {
    // A draft with the kind `any` alone.
    pub fn new() -> Draft
        ensures { drafted result ≡ any ∷ [] }
    {
        let table = any_alone();
        Draft { table }
    }
}

// A closed list of kinds.
ghost use Rattle.std.specs.Prelude.{◌≡◌, true, map};
ghost use Rattle.declarations.specs.Rows.{closed as closing};

use crate::table::Table;

pub mod order;
pub mod shipped;
pub mod texts;

// An order of kinds: every number is a kind, those past the last one under `any` only.
#[derive(Drop)]
pub struct List {
    pub(crate) table: Table,
    // kinds with something under both have a widest such kind, the one with the lowest number
    ghost closed: { closing 64 (map (λ k. k.row) table.kinds.items) ≡ true },
}

// Declared kinds in memory, with their rows.
ghost use Rattle.std.specs.Prelude.{◌≡◌, ◌≤◌, true, map, length};
ghost use Rattle.declarations.specs.Declarations.{sound as lawful};
ghost use Rattle.declarations.specs.Rows.{rows_of};
ghost use Rattle.kinds.specs.Stored.{declaration};

use declarations::name::Name;
use declarations::name::methods::BLANK;
use short_lists::ShortList;

pub mod lookups;

// How many kinds a list has at most, `any` among them.
pub const MOST: usize = 64;

// A kind with its name, the wider kinds whose bits are set in `wider`, and at or under it those whose bits are set in `row`.
#[derive(Clone, Copy)]
pub struct Kind {
    pub name: Name,
    pub wider: u64,
    pub row: u64,
}

// The kinds, each at its number.
#[derive(Clone, Copy)]
pub struct Table {
    pub kinds: ShortList<Kind, MOST>,
    ghost few: { length kinds.items ≤ 64 },
    // each has a name of its own and wider kinds declared before it
    ghost sound: { lawful (map declaration kinds.items) ≡ true },
    // the rows say which kinds are at or under which
    ghost right: { map (λ k. k.row) kinds.items ≡ rows_of (map declaration kinds.items) },
}

// The name of kind 0.
pub const ANY_NAME: Name = Name {
    text: ShortList {
        room: *b"any\0\0\0\0\0\0\0\0\0\0\0\0\0\0\0\0\0\0\0\0\0",
        len: 3,
    },
};

// Kind 0, alone in its list.
pub const ANY: Kind = Kind {
    name: ANY_NAME,
    wider: 0,
    row: 1,
};

// What fills the room past the last kind.
pub const UNUSED: Kind = Kind {
    name: BLANK,
    wider: 0,
    row: 0,
};

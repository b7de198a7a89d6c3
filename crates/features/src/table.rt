// Declared features.
ghost use Rattle.std.specs.Prelude.{◌≤◌, length};

use declarations::name::Name;
use short_lists::ShortList;

pub mod declares;
pub mod lookups;

// How many features there may be.
pub const MOST: usize = 16;

// The names of the features, each at its number.
#[derive(Clone, Copy)]
pub struct Features {
    names: ShortList<Name, MOST>,
    // there is room for them
    ghost few: { length names.items ≤ 16 },
}

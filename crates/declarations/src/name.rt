// The name of a kind or a feature.
ghost use Rattle.std.specs.Prelude.{◌≤◌, length};

use short_lists::ShortList;

pub mod methods;

// How many bytes the name of a kind, a feature or a variable may have.
pub const LONGEST_NAME: usize = 24;

// At most so many bytes, in memory of its own.
#[derive(Clone, Copy)]
pub struct Name {
    pub text: ShortList<u8, LONGEST_NAME>,
    ghost few: { length text.items ≤ 24 },
}

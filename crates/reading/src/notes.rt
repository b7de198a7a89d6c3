// What is found in a line, in memory of a fixed size. Nothing of the line is copied, nor borrowed: names and kind texts are parts of it by
// place and length, so notes may outlive the line.
ghost use Rattle.std.specs.Prelude.{◌≤◌, length};

use crate::span::Span;
use grammar::statement::{MOST_STATEMENTS, MOST_VARIABLES, Said};
use short_lists::ShortList;

// The names of the variables met, no bytes for one that has none, as the clauses have it (an `Option` would be turned into that wherever
// names are looked for); the statements; the leftmost wrong word.
#[derive(Clone, Copy)]
pub struct Notes {
    pub names: ShortList<Span, MOST_VARIABLES>,
    pub said: ShortList<Said<Span>, MOST_STATEMENTS>,
    pub wrong: Option<usize>,
    ghost few: { length names.items ≤ 200 },
    ghost room: { length said.items ≤ 399 },
}

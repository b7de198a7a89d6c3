// A term in memory: its statements, and the depths of its variables.
ghost use Rattle.std.specs.Prelude.{◌≡◌, ◌+◌, ◌<◌, ◌≤◌, true, [], ◌∷◌, ◌++◌, length, vec_len, vec_capacity};
ghost use Rattle.grammar.specs.Lawful.{lawful as lawful_statements, depths as depths_of, statements as statements_of};

use grammar::statement::Said;

pub mod kinds;
pub mod questions;

// The statements with their places, the depths of the variables, how many features are declared, and for how many statements there is
// memory. The memory is taken once: reading another line into a term takes no more.
#[derive(Drop)]
pub struct Term<K> {
    rows: Vec<Said<K>>,
    depths: Vec<usize>,
    features: usize,
    room: usize,
    ghost lawful: { lawful_statements features (statements_of rows.items) ≡ true },
    ghost deep: { depths.items ≡ depths_of (statements_of rows.items) },
    ghost few: { length depths.items ≤ 200 },
    ghost short: { length rows.items ≤ 399 },
    ghost within: { vec_len rows ≤ room },
    ghost held: { room ≤ vec_capacity rows },
    ghost spare: { room + 1 ≤ vec_capacity depths },
}

// The root's depth, 0, behind the depths that are there.
fn put_root(depths: &mut Vec<usize>)
    requires { vec_len depths.old < vec_capacity depths.old }
    ensures items { depths.new.items ≡ depths.old.items ++ 0 ∷ [] }
    ensures capacity { vec_capacity depths.new ≡ vec_capacity depths.old }
{
    depths.push_reserved(0);
}

// The code of a term that is entered.
ghost use Rattle.std.specs.Prelude.{◌≡◌, ◌≤◌, vec_capacity};
ghost use Rattle.instructions.specs.Codes.{entry_code};

use super::Source;
use instructions::instruction::Instruction;

mod compiling;
mod questions;

// How many instructions the code of an entry has at most: one for each of 200 variables and 399 statements.
pub const MOST_IN_ENTRY: usize = 599;

// The statements that were compiled, and their code, in memory that is taken once.
#[derive(Drop)]
pub struct Entry<K> {
    source: Source<K>,
    code: Vec<Instruction>,
    ghost code_is: { code.items ≡ entry_code source.statements.items },
    ghost code_held: { source.room ≤ vec_capacity code },
}

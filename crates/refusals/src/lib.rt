// The ten reasons to refuse. Every call of the matcher that refuses answers one of them.
// `specs/Table.antt` has the table: the number of each and the values that it returns.
#![tactic(auto)]

ghost use Rattle.std.specs.Prelude.{◌≡◌, Some};
ghost use Rattle.refusals.specs.Table.{row, printed};

use std::fmt;

// How many bytes a line may have, whatever it says. Each call that reads a line tests it first, in one line as its other tests.
pub const LONGEST_LINE: usize = 1000;

#[derive(Clone, Copy, PartialEq, Eq, Debug)]
pub enum Refusal {
    // A limit is passed: the first byte of the line, or 0 for a file.
    Limit { place: usize },
    // A line is against its grammar: the first byte at which no lawful line goes on.
    Grammar { place: usize },
    // A word is declared before, unknown, already in its list, or a name is described elsewhere: the word's first byte.
    Word { place: usize },
    // A kind text that the order does not take whole: its first byte.
    Kind { place: usize },
    // Closing: kinds under both have no widest; the first such pair.
    NoWidest { first: usize, second: usize },
    // Memory is too short, or a size is out of range.
    Memory,
    // A cell is not in use.
    Cell,
    // A feature past the case's, or a place list shorter than the variables.
    Feature,
    // The cells do not suffice.
    Full,
    // A clash: the statement, or 0 for a join.
    Clash { statement: usize },
}

impl Refusal {
    // The number of the reason, 1 to 10, as it is printed. Code matches the cases.
    pub fn number(&self) -> u8
        ensures { result ≡ (row self.now).number }
    {
        match self {
            Refusal::Limit { .. } => 1,
            Refusal::Grammar { .. } => 2,
            Refusal::Word { .. } => 3,
            Refusal::Kind { .. } => 4,
            Refusal::NoWidest { .. } => 5,
            Refusal::Memory => 6,
            Refusal::Cell => 7,
            Refusal::Feature => 8,
            Refusal::Full => 9,
            Refusal::Clash { .. } => 10,
        }
    }
}

// The number and then each value, one blank before it: `2 17`, `5 1 2`, `6`.
impl fmt::Display for Refusal {
    ghost output = { λ e. Some (printed (row e)) };

    fn fmt<W: fmt::Write>(&self, f: &mut fmt::Formatter<W>) -> fmt::Result {
        let number = self.number();
        match self {
            Refusal::Limit { place }
            | Refusal::Grammar { place }
            | Refusal::Word { place }
            | Refusal::Kind { place } => { write!(f, "{number} {place}") }
            Refusal::NoWidest { first, second } => write!(f, "{number} {first} {second}"),
            Refusal::Memory | Refusal::Cell | Refusal::Feature | Refusal::Full => write!(
                f,
                "{number}"
            ),
            Refusal::Clash { statement } => write!(f, "{number} {statement}"),
        }
    }
}

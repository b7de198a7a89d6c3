// A line that declares a kind: its name, and then a blank and the name of a wider kind, once or more.
ghost use Rattle.std.specs.Prelude.{◌≡◌, not, position};
ghost use Rattle.declarations.specs.Names.{letter};
ghost use Rattle.declarations.specs.Names.{name_byte as name_character};
ghost use Rattle.declarations.specs.Lines.{Line, Scanned, NameEnd, WordEnd};
ghost use Rattle.declarations.specs.Scanner.{next_part, ends};
ghost use Rattle.declarations.specs.declared.line.Part.TheVariants.{Start};
ghost use Rattle.declarations.specs.Decided.{decided};

use scanning::{LinePart, first_blank};

// Where in the line a byte stands. Each grammar has parts of its own; what goes over them is generic.
#[derive(Clone, Copy)]
enum Part {
    Start,
    Name,
    Blank,
    Wider,
}

pub fn is_letter(byte: u8) -> bool
    ensures { result ≡ letter byte }
{
    matches!(byte, b'a'..=b'z')
}

// A lower-case letter, a digit or an underscore.
pub fn is_name_byte(byte: u8) -> bool
    ensures { result ≡ name_character byte }
{
    matches!(byte, b'a'..=b'z' | b'0'..=b'9' | b'_')
}

// What may come next in a line, and where it may end: the cases of the grammar, which its law is about.
impl LinePart for Part {
    ghost first_part = { Start };

    ghost part_after = { next_part };

    ghost is_last = { ends };

    ghost lawful = { Line };

    fn start() -> Part {
        Part::Start
    }

    fn next(self, byte: u8) -> Option<Part> {
        match self {
            Part::Start if is_letter(byte) => Some(Part::Name),
            Part::Blank if is_letter(byte) => Some(Part::Wider),
            Part::Name | Part::Wider if is_name_byte(byte) => Some(self),
            Part::Name | Part::Wider if byte == b' ' => Some(Part::Blank),
            _ => None,
        }
    }

    fn may_end(self) -> bool {
        matches!(self, Part::Wider)
    }

    ghost laws = { decided };
}

// The first byte at which no lawful line goes on, the line's length where it only ends too early, or none for a lawful line.
pub fn break_at(line: &[u8]) -> Option<usize>
    ensures { Scanned line.now result }
{
    scanning::break_at::<Part>(line)
}

// How many bytes the longest name has that the line begins with. 0 is a length here: the name of no bytes.
#[tactic(auto, using(crate::proofs::Scanning::no_name, crate::proofs::Scanning::longest_name))]
pub fn name_end(line: &[u8]) -> usize
    ensures { NameEnd line.now result }
{
    match line {
        [first, ..] if is_letter(*first) => first_outside(line).unwrap_or(line.len()),
        _ => 0,
    }
}

// The first byte that no name has. It stands alone, since what a chain answers is proved where the chain ends a function.
fn first_outside(line: &[u8]) -> Option<usize>
    ensures { result ≡ position (λ b. not (name_character b)) line.now }
{
    line.iter().position(|byte| !is_name_byte(*byte))
}

// Where a word ends that begins at `start`: the next blank, or the end of the line, a place that the clause promises.
#[tactic(auto, using(crate::proofs::Scanning::no_word))]
pub fn word_end(line: &[u8], start: usize) -> usize
    ensures { WordEnd line.now start result }
{
    match line.get(start..) {
        Some(rest) => start + first_blank(rest).unwrap_or(rest.len()),
        None => line.len(),
    }
}

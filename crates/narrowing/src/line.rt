// A line with two kind texts: one byte of text or more, a blank, and one byte of text or more.
ghost use Rattle.std.specs.Prelude.{◌≡◌};
ghost use Rattle.narrowing.specs.declared.line.Part.TheVariants.{Start};
ghost use Rattle.narrowing.specs.Lines.{Line};
ghost use Rattle.narrowing.specs.Narrowing.{Split, TextsOf};
ghost use Rattle.narrowing.specs.Scanner.{next_part, ends};
ghost use Rattle.narrowing.specs.Decided.{decided};

use orders::texts::is_text_byte;
use refusals::{LONGEST_LINE, Refusal};
use scanning::{LinePart, break_at, first_blank};

// Where in the line a byte stands. Each grammar has parts of its own; what goes over them is generic.
#[derive(Clone, Copy)]
enum Part {
    Start,
    First,
    Blank,
    Second,
}

// What may come next in a line, and where it may end: the cases of the grammar, which its law is about.
impl LinePart for Part {
    ghost first_part = { Start };

    ghost part_after = { next_part };

    ghost is_last = { ends };

    ghost lawful = { Line };

    fn start() -> Part {
        Part::Start
    }

    fn next(self, byte: u8) -> Option<Part> {
        match self {
            Part::Start | Part::First if is_text_byte(byte) => Some(Part::First),
            Part::Blank | Part::Second if is_text_byte(byte) => Some(Part::Second),
            Part::First if byte == b' ' => Some(Part::Blank),
            _ => None,
        }
    }

    fn may_end(self) -> bool {
        matches!(self, Part::Second)
    }

    ghost laws = { decided };
}

// A text of a line, and the place of its first byte.
#[derive(Clone, Copy)]
pub struct PlacedText<'a> {
    pub text: &'a [u8],
    pub place: usize,
}

// The two texts of a lawful line within the limit.
pub fn split(line: &[u8]) -> Result<(PlacedText<'_>, PlacedText<'_>), Refusal>
    ensures { Split line.now result }
{
    if line.len() > LONGEST_LINE {
        return Err(Refusal::Limit { place: 0 });
    }
    match break_at::<Part>(line) {
        Some(place) => Err(Refusal::Grammar { place }),
        None => Ok(texts(line)),
    }
}

// The two texts of a lawful line: what stands before its first blank and what stands after.
fn texts(line: &[u8]) -> (PlacedText<'_>, PlacedText<'_>)
    requires { Line line.now }
    ensures { (l : Line line.now) × TextsOf line.now l result.0 result.1 }
{
    let blank = first_blank(line).unwrap_or(line.len());
    let first = PlacedText {
        text: &line[..blank],
        place: 0,
    };
    let second = PlacedText {
        text: &line[blank + 1..],
        place: blank + 1,
    };
    (first, second)
}

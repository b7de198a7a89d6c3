// Going over a line byte by byte, whatever its grammar.
//
// `LinePart`      where in a line of some grammar a byte stands, and what may come next
// `break_at`      the first byte at which no lawful line goes on
// `first_blank`   where the first blank stands
//
// `specs/Scanner.antt` says when the parts of a line decide its grammar; each grammar proves that its own do.
#![tactic(auto)]

ghost use Rattle.std.specs.Prelude.{◌≡◌, ℕ, Bool, List, Option, position, ◌==◌};
ghost use Rattle.scanning.specs.Scanner.{Decides, Scanned};

// Where in a line a byte stands.
pub trait LinePart: Copy {
    // Where a line begins, the part after each byte, the parts at which a line may end, and the lines that are lawful.
    ghost first_part: { Self };

    ghost part_after: { Self → ℕ → Option Self };

    ghost is_last: { Self → Bool };

    ghost lawful: { List ℕ → Type 0 };

    // Where a line begins.
    fn start() -> Self
        ensures { result ≡ first_part };

    // Where the next byte stands, or none where no lawful line has it there.
    fn next(self, byte: u8) -> Option<Self>
        ensures { result ≡ part_after self byte };

    // Whether a lawful line may end here.
    fn may_end(self) -> bool
        ensures { result ≡ is_last self };

    // What each grammar must prove.
    ghost laws: { Decides first_part part_after is_last lawful };
}

// The first byte at which no lawful line goes on, the line's length where it only ends too early, or none for a lawful line.
pub fn break_at<P: LinePart>(line: &[u8]) -> Option<usize>
    ensures { Scanned P.lawful line.now result }
{
    let mut part = P::start();
    // The part goes along with the place: of a chain whose closure changes the part, nothing is proved.
    for (i, byte) in line.iter().enumerate() {
        match part.next(*byte) {
            Some(more) => part = more,
            None => return Some(i),
        }
    }
    if part.may_end() {
        None
    } else {
        Some(line.len())
    }
}

// Where the first blank stands, if there is one. One line of the library, as other first places are: `position` is their generic function.
pub fn first_blank(bytes: &[u8]) -> Option<usize>
    ensures { result ≡ position (λ b. b == 32) bytes.now }
{
    bytes.iter().position(|byte| *byte == b' ')
}

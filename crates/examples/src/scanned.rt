// A small grammar, and what scanning tells of its lines.
use scanning::{LinePart, break_at, first_blank};

// A line of digits, one or more: a byte stands before them all, or behind one.
#[derive(Clone, Copy)]
enum Digits {
    Before,
    Behind,
}

impl LinePart for Digits {
    ghost use Rattle.std.specs.Prelude.{true, false, nat_le, ◌&&◌, if◌then◌else◌, Some, None, [], ◌∷◌, refl};
    ghost use Rattle.std.proofs.Common.{◌∙◌};
    ghost use Rattle.scanning.specs.Scanner.{RunsOut};
    ghost use Rattle.scanning.proofs.Runs.{runs-step, runs_none};
    ghost use Rattle.examples.specs.declared.scanned.Digits.{Digits};
    ghost use Rattle.examples.specs.declared.scanned.Digits.TheVariants.{Before, Behind};

    ghost first_part = { Before };

    ghost part_after = { λ p b. if (nat_le 48 b && nat_le b 57) then Some Behind else None };

    ghost is_last = { λ p. elim p [ Before ↦ false | Behind ↦ true ] };

    // The lines that lead from the beginning to an end. From every part one more digit does.
    ghost lawful = { RunsOut {P = Digits} (λ p b. if (nat_le 48 b && nat_le b 57) then Some Behind else None) (λ p. elim p [ Before ↦ false | Behind ↦ true ]) Before };

    fn start() -> Digits {
        Digits::Before
    }

    fn next(self, byte: u8) -> Option<Digits> {
        if byte.is_ascii_digit() {
            Some(Digits::Behind)
        } else {
            None
        }
    }

    fn may_end(self) -> bool {
        matches!(self, Digits::Behind)
    }

    ghost laws = { record {
      sound = λ line h. h;
      complete = λ line h. h;
      live = λ p. (48 ∷ [], (Behind, runs-step _ p 48 [] ∙ runs_none _ Behind, refl));
    } };
}

#[test]
fn a_line_breaks_at_its_first_wrong_byte_or_its_end(rt: HostRuntime) {
    for (line, place) in [
        ("4000", None),
        ("40.00", Some(2)),
        ("-4", Some(0)),
        ("", Some(0)),
    ] {
        assert!(rt; break_at::<Digits>(line.as_bytes()) == place);
    }
}

#[test]
fn the_first_blank_is_found(rt: HostRuntime) {
    for (line, place) in [
        ("rent any fee", Some(4)),
        (" rent", Some(0)),
        ("rent", None),
    ] {
        assert!(rt; first_blank(line.as_bytes()) == place);
    }
}

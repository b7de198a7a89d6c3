// The lines of a file, and sections of so many lines.
ghost use Rattle.std.specs.Prelude.{◌≡◌, ℕ, ◌+◌, ◌*◌, ◌-◌, ◌<◌, ◌≤◌, cond, Some, None, List, length, length as length_of, position, IfOk, IfErr, Result, not, Decides};
ghost use Rattle.std.specs.List.{position_or_len};
ghost use Rattle.refusals.specs.declared.Refusal.{Refusal};
ghost use Rattle.refusals.specs.Places.{Breaks};
ghost use Rattle.files.specs.Lines.{feed, length_at, text_at, from_start, judged, Lines};
ghost use Rattle.files.specs.Counts.{Counts, value, Lawful};
ghost use Rattle.files.specs.Model.{other, Near, LineRead, CountRead, with_state};
ghost use Rattle.files.specs.Files.{Section as SectionOf};

pub mod reads;
pub mod shelf;
pub mod tables;

use refusals::{LONGEST_LINE, Refusal};

// What a section's lines are taken into, one by one.
pub trait Section {
    ghost takes: { Self → List ℕ → Self → Result ℕ Refusal → Type 0 };

    // Takes a line, or refuses it; a refusal's place is in the line.
    fn take_line(&mut self, line: &[u8]) -> Result<usize, Refusal>
        ensures answer { takes self.old line.now self.new result }
        ensures near { IfErr result (Near (length line.now)) };
}

// The first line feed.
fn first_feed(bytes: &[u8]) -> Option<usize>
    ensures { result ≡ position feed bytes.now }
{
    bytes.iter().position(|byte| *byte == b'\n')
}

// How many bytes stand before the first line feed.
#[tactic(auto, using(orders::proofs::Parts::first_or_end))]
fn leading(bytes: &[u8]) -> usize
    ensures value { result ≡ position_or_len feed bytes.now }
    ensures within { result ≤ length bytes.now }
{
    first_feed(bytes).unwrap_or(bytes.len())
}

// The line that begins at a place, without its line feed.
fn line_at(file: &[u8], place: usize) -> &[u8]
    requires { place ≤ length file.now }
    ensures value { result.now ≡ text_at file.now place }
    ensures size { length result.now ≡ length_at file.now place }
    ensures within { place + length result.now ≤ length file.now }
{
    let rest = &file[place..];
    &rest[..leading(rest)]
}

// A place in a line that begins at `start`, counted from the file's start.
fn in_file(start: usize, place: usize) -> usize
    requires { start + place < 18446744073709551616 }
    ensures { result ≡ start + place }
{
    start + place
}

// A refusal whose place counts from the file's start, where its line begins at `start`.
fn moved(start: usize, refusal: Refusal) -> Refusal
    requires { (n : ℕ) × Near n refusal × (start + n < 9223372036854775808) }
    ensures { result ≡ from_start start refusal }
{
    match refusal {
        Refusal::Limit { place } => Refusal::Limit {
            place: in_file(start, place),
        },
        Refusal::Grammar { place } => Refusal::Grammar {
            place: in_file(start, place),
        },
        Refusal::Word { place } => Refusal::Word {
            place: in_file(start, place),
        },
        Refusal::Kind { place } => Refusal::Kind {
            place: in_file(start, place),
        },
        _ => refusal,
    }
}

// The first byte that is no digit.
fn first_other(line: &[u8]) -> Option<usize>
    ensures { result ≡ position other line.now }
{
    line.iter().position(|byte| !byte.is_ascii_digit())
}

// How many digits stand first.
#[tactic(auto, using(orders::proofs::Parts::first_or_end))]
fn digits(line: &[u8]) -> usize
    ensures { result ≡ position_or_len other line.now }
{
    first_other(line).unwrap_or(line.len())
}

// Whether the line is a lawful count.
#[tactic(auto, using(crate::proofs::Counting::lawful_so, crate::proofs::Counting::all_or_none))]
fn is_count(line: &[u8]) -> bool
    ensures { Decides result (Lawful line.now) }
{
    !line.is_empty() && line.len() <= 3 && digits(line) == line.len()
}

fn digit_value(byte: u8) -> usize
    ensures value { result ≡ byte - 48 }
    ensures few { result ≤ 255 }
{
    byte.saturating_sub(b'0') as usize
}

// The number that one to three digits write.
fn value_of(line: &[u8]) -> usize
    requires { Lawful line.now }
    ensures { result ≡ value 0 line.now }
{
    match line {
        [a] => digit_value(*a),
        [a, b] => digit_value(*a) * 10 + digit_value(*b),
        [a, b, c] => digit_value(*a) * 100 + digit_value(*b) * 10 + digit_value(*c),
        _ => 0,
    }
}

// The first byte at which a line that is no count goes on as no count does.
fn break_at(line: &[u8]) -> usize
    requires { Lawful line.now → ⊥ }
    ensures breaks { Breaks Lawful line.now result }
    ensures within { result ≤ length line.now }
{
    digits(line).min(3)
}

// A section's count, or the refusal of its line.
fn count(line: &[u8], limit: usize) -> Result<usize, Refusal>
    ensures answer { Counts limit line.now result }
    ensures near { IfErr result (Near (length line.now)) }
{
    if line.len() > LONGEST_LINE {
        return Err(Refusal::Limit { place: 0 });
    }
    if !is_count(line) {
        return Err(Refusal::Grammar {
            place: break_at(line),
        });
    }
    let count = value_of(line);
    if count > limit {
        return Err(Refusal::Limit { place: 0 });
    }
    Ok(count)
}

// A line's outcome and where the next line begins, or the file's refusal.
fn judge(
    file: &[u8],
    place: usize,
    length: usize,
    outcome: Result<usize, Refusal>,
) -> Result<(usize, usize), Refusal>
    requires length { length ≡ length_at file.now place }
    requires within { place + length ≤ length_of file.now }
    requires near { IfErr outcome (Near length) }
    ensures answer { result ≡ judged file.now place outcome }
    ensures within { IfOk result (λ p. p.1 ≤ length_of file.now) }
{
    if place + length < file.len() {
        return match outcome {
            Ok(number) => Ok((number, place + length + 1)),
            Err(refusal) => Err(moved(place, refusal)),
        };
    }
    Err(match outcome {
        Err(Refusal::Limit { place: at }) => Refusal::Limit {
            place: in_file(place, at),
        },
        Err(Refusal::Grammar { place: at }) => Refusal::Grammar {
            place: in_file(place, at),
        },
        _ => Refusal::Grammar { place: file.len() },
    })
}

// Takes the line that begins at a place.
fn take_at<S: Section>(
    section: &mut S,
    file: &[u8],
    place: usize,
) -> Result<(usize, usize), Refusal>
    requires { place ≤ length_of file.now }
    ensures answer { LineRead S.takes file.now place section.old section.new result }
    ensures within { IfOk result (λ p. p.1 ≤ length_of file.now) }
{
    let line = line_at(file, place);
    let outcome = section.take_line(line);
    judge(file, place, line.len(), outcome)
}

// Takes so many lines, from a place on: where the next line begins, or the file's refusal.
fn take_lines<S: Section>(
    section: &mut S,
    file: &[u8],
    count: usize,
    place: usize,
) -> Result<usize, Refusal>
    requires { place ≤ length_of file.now }
    ensures answer { Lines S.takes file.now count place section.old (with_state section.new result) }
    ensures within { IfOk result (λ next. next ≤ length_of file.now) }
{
    let mut at = place;
    for turn in 0..count {
        match take_at(section, file, at) {
            Ok((_, next)) => at = next,
            Err(refusal) => return Err(refusal),
        }
    }
    Ok(at)
}

// The count of the section that begins at a place, and where its lines begin.
fn count_at(file: &[u8], place: usize, limit: usize) -> Result<(usize, usize), Refusal>
    requires { place ≤ length_of file.now }
    ensures answer { CountRead limit file.now place result }
    ensures within { IfOk result (λ p. p.1 ≤ length_of file.now) }
{
    let line = line_at(file, place);
    let outcome = count(line, limit);
    judge(file, place, line.len(), outcome)
}

// Takes the section that begins at a place.
#[tactic(auto, unfolding(crate::specs::Files::Section))]
fn take_section<S: Section>(
    section: &mut S,
    limit: usize,
    file: &[u8],
    place: usize,
) -> Result<usize, Refusal>
    requires { place ≤ length_of file.now }
    ensures answer { SectionOf S.takes limit file.now place section.old (with_state section.new result) }
    ensures within { IfOk result (λ next. next ≤ length_of file.now) }
{
    match count_at(file, place, limit) {
        Ok((count, lines)) => take_lines(section, file, count, lines),
        Err(refusal) => Err(refusal),
    }
}

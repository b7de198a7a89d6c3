// Parts of a line.
ghost use Rattle.std.specs.Prelude.{◌≡◌};
ghost use Rattle.reading.specs.Notes.{part};

// A part of a line, by its first byte and how many bytes it has.
#[derive(Clone, Copy, PartialEq, Eq, Debug)]
pub struct Span {
    pub place: usize,
    pub len: usize,
}

// The bytes of a part, as far as the line has them.
pub fn bytes_of<'a>(line: &'a [u8], span: Span) -> &'a [u8]
    ensures { result.now ≡ part line.now span }
{
    let start = span.place.min(line.len());
    let len = span.len.min(line.len() - start);
    &line[start..start + len]
}

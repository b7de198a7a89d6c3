// The two kinds of a line and the kind that they have in common, or why the line is refused.
ghost use Rattle.std.specs.Prelude.{◌≡◌, Result};
ghost use Rattle.refusals.specs.declared.Refusal.{Refusal};
ghost use Rattle.narrowing.specs.declared.narrow.Narrowed.{Narrowed};
ghost use Rattle.narrowing.specs.Narrowing.{Narrows, ReadsAt};

use crate::line::{PlacedText, split};
use orders::texts::WrittenOrder;
use orders::whole::whole_kind;
use refusals::Refusal;

// Two kinds, and the widest kind at or under both if there is one.
#[derive(Clone, Copy, PartialEq, Eq, Debug)]
pub struct Narrowed<K> {
    pub first: K,
    pub second: K,
    pub common: Option<K>,
}

// Reads the two kinds of a line, its texts with a blank between them, and finds their common kind.
// The rules fix the answer: whatever meets them is this one.
pub fn narrow<O: WrittenOrder>(order: &O, line: &[u8]) -> Result<Narrowed<O::Kind>, Refusal>
    ensures answer { Narrows (O.Order.meaning order.now) (O.texts order.now) line.now result }
    ensures fixed { (s : Result (Narrowed O.Kind) Refusal) → Narrows (O.Order.meaning order.now) (O.texts order.now) line.now s → s ≡ result }
{
    let (first, second) = split(line)?;
    let first = kind_of(order, first)?;
    let second = kind_of(order, second)?;
    let common = order.common(first, second);
    Ok(Narrowed {
        first,
        second,
        common,
    })
}

// The kind that has this text, all of it.
fn kind_of<O: WrittenOrder>(order: &O, placed: PlacedText<'_>) -> Result<O::Kind, Refusal>
    ensures { ReadsAt (O.texts order.now) placed.entry.text.now placed.entry.place result }
{
    whole_kind(order, placed.text).ok_or(Refusal::Kind {
        place: placed.place,
    })
}

// The output line for an input line, without its line feed.
ghost use Rattle.std.specs.Prelude.{◌≡◌, ◌++◌, IfOk, Result, OnOk};
ghost use Rattle.refusals.specs.declared.Refusal.{Refusal};
ghost use Rattle.narrowing.specs.declared.narrow.Narrowed.{Narrowed};
ghost use Rattle.narrowing.specs.Narrowing.{Narrows};
ghost use Rattle.narrowing.specs.Shown.{shown, narrowed_shown};

use crate::narrow::{Narrowed, narrow};
use orders::texts::WrittenOrder;
use showing::{put_kind, put_refusal};
use std::alloc::{AllocError, Global};

// The two kinds of a line and their common kind, or why the line is refused, as a line of text.
pub fn report<O: WrittenOrder>(order: &O, line: &[u8], heap: Global) -> Result<Vec<u8>, AllocError>
    ensures { IfOk result (λ v. (n : Result (Narrowed O.Kind) Refusal) × Narrows (O.Order.meaning order.now) (O.texts order.now) line.now n × (v.items ≡ shown (O.texts order.now) n)) }
{
    let mut text = Vec::new(heap);
    match narrow(order, line) {
        Ok(narrowed) => put_narrowed(order, narrowed, &mut text)?,
        Err(refusal) => put_refusal(refusal, &mut text, heap)?,
    }
    Ok(text)
}

// A function and no `Display`, as its parts are.
fn put_narrowed<O: WrittenOrder>(
    order: &O,
    narrowed: Narrowed<O::Kind>,
    text: &mut Vec<u8>,
) -> Result<(), AllocError>
    ensures { OnOk result (text.new.items ≡ text.old.items ++ narrowed_shown (O.texts order.now) narrowed) }
{
    put_kind(order, narrowed.first, text)?;
    text.extend_from_slice(b" and ")?;
    put_kind(order, narrowed.second, text)?;
    text.extend_from_slice(b": ")?;
    match narrowed.common {
        Some(kind) => put_kind(order, kind, text),
        None => text.extend_from_slice(b"nothing can be both"),
    }
}

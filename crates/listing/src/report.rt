// The text that tells what a line says.
ghost use Rattle.std.specs.Prelude.{◌≡◌, IfOk, vec_items};
ghost use Rattle.features.specs.Model.{feature_names};
ghost use Rattle.listing.specs.Shown.{mark, mark_of, marked_refusal};
ghost use Rattle.listing.specs.Reports.{Reports};

use crate::rows::Listing;
use features::table::Features;
use orders::texts::WrittenOrder;
use refusals::Refusal;
use showing::put_refusal;
use std::alloc::{AllocError, Global};
use terms::term::Term;

// Reads the line into the term, and answers the text of what it says or why it is refused, without a line feed at its end.
pub fn report<K: Copy, O: WrittenOrder<Kind = K>>(
    order: &O,
    features: &Features,
    line: &[u8],
    term: &mut Term<K>,
    heap: Global,
) -> Result<Vec<u8>, AllocError>
    ensures { Reports (O.texts order.now) (feature_names features.now) line.now term.old term.new vec_items result }
{
    match term.read(order, features, line) {
        Ok(()) => Listing { order, features }.said_text(term, heap),
        Err(refusal) => refusal_text(refusal, heap),
    }
}

// A line with a mark under the place.
fn mark_at(place: usize, heap: Global) -> Result<Vec<u8>, AllocError>
    ensures { IfOk result (λ v. v.items ≡ mark place) }
{
    let mut text = vec![in heap; b' '; place]?;
    text.extend_from_slice(b"^\n")?;
    Ok(text)
}

// The line with the mark, where the refusal has a place.
fn mark_of(refusal: Refusal, heap: Global) -> Result<Vec<u8>, AllocError>
    ensures { IfOk result (λ v. v.items ≡ mark_of refusal) }
{
    match refusal {
        Refusal::Limit { place }
        | Refusal::Grammar { place }
        | Refusal::Word { place }
        | Refusal::Kind { place } => mark_at(place, heap),
        _ => Ok(Vec::new(heap)),
    }
}

// The refusal behind its mark.
fn refusal_text(refusal: Refusal, heap: Global) -> Result<Vec<u8>, AllocError>
    ensures { IfOk result (λ v. v.items ≡ marked_refusal refusal) }
{
    let mut text = mark_of(refusal, heap)?;
    put_refusal(refusal, &mut text, heap)?;
    Ok(text)
}

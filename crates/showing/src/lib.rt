// What programs show of a kind and of a refusal, added to a line of text.
//
// `put_kind`      a kind's text, or a question mark
// `put_refusal`   the number of a refusal and the values that it returns
#![tactic(auto)]

ghost use Rattle.std.specs.Prelude.{◌≡◌, ◌++◌, OnOk};
ghost use Rattle.showing.specs.Shown.{kind_shown, refusal_shown};

use orders::texts::WrittenOrder;
use refusals::Refusal;
use std::alloc::{AllocError, Global};

// How many bytes of a kind's text are shown.
pub const LONGEST_KIND: usize = 256;

// Adds the kind's text, or a question mark where it has none or a longer one. No `Display`: the order has the texts, and not the kind.
pub fn put_kind<O: WrittenOrder>(
    order: &O,
    kind: O::Kind,
    text: &mut Vec<u8>,
) -> Result<(), AllocError>
    ensures { OnOk result (text.new.items ≡ text.old.items ++ kind_shown ((O.texts order.now).text kind)) }
{
    // An order writes into lent memory.
    let mut memory = [0; LONGEST_KIND];
    match order.write(kind, &mut memory) {
        // As the trait promises, 0 is the answer where there is no text or no room for it.
        0 => text.extend_from_slice(b"?"),
        count => text.extend_from_slice(&memory[..count]),
    }
}

// Adds the word `refused`, the refusal's number and its values.
pub fn put_refusal(refusal: Refusal, text: &mut Vec<u8>, heap: Global) -> Result<(), AllocError>
    ensures { OnOk result (text.new.items ≡ text.old.items ++ refusal_shown refusal) }
{
    let words = format!(in heap; "refused {refusal}")?;
    text.extend_from_slice(words.as_bytes())
}

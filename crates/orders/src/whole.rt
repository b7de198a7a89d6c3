// A text that is to be a kind's text from its first byte to its last.
ghost use Rattle.orders.specs.Whole.{KindOf};

use crate::texts::WrittenOrder;

// The kind that has this text, all of it; or none where no kind has it.
#[tactic(auto, using(crate::proofs::Wholes::none_read))]
pub fn whole_kind<O: WrittenOrder>(order: &O, text: &[u8]) -> Option<O::Kind>
    ensures { KindOf (O.texts order.now) text.now result }
{
    let (kind, taken) = order.read(text)?;
    (taken == text.len()).then_some(kind)
}

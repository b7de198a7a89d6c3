// The law of codes, as the contract of a function that does nothing.
ghost use Rattle.instructions.specs.Law.{CodesLaw};

use orders::order::Order;

// The code of an entry and the codes of a rule perform the statements of the term one by one, with the same cells, registers and clash;
// an entry never clashes, and the turns that a rule may take are enough.
pub fn codes_law<O: Order>(order: &O)
    ensures { CodesLaw (O.meaning order.now) }
{
    let _ = order;
}

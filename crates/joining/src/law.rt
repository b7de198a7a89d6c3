// The law of joining, as the contract of a function that does nothing.
ghost use Rattle.joining.specs.Law.{JoinLaw};

use orders::order::Order;

// In a heap in order, joining two cells adds what follows from their being one, and nothing else; a clash says that they are one in no
// structure of things of the type T. The pairs that a join may take are enough, and so is the room for them.
pub fn join_law<O: Order, T>(order: &O)
    ensures { JoinLaw T (O.meaning order.now) }
{
    let _ = order;
}

// The law of a run, as the contract of a function that does nothing.
ghost use Rattle.osf.specs.Law.{LawOfRuns};
ghost use Rattle.osf.specs.Memory.{MemoryOfRuns};

use orders::order::Order;

// After any calls on a case from its opening on, whatever was refused among them, and in every type T of things: a match clashes at a
// statement exactly when what stands has no interpretation together with the rule's statements up to this one, but has one together
// with those before it; the case is an interpretation of all that stands, from which the questions are answered; and it is the most
// general one. No bound in the definitions is ever met, and what no call speaks of stays.
pub fn law_of_runs<O: Order, T>(order: &O)
    ensures law { LawOfRuns (O.meaning order.now) T }
    ensures memory { MemoryOfRuns (O.meaning order.now) }
{
    let _ = order;
}

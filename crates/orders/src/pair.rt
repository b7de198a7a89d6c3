// Two orders as one: a kind is a kind of each, and the parts are compared one by one.
ghost use Rattle.orders.specs.Pairs.{paired, pair_texts};

use crate::order::Order;
use crate::texts::WrittenOrder;

#[derive(Clone, Copy, PartialEq, Eq, Debug)]
pub struct Pair<A, B> {
    pub first: A,
    pub second: B,
}

// A kind of a pair of orders. A public type that callers name, and by which a kind and an order are told apart.
#[derive(Clone, Copy, PartialEq, Eq, Debug)]
pub struct Both<A, B> {
    pub first: A,
    pub second: B,
}

impl<A: Order, B: Order> Order for Pair<A, B> {
    type Kind = Both<A::Kind, B::Kind>;

    ghost meaning = { λ p. paired (A.Order.meaning p.first) (B.Order.meaning p.second) };

    fn widest(&self) -> Both<A::Kind, B::Kind> {
        Both {
            first: self.first.widest(),
            second: self.second.widest(),
        }
    }

    fn common(
        &self,
        a: Both<A::Kind, B::Kind>,
        b: Both<A::Kind, B::Kind>,
    ) -> Option<Both<A::Kind, B::Kind>> {
        let first = self.first.common(a.first, b.first)?;
        let second = self.second.common(a.second, b.second)?;
        Some(Both { first, second })
    }
}

// A pair's text is the first text, a solidus and the second text.
impl<A: WrittenOrder, B: WrittenOrder> WrittenOrder for Pair<A, B> {
    ghost texts = { λ p. pair_texts (A.WrittenOrder.texts p.first) (B.WrittenOrder.texts p.second) };

    fn read(&self, bytes: &[u8]) -> Option<(Both<A::Kind, B::Kind>, usize)> {
        let (first, taken) = self.first.read(bytes)?;
        let rest = bytes[taken..].strip_prefix(b"/")?;
        let (second, more) = self.second.read(rest)?;
        Some((Both { first, second }, taken + 1 + more))
    }

    // As the trait promises, no text or no room is the answer 0 and no error.
    fn write(&self, kind: Both<A::Kind, B::Kind>, memory: &mut [u8]) -> usize {
        let first = self.first.write(kind.first, memory);
        if first == 0 || first >= memory.len() {
            return 0;
        }
        memory[first] = b'/';
        let second = self.second.write(kind.second, &mut memory[first + 1..]);
        if second == 0 {
            return 0;
        }
        first + 1 + second
    }
}

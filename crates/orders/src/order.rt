// An order of kinds, by its meaning: the relation "at or under", the widest kind and the common kind, under five rules.
ghost use Rattle.std.specs.Prelude.{◌≡◌, Option};
ghost use Rattle.orders.specs.Meaning.{Meaning, IsCommon};

pub trait Order {
    type Kind: Copy;

    ghost meaning: { Self → Meaning Self.Kind };

    // The kind that every kind is at or under.
    fn widest(&self) -> Self::Kind
        ensures { result ≡ (meaning self.now).widest };

    // The widest kind at or under both, or none where no kind is at or under both.
    fn common(&self, a: Self::Kind, b: Self::Kind) -> Option<Self::Kind>
        ensures { result ≡ (meaning self.now).common a b };
}

// The common kind. The rules fix it: whatever answer meets them is this one.
pub fn common_kind<O: Order>(order: &O, a: O::Kind, b: O::Kind) -> Option<O::Kind>
    ensures answer { IsCommon (O.meaning order.now).under a b result }
    ensures fixed { (o : Option O.Kind) → IsCommon (O.meaning order.now).under a b o → o ≡ result }
{
    order.common(a, b)
}

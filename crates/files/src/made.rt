// The orders that a file's list of kinds is made into.
ghost use Rattle.std.specs.Prelude.{◌≡◌};
ghost use Rattle.kinds.specs.Lists.{Closing};

use bands::order::Bands;
use kinds::list::List;
use orders::pair::Pair;
use orders::texts::WrittenOrder;

// A written order that is made of a closed list of kinds.
pub trait OfList: WrittenOrder {
    ghost made: { Closing → Self };

    fn of_list(list: List) -> Self
        ensures { result ≡ made list };
}

// The list alone.
impl OfList for List {
    ghost made = { λ l. l };

    fn of_list(list: List) -> List {
        list
    }
}

// The list, and bands of amounts beside it.
impl OfList for Pair<List, Bands> {
    ghost made = { λ l. record { first = l; second = record {} } };

    fn of_list(list: List) -> Pair<List, Bands> {
        Pair {
            first: list,
            second: Bands,
        }
    }
}

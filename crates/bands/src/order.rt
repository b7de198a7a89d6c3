// The order of the bands: the widest, and the band that two have in common.
ghost use Rattle.std.specs.Prelude.{◌≡◌};
ghost use Rattle.bands.specs.Bands.{meet as meeting};
ghost use Rattle.bands.specs.Order.{bands};

use crate::band::*;
use orders::order::Order;

#[derive(Clone, Copy)]
pub struct Bands;

impl Order for Bands {
    type Kind = Band;

    ghost meaning = { λ _. bands };

    fn widest(&self) -> Band {
        WIDEST
    }

    #[tactic(auto, using(crate::proofs::Common::common_cases))]
    fn common(&self, a: Band, b: Band) -> Option<Band> {
        if a == b || b == WIDEST {
            return Some(a);
        }
        if a == WIDEST {
            return Some(b);
        }
        if !a.is_band() || !b.is_band() {
            return None;
        }
        meet(a, b)
    }
}

// From the greater lowest to the lesser highest, if they meet.
fn meet(a: Band, b: Band) -> Option<Band>
    ensures { result ≡ meeting a b }
{
    let low = a.low.max(b.low);
    let high = a.high.min(b.high);
    // Not `(low <= high).then_some(..)`: no tactic proves that without an answer by hand, and this is proved with none.
    if low <= high {
        Some(Band { low, high })
    } else {
        None
    }
}

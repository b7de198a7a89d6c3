// What the programs read lines with.
//
// `amounts`   the order of their kinds: the shipped list and bands of amounts
// `features`  the features that their lines may use
#![tactic(auto)]

ghost use Rattle.std.specs.Prelude.{◌≡◌, map};
ghost use Rattle.kinds.specs.Lists.{listing};
ghost use Rattle.kinds.specs.Shipped.{shipped as shipped_kinds};
ghost use Rattle.features.specs.Model.{feature_names};
ghost use Rattle.settings.specs.Words.{words};

use bands::order::Bands;
use features::table::Features;
use kinds::list::List;
use kinds::list::shipped::shipped;
use orders::pair::Pair;

// The names of the features.
const WORDS: [&[u8]; 7] = [b"paid", b"back", b"for", b"next", b"a", b"b", b"f"];

// The order that the kinds are of: the shipped list and bands of amounts.
pub fn amounts() -> Pair<List, Bands>
    ensures { listing result.first ≡ shipped_kinds }
{
    Pair {
        first: shipped(),
        second: Bands,
    }
}

// The features that lines may use.
pub fn features() -> Features
    ensures { feature_names result ≡ words }
{
    declared(&WORDS)
}

// These words as features. None of them is refused.
fn declared(names: &[&[u8]]) -> Features
    requires { map (λ name. name.now) names.now ≡ words }
    ensures { feature_names result ≡ words }
{
    let mut features = Features::new();
    for name in names {
        features.declare(name).unwrap();
    }
    features
}

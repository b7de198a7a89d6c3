// Features by their names.
ghost use Rattle.std.specs.Prelude.{◌≡◌, ℕ, ◌<◌, ◌≤◌, [], length, Some};
ghost use Rattle.features.specs.Model.{feature_names, first_named, number_of, NameAt};

use crate::table::Features;
use declarations::name::Name;
use declarations::name::methods::BLANK;
use short_lists::ShortList;

impl Features {
    // No feature yet.
    pub fn new() -> Features
        ensures { feature_names result ≡ [] }
    {
        Features {
            names: ShortList::empty(BLANK),
        }
    }

    // How many are declared.
    pub fn len(&self) -> usize
        ensures answer { result ≡ length (feature_names self.now) }
        ensures few { result ≤ 16 }
    {
        self.names.len()
    }

    // The number of a feature, or none where it is not declared.
    #[tactic(auto, using(crate::proofs::Held::number_found))]
    pub fn find(&self, word: &[u8]) -> Option<usize>
        ensures answer { result ≡ number_of word.now (feature_names self.now) }
        ensures few { (n : ℕ) → result ≡ Some n → n < 16 }
    {
        first_named(self.names.as_slice(), word)
    }

    // The name of a feature, or none where there is no such number.
    pub fn name(&self, feature: usize) -> Option<Name>
        ensures { NameAt (feature_names self.now) feature result }
    {
        self.names.as_slice().get(feature).copied()
    }
}

// The first of the names that is this word. One line of the library: a trait for what has a name would be longer than its uses.
#[tactic(auto, unfolding(crate::specs::Model::first_named))]
fn first_named(names: &[Name], word: &[u8]) -> Option<usize>
    ensures answer { result ≡ first_named word.now names.now }
    ensures within { (n : ℕ) → result ≡ Some n → n < length names.now }
{
    names.iter().position(|name| name.is(word))
}

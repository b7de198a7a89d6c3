// Names from words, and words against names.
ghost use Rattle.std.specs.Prelude.{◌≡◌, Decides};
ghost use Rattle.std.specs.Str.{bytes_eq};
ghost use Rattle.declarations.specs.Held.{name_bytes, Holds};

use super::{LONGEST_NAME, Name};
use short_lists::ShortList;

// A name of no bytes, which no kind has.
pub const BLANK: Name = Name {
    text: ShortList {
        room: [0; LONGEST_NAME],
        len: 0,
    },
};

impl Name {
    // A word as a name, or none where it has over 24 bytes. No `TryFrom`: an error type would say no more than none.
    pub fn new(word: &[u8]) -> Option<Name>
        ensures { Holds word.now result }
    {
        let text = ShortList::of(word, 0)?;
        Some(Name { text })
    }

    pub fn as_slice(&self) -> &[u8]
        ensures { result.now ≡ name_bytes self.now }
    {
        self.text.as_slice()
    }

    // Whether a word is this name. No derived `==`: that would compare names alone, and the unused room with them.
    pub fn is(&self, word: &[u8]) -> bool
        ensures answer { result ≡ bytes_eq word.now (name_bytes self.now) }
        ensures decides { Decides result (name_bytes self.now ≡ word.now) }
    {
        word == self.as_slice()
    }
}

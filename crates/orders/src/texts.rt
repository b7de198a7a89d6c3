// Orders whose kinds have texts, and what reading and writing a text comes down to.
ghost use Rattle.std.specs.Prelude.{◌≡◌, ℕ, List, ◌++◌, length, position, Some};
ghost use Rattle.orders.specs.Texts.{Texts, Stops, Stopped, Taken, Writes, text_byte};
ghost use Rattle.orders.specs.Texts.{stops as stopping};

use crate::order::Order;

pub trait WrittenOrder: Order {
    ghost texts: { Self → Texts Self.Kind };

    // The kind whose text stands first, up to where texts stop, and the bytes taken; or none.
    fn read(&self, bytes: &[u8]) -> Option<(Self::Kind, usize)>
        ensures read_back { (k : Self.Kind) (t rest : List ℕ) → (texts self.now).text k ≡ Some t → Stops rest → bytes.now ≡ t ++ rest → result ≡ Some (k, length t) }
        ensures taken { Taken (texts self.now) bytes.now result };

    // Puts the kind's text first into the memory and answers its bytes; or 0 where the text does not fit or there is none.
    fn write(&self, kind: Self::Kind, memory: &mut [u8]) -> usize
        ensures { Writes ((texts self.now).text kind) memory.old memory.new result };
}

// Whether no text of a single part goes on over this byte: a solidus, or a byte outside texts.
pub fn is_stop(byte: u8) -> bool
    ensures { result ≡ stopping byte }
{
    !matches!(byte, b'a'..=b'z' | b'0'..=b'9' | b'_' | b'-' | b'.')
}

// A byte that texts have: one that the text of a single part has, or a solidus.
pub fn is_text_byte(byte: u8) -> bool
    ensures { result ≡ text_byte byte }
{
    !is_stop(byte) || byte == b'/'
}

// Where the part that stands first ends: the first stop, or the end.
#[tactic(auto, using(crate::proofs::Parts::stopped))]
pub fn stop(bytes: &[u8]) -> usize
    ensures { Stopped bytes.now result }
{
    first_stop(bytes).unwrap_or(bytes.len())
}

// The first byte at which texts stop. It stands alone, since what a chain answers is proved where the chain ends a function.
fn first_stop(bytes: &[u8]) -> Option<usize>
    ensures { result ≡ position stopping bytes.now }
{
    bytes.iter().position(|byte| is_stop(*byte))
}

// Puts a text first into the memory and answers its bytes, or 0 where it does not fit.
// As `write` of the trait above promises, no room is the answer 0 and no error.
pub fn put(text: &[u8], memory: &mut [u8]) -> usize
    ensures { Writes (Some text.now) memory.old memory.new result }
{
    if text.len() > memory.len() {
        return 0;
    }
    memory[..text.len()].copy_from_slice(text);
    text.len()
}

// The texts of a list's kinds: their names.
ghost use Rattle.orders.specs.Texts.{Back, Taken, Writes};
ghost use Rattle.kinds.specs.Lists.{list_texts, listing};
ghost use Rattle.declarations.specs.Declarations.{name_text};

use super::List;
use orders::texts::{WrittenOrder, put, stop};

impl WrittenOrder for List {
    ghost texts = { λ l. list_texts l };

    fn read(&self, bytes: &[u8]) -> Option<(usize, usize)> {
        read_name(self, bytes)
    }

    fn write(&self, kind: usize, memory: &mut [u8]) -> usize {
        write_name(self, kind, memory)
    }
}

// The kind whose name stands before the first stop, and the bytes taken.
fn read_name(list: &List, bytes: &[u8]) -> Option<(usize, usize)>
    ensures read_back { Back (list_texts list.now) bytes.now result }
    ensures taken { Taken (list_texts list.now) bytes.now result }
{
    let end = stop(bytes);
    let kind = list.table.find(&bytes[..end])?;
    Some((kind, end))
}

// Puts the name of a kind first into the memory. 0 for a number that no kind has is what the trait asks.
fn write_name(list: &List, kind: usize, memory: &mut [u8]) -> usize
    ensures { Writes (name_text (listing list.now) kind) memory.old memory.new result }
{
    match list.table.kinds.as_slice().get(kind) {
        Some(kind) => put(kind.name.as_slice(), memory),
        None => 0,
    }
}

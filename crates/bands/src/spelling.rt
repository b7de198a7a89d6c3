// Writing the text of a band, in memory of fixed size.
ghost use Rattle.std.specs.Prelude.{◌≤◌, ◌∷◌, ◌++◌, length, Some};
ghost use Rattle.bands.specs.Texts.{text as text_of};
ghost use Rattle.orders.specs.Texts.{Writes};

use crate::band::Band;
use itoa::Buffer;

// Puts two numbers with two points between first into the memory and answers their bytes, or 0 where they do not fit.
// Not by `write!`, whose contract does not say that it succeeds where there is room; nor in a string of its own, which would be copied once more.
fn put_ends(low: &[u8], high: &[u8], memory: &mut [u8]) -> usize
    requires { (length low.now ≤ 20) × (length high.now ≤ 20) }
    ensures { Writes (Some (low.now ++ 46 ∷ 46 ∷ high.now)) memory.old memory.new result }
{
    let points = low.len();
    let rest = points + 2;
    let len = rest + high.len();
    if len > memory.len() {
        return 0;
    }
    memory[..points].copy_from_slice(low);
    memory[points] = b'.';
    memory[points + 1] = b'.';
    memory[rest..len].copy_from_slice(high);
    len
}

// Puts the text of a band first into the memory and answers its bytes; or, as `write` of an order promises, 0 where it does not
// fit, or these are no band.
pub fn write_band(band: Band, memory: &mut [u8]) -> usize
    ensures { Writes (text_of band) memory.old memory.new result }
{
    if !band.is_band() {
        return 0;
    }
    let (mut lowest, mut highest) = (Buffer::new(), Buffer::new());
    let low = lowest.format(band.low).as_bytes();
    let high = highest.format(band.high).as_bytes();
    put_ends(low, high, memory)
}

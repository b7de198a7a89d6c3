// Reading a band: an amount, and the band whose text stands first.
ghost use Rattle.std.specs.Prelude.{◌≡◌};
ghost use Rattle.orders.specs.Texts.{Back, Taken};
ghost use Rattle.bands.specs.Letters.{texts};
ghost use Rattle.bands.specs.Texts.{ReadsText, ReadsNumber, plain};

use crate::band::Band;
use orders::texts::stop;
use std::str;

// Whether a text stands as numbers are written: with no sign but a minus, and with no zero in front but that of 0 itself.
#[tactic(auto, unfolding(crate::specs::Texts::plain))]
fn is_plain(text: &[u8]) -> bool
    ensures { result ≡ plain text.now }
{
    let first = text.first().copied().unwrap_or(0);
    let second = text.get(1).copied().unwrap_or(0);
    let leading = if first == b'-' { second } else { first };
    (text.len() == 1 && first == b'0') || matches!(leading, b'1'..=b'9')
}

// The amount whose text this is. The text is tested before it is parsed: writing the amount again, to compare, takes longer.
#[tactic(auto, using(crate::proofs::Numbers::amount_cases))]
fn amount(text: &str) -> Option<i64>
    ensures { ReadsNumber text.now result }
{
    if !is_plain(text.as_bytes()) {
        return None;
    }
    text.parse().ok()
}

// The band whose text this is.
#[tactic(auto, using(crate::proofs::Points::no_points))]
fn parsed(text: &str) -> Option<Band>
    ensures { ReadsText text.now result }
{
    let (low, high) = text.split_once("..")?;
    let band = Band {
        low: amount(low)?,
        high: amount(high)?,
    };
    band.is_band().then_some(band)
}

// The band whose text these bytes are.
#[tactic(auto, using(crate::proofs::Stopped::no_text))]
fn band_of(bytes: &[u8]) -> Option<Band>
    ensures { ReadsText bytes.now result }
{
    parsed(str::from_utf8(bytes).ok()?)
}

// The band whose text stands first, up to where texts stop, and the bytes taken.
#[tactic(auto, using(crate::proofs::Stopped::read_cases))]
pub fn read_band(bytes: &[u8]) -> Option<(Band, usize)>
    ensures read_back { Back texts bytes.now result }
    ensures taken { Taken texts bytes.now result }
{
    let end = stop(bytes);
    Some((band_of(&bytes[..end])?, end))
}

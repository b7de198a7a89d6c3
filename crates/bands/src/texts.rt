// The texts of the bands: the lowest amount, two points, the highest, as in `-4000..-1`.
ghost use Rattle.bands.specs.Letters.{texts as written_texts};

use crate::band::Band;
use crate::order::*;
use crate::reading::read_band;
use crate::spelling::write_band;
use orders::texts::WrittenOrder;

impl WrittenOrder for Bands {
    ghost texts = { λ _. written_texts };

    fn read(&self, bytes: &[u8]) -> Option<(Band, usize)> {
        read_band(bytes)
    }

    fn write(&self, kind: Band, memory: &mut [u8]) -> usize {
        write_band(kind, memory)
    }
}

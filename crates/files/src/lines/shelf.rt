// Terms as a section of a file: each line is read into the next one.
ghost use Rattle.std.specs.Prelude.{◌≡◌, length};
ghost use Rattle.files.specs.Shelves.{Takes};

use super::Section;
use features::table::Features;
use orders::texts::WrittenOrder;
use refusals::Refusal;
use std::vec::Vec;
use terms::term::Term;

// Terms to be read into, the first `filled` of which have been.
#[derive(Drop)]
pub struct Shelf<'a, K, O> {
    pub order: &'a O,
    pub features: &'a Features,
    pub terms: Vec<Term<K>>,
    pub filled: usize,
}

impl<K: Copy, O: WrittenOrder<Kind = K>> Section for Shelf<'_, K, O> {
    ghost takes = { λ s line t r. Takes (O.texts s.order.now) s line t r };

    fn take_line(&mut self, line: &[u8]) -> Result<usize, Refusal> {
        let number = self.filled;
        let Some(term) = self.terms.get_mut(number) else {
            return Err(Refusal::Limit { place: 0 });
        };
        match term.read(self.order, self.features, line) {
            Ok(()) => {
                self.filled = number + 1;
                Ok(number)
            }
            Err(refusal) => Err(refusal),
        }
    }
}

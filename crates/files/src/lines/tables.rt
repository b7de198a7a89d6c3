// Kinds and features as sections of a file: each line declares one.
ghost use Rattle.std.specs.Prelude.{◌≡◌};
ghost use Rattle.declarations.specs.Lines as kind_lines;
ghost use Rattle.features.specs.Lines as feature_lines;
ghost use Rattle.features.specs.Model.{feature_names};
ghost use Rattle.kinds.specs.Lists.{drafted};

use super::Section;
use features::table::Features;
use kinds::draft::Draft;
use refusals::Refusal;

impl Section for Draft {
    ghost takes = { λ d line e r. kind_lines.Declares 64 (drafted d) line (drafted e) r };

    #[tactic(auto, using(crate::proofs::Near::kind_near))]
    fn take_line(&mut self, line: &[u8]) -> Result<usize, Refusal> {
        self.declare(line)
    }
}

impl Section for Features {
    ghost takes = { λ f line g r. feature_lines.Declares (feature_names f) line (feature_names g) r };

    #[tactic(auto, using(crate::proofs::Near::feature_near))]
    fn take_line(&mut self, line: &[u8]) -> Result<usize, Refusal> {
        self.declare(line)
    }
}

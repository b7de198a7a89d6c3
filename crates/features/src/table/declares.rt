// Declaring a feature.
ghost use Rattle.std.specs.Prelude.{◌≡◌, ◌==◌, ◌||◌, ℕ, cond, true, List, length, is_err, is_some, nat_lt, Ok, Err, Result};
ghost use Rattle.refusals.specs.declared.Refusal.{Refusal};
ghost use Rattle.refusals.specs.declared.Refusal.TheVariants.{Grammar, Word};
ghost use Rattle.features.specs.Model.{feature_names, ReadsLine};
ghost use Rattle.features.specs.Lines.{Declares};

use crate::table::Features;
use declarations::line::name_end;
use declarations::name::Name;
use refusals::{LONGEST_LINE, Refusal};

impl Features {
    // Declares the feature of a line, and answers its number. The rules fix the answer: whatever meets them is this one.
    #[tactic(auto, using(crate::proofs::Declaring::one_outcome))]
    pub fn declare(&mut self, line: &[u8]) -> Result<usize, Refusal>
        ensures answer { Declares (feature_names self.old) line.now (feature_names self.new) result }
        ensures kept { is_err result ≡ true → self.new ≡ self.old }
        ensures fixed { (s : Result ℕ Refusal) (after : List (List ℕ)) → Declares (feature_names self.old) line.now after s → s ≡ result }
    {
        self.declare_line(line)
    }

    // Reads the line and adds the feature that it declares.
    fn declare_line(&mut self, line: &[u8]) -> Result<usize, Refusal>
        ensures answer { Declares (feature_names self.old) line.now (feature_names self.new) result }
        ensures kept { is_err result ≡ true → self.new ≡ self.old }
    {
        let name = self.read(line)?;
        self.names.push(name).ok_or(Refusal::Limit { place: 0 })
    }

    // The name that a line declares.
    #[tactic(auto, using(crate::proofs::Declaring::refuses_long, crate::proofs::Declaring::refuses_grammar, crate::proofs::Declaring::refuses_full, crate::proofs::Declaring::refuses_known, crate::proofs::Declaring::line_accepted, crate::proofs::Declaring::name_is))]
    fn read(&self, line: &[u8]) -> Result<Name, Refusal>
        ensures { ReadsLine (feature_names self.now) line.now result }
    {
        if line.len() > LONGEST_LINE {
            return Err(Refusal::Limit { place: 0 });
        }
        // The name at the front, as kinds have it: the end is tested next, and in another way there.
        let end = name_end(line);
        let Some(name) = Name::new(&line[..end]) else {
            return Err(Refusal::Limit { place: 0 });
        };
        if let Err(refusal) = whole(end, line) {
            return Err(refusal);
        }
        if self.names.is_full() {
            return Err(Refusal::Limit { place: 0 });
        }
        unless_known(self.find(line), name)
    }
}

// That a word of so many bytes is the whole line, and has a byte; or the refusal of the byte at which the line goes on otherwise.
fn whole(end: usize, line: &[u8]) -> Result<(), Refusal>
    ensures { result ≡ cond (end == 0 || nat_lt end (length line.now)) (Err (Grammar end)) (Ok tt) }
{
    if end == 0 || end < line.len() {
        return Err(Refusal::Grammar { place: end });
    }
    Ok(())
}

// The name, or the refusal of one that is declared already.
fn unless_known(found: Option<usize>, name: Name) -> Result<Name, Refusal>
    ensures { result ≡ cond (is_some found) (Err (Word 0)) (Ok name) }
{
    match found {
        Some(_) => Err(Refusal::Word { place: 0 }),
        None => Ok(name),
    }
}

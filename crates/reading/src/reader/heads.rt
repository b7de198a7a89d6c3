// The parts of a term: its front, its kind text, what follows an item, a feature with its arrow.
ghost use Rattle.std.specs.Prelude.{◌≡◌, ℕ, suc, ◌+◌, ◌<◌, ◌≤◌, true, false, length, Some, nat_le, slice_index};
ghost use Rattle.grammar.specs.Scanner.{here, state, begin, comma, in_feature};
ghost use Rattle.declarations.specs.Names.{name_byte};
ghost use Rattle.grammar.specs.Words.{capital};
ghost use Rattle.reading.specs.Links.{links};
ghost use Rattle.reading.specs.Notes.{noted, variables, statements};
ghost use Rattle.reading.specs.Reading.{Ended, AtKind, HeadRead, BodyRead, ClosingRead, ArrowRead, FeatureRead};

use crate::notes::Notes;
use crate::reader::{Body, Class, Closing, Head, Link, Mark, Reader, Token, is_capital};
use declarations::line::is_letter;
use orders::texts::is_text_byte;
use refusals::Refusal;

pub mod trees;

// How many parentheses may be open.
const OPEN: usize = 16;

// Whether no more parentheses may be opened where so many are open.
fn is_deepest(depth: usize) -> bool
    ensures { result ≡ nat_le 16 depth }
{
    depth >= OPEN
}

// Notes are lent beside the reader: as a part of it, each step would have to promise that the line stays. Places are plain
// numbers within the line: a type for them would be taken apart at each step for the place that a token or a refusal keeps.
impl<'a, 'f> Reader<'a, 'f> {
    // A name and, where a colon follows, the colon.
    fn named(&self, notes: &mut Notes, from: Option<Link>, at: usize) -> Result<Head, Refusal>
        requires { (at < length self.now.line.now) × ((capital (slice_index self.now.line.now at) ≡ true) × ((variables notes.old < 200) × (statements notes.old + links from < 400))) }
        ensures answer { (d : ℕ) → here self.now.line.now at ≡ Some (state begin d) → HeadRead self.now.line.now from at d (noted self.now.line.now notes.old) (noted self.now.line.now notes.new) result }
        ensures counts { (variables notes.new ≤ variables notes.old + 1) × (statements notes.new ≤ statements notes.old + links from) }
    {
        let name = self.short_word(Class::Name, at)?;
        let end = at + name.text.len();
        let found = notes.meet(self.line, name.span());
        notes.say_link(from, found.variable);
        match self.mark(end) {
            Mark::Colon => {
                notes.describe(found, at);
                Ok(Head::Described {
                    variable: found.variable,
                    at: end + 1,
                })
            }
            _ => Ok(Head::Bare { end }),
        }
    }

    // The front of a term, with its variable and the statement that leads to it.
    fn head(&self, notes: &mut Notes, from: Option<Link>, at: usize) -> Result<Head, Refusal>
        requires { (at ≤ length self.now.line.now) × ((at < length self.now.line.now → (variables notes.old < 200) × (statements notes.old + links from < 400))) }
        ensures answer { (d : ℕ) → here self.now.line.now at ≡ Some (state begin d) → HeadRead self.now.line.now from at d (noted self.now.line.now notes.old) (noted self.now.line.now notes.new) result }
        ensures counts { (variables notes.new ≤ variables notes.old + 1) × (statements notes.new ≤ statements notes.old + links from) }
    {
        let Some(byte) = self.byte(at) else {
            return Err(Refusal::Grammar { place: at });
        };
        if is_capital(byte) {
            return self.named(notes, from, at);
        }
        if !is_text_byte(byte) {
            return Err(Refusal::Grammar { place: at });
        }
        let variable = notes.meet_unnamed();
        notes.say_link(from, variable);
        Ok(Head::Described { variable, at })
    }

    // The kind text of a description, with its statement.
    fn body(
        &self,
        notes: &mut Notes,
        variable: usize,
        at: usize,
        depth: usize,
    ) -> Result<Body, Refusal>
        requires { (at ≤ length self.now.line.now) × (statements notes.old < 399) }
        ensures answer { AtKind self.now.line.now at depth → BodyRead self.now.line.now variable at depth (noted self.now.line.now notes.old) (noted self.now.line.now notes.new) result }
        ensures counts { (variables notes.new ≡ variables notes.old) × (statements notes.new ≤ statements notes.old + 1) }
    {
        let text = self.word(Class::Kind, at);
        if text.text.is_empty() {
            return Err(Refusal::Grammar { place: at });
        }
        let end = at + text.text.len();
        notes.say_kind(variable, text);
        match self.mark(end) {
            Mark::Open => {
                if is_deepest(depth) {
                    return Err(Refusal::Limit { place: 0 });
                }
                Ok(Body::Opens { at: end })
            }
            _ => Ok(Body::Ends { end }),
        }
    }

    // What follows an item.
    fn after_item(&self, at: usize) -> Result<Closing, Refusal>
        requires { at ≤ length self.now.line.now }
        ensures { (d : ℕ) → Ended self.now.line.now at (suc d) → ClosingRead self.now.line.now at d result }
    {
        match self.mark(at) {
            Mark::Comma => Ok(Closing::More),
            Mark::Close => Ok(Closing::Done),
            _ => Err(Refusal::Grammar { place: at }),
        }
    }

    // The arrow after a feature.
    fn arrow(&self, at: usize) -> Result<(), Refusal>
        requires { at ≤ length self.now.line.now }
        ensures { (n d : ℕ) → here self.now.line.now at ≡ Some (state (in_feature n) d) → (at < length self.now.line.now → name_byte (slice_index self.now.line.now at) ≡ false) → ArrowRead self.now.line.now at d result }
    {
        match self.mark(at) {
            Mark::Equals => match self.mark(at + 1) {
                Mark::Greater => Ok(()),
                _ => Err(Refusal::Grammar { place: at + 1 }),
            },
            _ => Err(Refusal::Grammar { place: at }),
        }
    }

    // A feature and its arrow.
    fn feature(&self, at: usize) -> Result<Token<'a>, Refusal>
        requires { at ≤ length self.now.line.now }
        ensures { (d : ℕ) → here self.now.line.now at ≡ Some (state comma d) → FeatureRead self.now.line.now at d result }
    {
        let Some(byte) = self.byte(at) else {
            return Err(Refusal::Grammar { place: at });
        };
        if !is_letter(byte) {
            return Err(Refusal::Grammar { place: at });
        }
        let word = self.short_word(Class::Feature, at)?;
        self.arrow(at + word.text.len())?;
        Ok(word)
    }
}

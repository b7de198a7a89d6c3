// Terms and their lists, which call each other.
ghost use Rattle.std.specs.Prelude.{◌≡◌, ℕ, suc, ◌+◌, ◌<◌, ◌≤◌, true, false, List, length, set, Some, nat_lt, slice_index_or};
ghost use Rattle.features.specs.Model.{feature_names};
ghost use Rattle.grammar.specs.Scanner.{here, state, begin, comma};
ghost use Rattle.grammar.specs.Told.{nothing};
ghost use Rattle.reading.specs.Reading.{Seen, LooksUp, RoomAt, RoomAfter, TermRead, ListRead, RootRead, NotesOf, NotesIn};
ghost use Rattle.reading.specs.Notes.{noted};

use crate::notes::Notes;
use crate::reader::{Body, Closing, Head, Link, Reader};
use features::table::{Features, MOST};
use refusals::{LONGEST_LINE, Refusal};

// A feature in its list: its number, which is the length where it is unknown, stands in the statement also where it is wrong.
#[derive(Clone, Copy)]
struct Looked {
    feature: usize,
    wrong: bool,
    // a mark for each feature that there may be, by its number: an array without a length beside
    seen: [bool; MOST],
}

impl Looked {
    // A feature of this number, wrong where it is marked already, and marked with the others.
    fn known(feature: usize, seen: [bool; MOST]) -> Looked
        requires { feature < length seen }
        ensures { result ≡ record { feature = feature; wrong = slice_index_or seen feature false; seen = set seen feature true } }
    {
        let mut after = seen;
        after[feature] = true;
        Looked {
            feature,
            wrong: seen[feature],
            seen: after,
        }
    }

    // A word that is no feature.
    fn unknown(count: usize, seen: [bool; MOST]) -> Looked
        ensures { result ≡ record { feature = count; wrong = true; seen = seen } }
    {
        Looked {
            feature: count,
            wrong: true,
            seen,
        }
    }
}

// The number of a feature, whether it is unknown or stands in the list already, and the marks with it.
fn look_up(features: &Features, word: &[u8], seen: [bool; MOST]) -> Looked
    ensures { (words : List (List ℕ)) → Seen (feature_names features.now) words seen → LooksUp (feature_names features.now) words word.now result }
{
    match features.find(word) {
        Some(feature) => Looked::known(feature, seen),
        None => Looked::unknown(features.len(), seen),
    }
}

impl<'a, 'f> Reader<'a, 'f> {
    // A term that begins here, under so many open parentheses, and where it ends.
    #[cycle(list_term)]
    fn term(
        &self,
        notes: &mut Notes,
        from: Option<Link>,
        at: usize,
        depth: usize,
    ) -> Result<usize, Refusal>
        requires { (at ≤ length self.now.line.now) × ((here self.now.line.now at ≡ Some (state begin depth)) × ((RoomAt at from notes.old) × (depth ≤ 16))) }
        ensures { TermRead (feature_names self.now.features.now) self.now.line.now from at depth notes.old notes.new result }
    {
        let head = self.head(notes, from, at)?;
        match head {
            Head::Bare { end } => Ok(end),
            Head::Described { variable, at: kind } => {
                let body = self.body(notes, variable, kind, depth)?;
                match body {
                    Body::Ends { end } => Ok(end),
                    Body::Opens { at: list } => {
                        self.list(notes, variable, [false; MOST], list, depth)
                    }
                }
            }
        }
    }

    // The items of a variable from the parenthesis or the comma here, and where their list ends.
    #[cycle(list_term)]
    fn list(
        &self,
        notes: &mut Notes,
        variable: usize,
        seen: [bool; MOST],
        at: usize,
        depth: usize,
    ) -> Result<usize, Refusal>
        requires { (at < length self.now.line.now) × ((here self.now.line.now (at + 1) ≡ Some (state comma (suc depth))) × ((RoomAfter at notes.old) × (depth < 16))) }
        ensures { (words : List (List ℕ)) → Seen (feature_names self.now.features.now) words seen → ListRead (feature_names self.now.features.now) self.now.line.now variable words at depth notes.old notes.new result }
    {
        let place = at + 1;
        let word = self.feature(place)?;
        let value = place + word.text.len() + 2;
        let looked = look_up(self.features, word.text, seen);
        notes.mark(looked.wrong, place);
        let link = Link {
            variable,
            feature: looked.feature,
            place,
        };
        let end = self.term(notes, Some(link), value, depth + 1)?;
        match self.after_item(end)? {
            Closing::More => self.list(notes, variable, looked.seen, end, depth),
            Closing::Done => Ok(end + 1),
        }
    }
}

// The root of the line, which is the whole line.
fn root(reader: &Reader<'_, '_>, notes: &mut Notes) -> Result<(), Refusal>
    requires { noted reader.now.line.now notes.old ≡ nothing }
    ensures { RootRead (feature_names reader.now.features.now) reader.now.line.now (noted reader.now.line.now notes.old) (noted reader.now.line.now notes.new) result }
{
    let end = reader.term(notes, None, 0, 0)?;
    if end < reader.line.len() {
        return Err(Refusal::Grammar { place: end });
    }
    Ok(())
}

// Whether a line has too many bytes.
fn is_long(line: &[u8]) -> bool
    ensures { result ≡ nat_lt 1000 (length line.now) }
{
    line.len() > LONGEST_LINE
}

// Notes what a line says, with its kinds by the places of their texts, in the place of what was noted; or a refusal for reason 1, 2 or 3,
// after which what the notes hold means nothing.
pub fn note_in(features: &Features, line: &[u8], notes: &mut Notes) -> Result<(), Refusal>
    ensures { NotesIn (feature_names features.now) line.now notes.new result }
{
    if is_long(line) {
        return Err(Refusal::Limit { place: 0 });
    }
    notes.clear();
    let reader = Reader { line, features };
    root(&reader, notes)?;
    match notes.wrong {
        Some(place) => Err(Refusal::Word { place }),
        None => Ok(()),
    }
}

// The same, as notes that are answered.
pub fn note(features: &Features, line: &[u8]) -> Result<Notes, Refusal>
    ensures { NotesOf (feature_names features.now) line.now result }
{
    let mut notes = Notes::new();
    match note_in(features, line, &mut notes) {
        Ok(()) => Ok(notes),
        Err(refusal) => Err(refusal),
    }
}

// Declaring a kind.
ghost use Rattle.std.specs.Prelude.{◌≡◌, ℕ, ◌+◌, ◌^◌, ◌<◌, true, List, [], ◌∷◌, ◌++◌, map, length, drop, is_err, if◌then◌else◌, Result, bit_and, bit_or, nat_eq};
ghost use Rattle.std.specs.List.{AllByRecursion};
ghost use Rattle.refusals.specs.declared.Refusal.{Refusal};
ghost use Rattle.declarations.specs.Declarations.{Declaration, follows};
ghost use Rattle.declarations.specs.Lines.{tail, Declares};
ghost use Rattle.declarations.specs.Names.{is_name};
ghost use Rattle.kinds.specs.Lists.{drafted};
ghost use Rattle.kinds.specs.Model.{kinds_of, Gathers, Fresh, Reads};
ghost use Rattle.kinds.specs.Stored.{declaration, with_new};

use crate::draft::Draft;
use crate::table::{Kind, MOST, Table};
use declarations::line::{break_at, name_end, word_end};
use declarations::name::Name;
use refusals::{LONGEST_LINE, Refusal};
use short_lists::ShortList;

impl Draft {
    // Declares the kind of a line, and answers its number. The rules fix the answer: whatever meets them is this one.
    #[tactic(auto, using(declarations::proofs::Determined::one_outcome))]
    pub fn declare(&mut self, line: &[u8]) -> Result<usize, Refusal>
        ensures answer { Declares 64 (drafted self.old) line.now (drafted self.new) result }
        ensures kept { is_err result ≡ true → self.new ≡ self.old }
        ensures fixed { (s : Result ℕ Refusal) (after : List Declaration) → Declares 64 (drafted self.old) line.now after s → s ≡ result }
    {
        declare_line(self, line)
    }
}

// Reads the line and adds the kind that it declares.
fn declare_line(draft: &mut Draft, line: &[u8]) -> Result<usize, Refusal>
    ensures answer { Declares 64 (drafted draft.old) line.now (drafted draft.new) result }
    ensures kept { is_err result ≡ true → draft.new ≡ draft.old }
{
    let kind = draft.table.read(line)?;
    Ok(draft.table.add(&kind))
}

impl Table {
    // What a line declares.
    fn read(&self, line: &[u8]) -> Result<Kind, Refusal>
        ensures { Reads (kinds_of self.now) line.now result }
    {
        if line.len() > LONGEST_LINE {
            return Err(Refusal::Limit { place: 0 });
        }
        let end = name_end(line);
        let Some(name) = Name::new(&line[..end]) else {
            return Err(Refusal::Limit { place: 0 });
        };
        if let Some(place) = break_at(line) {
            return Err(Refusal::Grammar { place });
        }
        if self.len() >= MOST {
            return Err(Refusal::Limit { place: 0 });
        }
        self.fresh(&line[..end])?;
        let wider = self.gather(line, end)?;
        Ok(Kind {
            name,
            wider,
            row: 1 << self.len(),
        })
    }

    // Whether no kind has this name, which stands first in its line.
    fn fresh(&self, word: &[u8]) -> Result<(), Refusal>
        ensures { Fresh (kinds_of self.now) word.now result }
    {
        match self.find(word) {
            Some(_) => Err(Refusal::Word { place: 0 }),
            None => Ok(()),
        }
    }

    // The wider kinds that a line names after its first `at` bytes, as bits.
    fn gather(&self, line: &[u8], at: usize) -> Result<u64, Refusal>
        ensures { (ws : List (List ℕ)) → AllByRecursion (λ w. is_name w ≡ true) ws → drop at line.now ≡ tail ws → Gathers (kinds_of self.now) at ws result }
    {
        let mut wider = 0;
        let mut end = at;
        // A word is refused by its place, so the loop goes along places: `split` gives words, and the places would be counted beside it.
        while end < line.len() {
            let start = end + 1;
            end = word_end(line, start);
            match self.find(&line[start..end]) {
                Some(kind) => wider |= 1 << kind,
                None => return Err(Refusal::Word { place: start }),
            }
        }
        Ok(wider)
    }

    // One kind more: it is at or under itself and all that one of its wider kinds is at or under.
    fn add(&mut self, kind: &Kind) -> usize
        requires room { length (kinds_of self.old) < 64 }
        requires wider { kind.now.wider < 2 ^ length (kinds_of self.old) }
        requires row { kind.now.row ≡ 2 ^ length (kinds_of self.old) }
        requires follows { follows (kinds_of self.old) (declaration kind.now) ≡ true }
        ensures number { result ≡ length (kinds_of self.old) }
        ensures after { kinds_of self.new ≡ kinds_of self.old ++ declaration kind.now ∷ [] }
    {
        let number = self.len();
        put_kind(&mut self.kinds, kind);
        number
    }
}

// Puts a kind behind the others. In place: a table made anew would be copied whole, three kibibytes for each line.
fn put_kind(kinds: &mut ShortList<Kind, MOST>, kind: &Kind)
    requires { length kinds.old.items < 64 }
    ensures { kinds.new.items ≡ map (with_new kind.now) kinds.old.items ++ kind.now ∷ [] }
{
    grow_kinds(kinds, kind);
    let last = *kind;
    let _ = kinds.push(last);
}

// Gives the bit of a kind that is declared to each row that is to have it.
fn grow_kinds(kinds: &mut ShortList<Kind, MOST>, kind: &Kind)
    ensures { kinds.new.items ≡ map (with_new kind.now) kinds.old.items }
{
    grow_rows(&mut kinds.room[..kinds.len], kind);
}

// The same of kinds in a slice.
fn grow_rows(kinds: &mut [Kind], kind: &Kind)
    ensures { kinds.new ≡ map (with_new kind.now) kinds.old }
{
    for earlier in kinds.iter_mut() {
        *earlier = with_new(earlier, kind);
    }
}

// An earlier kind once this one is declared.
fn with_new(earlier: &Kind, kind: &Kind) -> Kind
    ensures { result ≡ with_new kind.now earlier.now }
{
    Kind {
        name: earlier.name,
        wider: earlier.wider,
        row: grow(earlier.row, kind.wider, kind.row),
    }
}

// A row once a kind is declared: it has the kind's bit if one of the wider kinds is in it.
fn grow(row: u64, wider: u64, bit: u64) -> u64
    ensures { result ≡ (if nat_eq (bit_and row wider) 0 then row else bit_or row bit) }
{
    if row & wider != 0 { row | bit } else { row }
}

// What a file says, section by section.
ghost use Rattle.std.specs.Prelude.{◌≡◌, ℕ, ◌≤◌, List, [], ◌∷◌, length, IfOk, vec_items};
ghost use Rattle.declarations.specs.Declarations.{any};
ghost use Rattle.declarations.specs.Lines as kind_lines;
ghost use Rattle.features.specs.Lines as feature_lines;
ghost use Rattle.features.specs.Model.{feature_names};
ghost use Rattle.grammar.specs.declared.statement.Said.{Said};
ghost use Rattle.kinds.specs.Lists.{drafted};
ghost use Rattle.files.specs.Files.{Section as SectionOf, Closed, TakesTerm, short, over as whole};
ghost use Rattle.files.specs.Model.{mapped};
ghost use Rattle.files.specs.Shelves.{Empty};
ghost use Rattle.files.specs.Reads.{said_terms, ListsRead, FileRead};

use super::shelf::Shelf;
use super::take_section;
use crate::made::OfList;
use crate::memory::{MOST_LINES, Memory};
use features::table::{Features, MOST as MOST_FEATURES};
use kinds::draft::Draft;
use kinds::list::List;
use kinds::list::shipped::shipped;
use orders::texts::WrittenOrder;
use refusals::Refusal;
use std::vec::Vec;
use terms::term::Term;

// How many bytes a file may have.
pub const LONGEST_FILE: usize = 60_000;

// How many kinds a file may declare past `any`.
pub const MOST_KINDS: usize = 63;

// What a file says: the order that its list of kinds is made into, its features, its entries and its rules.
#[derive(Drop)]
pub struct Book<K, O> {
    pub order: O,
    pub features: Features,
    pub entries: Vec<Term<K>>,
    pub rules: Vec<Term<K>>,
}

// That a file is not too long.
fn check_length(file: &[u8]) -> Result<(), Refusal>
    ensures { result ≡ short file.now }
{
    if file.len() > LONGEST_FILE {
        return Err(Refusal::Limit { place: 0 });
    }
    Ok(())
}

// That nothing follows the last line.
fn check_end(file: &[u8], place: usize) -> Result<(), Refusal>
    ensures { result ≡ whole file.now place }
{
    if place != file.len() {
        return Err(Refusal::Grammar { place });
    }
    Ok(())
}

// A section of at most so many kinds.
fn take_kinds(file: &[u8], limit: usize) -> Result<(Draft, usize), Refusal>
    ensures answer { SectionOf (kind_lines.Declares 64) limit file.now 0 (any ∷ []) (mapped drafted result) }
    ensures within { IfOk result (λ p. p.1 ≤ length file.now) }
{
    let mut draft = Draft::new();
    match take_section(&mut draft, limit, file, 0) {
        Ok(next) => Ok((draft, next)),
        Err(refusal) => Err(refusal),
    }
}

// The section of kinds. The clauses are those of `take_kinds`: the answers to the goals there name steps of its code, and an edit of the
// limit is to be refused by a fact.
fn read_kinds(file: &[u8]) -> Result<(Draft, usize), Refusal>
    ensures answer { SectionOf (kind_lines.Declares 64) 63 file.now 0 (any ∷ []) (mapped drafted result) }
    ensures within { IfOk result (λ p. p.1 ≤ length file.now) }
{
    take_kinds(file, MOST_KINDS)
}

// The list of declared kinds.
fn close(draft: Draft) -> Result<List, Refusal>
    ensures { Closed (drafted draft) result }
{
    let mut list = shipped();
    if let Err(unclosed) = draft.close(&mut list) {
        return Err(unclosed);
    }
    Ok(list)
}

// The section of features.
fn read_features(file: &[u8], place: usize) -> Result<(Features, usize), Refusal>
    requires { place ≤ length file.now }
    ensures answer { SectionOf feature_lines.Declares 16 file.now place [] (mapped feature_names result) }
    ensures within { IfOk result (λ p. p.1 ≤ length file.now) }
{
    let mut features = Features::new();
    match take_section(&mut features, MOST_FEATURES, file, place) {
        Ok(next) => Ok((features, next)),
        Err(refusal) => Err(refusal),
    }
}

// A section of entries or of rules, read into these terms.
fn read_terms<K: Copy, O: WrittenOrder<Kind = K>>(
    order: &O,
    features: &Features,
    terms: Vec<Term<K>>,
    file: &[u8],
    place: usize,
) -> Result<(Vec<Term<K>>, usize), Refusal>
    requires place { place ≤ length file.now }
    requires empty { Empty (vec_items terms) }
    ensures answer { SectionOf (TakesTerm (O.texts order.now) (feature_names features.now)) 200 file.now place [] (mapped said_terms result) }
    ensures within { IfOk result (λ p. p.1 ≤ length file.now) }
{
    let mut shelf = Shelf {
        order,
        features,
        terms,
        filled: 0,
    };
    match take_section(&mut shelf, MOST_LINES, file, place) {
        Ok(next) => {
            let Shelf {
                mut terms,
                filled,
                ..
            } = shelf;
            terms.truncate(filled);
            Ok((terms, next))
        }
        Err(refusal) => Err(refusal),
    }
}

// What a file says, once its list is closed: its features, its entries and its rules.
fn read_lists<K: Copy, O: OfList<Kind = K> + Drop>(
    list: List,
    memory: Memory<K>,
    file: &[u8],
    place: usize,
) -> Result<Book<K, O>, Refusal>
    requires { place ≤ length file.now }
    ensures { ListsRead O.made (λ l. O.texts (O.made l)) file.now place list result }
{
    let (features, entries_at) = read_features(file, place)?;
    let order = O::of_list(list);
    let (entries, rules_at) = read_terms(&order, &features, memory.entries, file, entries_at)?;
    let (rules, end) = read_terms(&order, &features, memory.rules, file, rules_at)?;
    check_end(file, end)?;
    Ok(Book {
        order,
        features,
        entries,
        rules,
    })
}

// What a file says, or why it is refused. The clause is that of `read_file`, which is thin for the same reason as `read_kinds`.
#[tactic(auto, unfolding(crate::specs::Reads::FileRead))]
fn read_whole<K: Copy, O: OfList<Kind = K> + Drop>(
    memory: Memory<K>,
    file: &[u8],
) -> Result<Book<K, O>, Refusal>
    ensures answer { FileRead O.made (λ l. O.texts (O.made l)) file.now result }
{
    check_length(file)?;
    let (draft, features_at) = read_kinds(file)?;
    let list = close(draft)?;
    read_lists(list, memory, file, features_at)
}

// What a file says, or why it is refused.
pub fn read_file<K: Copy, O: OfList<Kind = K> + Drop>(
    memory: Memory<K>,
    file: &[u8],
) -> Result<Book<K, O>, Refusal>
    ensures answer { FileRead O.made (λ l. O.texts (O.made l)) file.now result }
{
    read_whole(memory, file)
}

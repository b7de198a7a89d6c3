// The statements of a line, noted with kind texts, as the statements of a term with kinds.
ghost use Rattle.std.specs.Prelude.{◌≡◌, ℕ, ◌+◌, ◌<◌, ◌≤◌, true, List, [], ◌∷◌, ◌++◌, map, length, is_ok, is_err, nat_lt, vec_len, vec_capacity, Result as Answered, slice_index};
ghost use Rattle.refusals.specs.declared.Refusal.{Refusal as Refused};
ghost use Rattle.grammar.specs.declared.statement.Said.{Said as Row};
ghost use Rattle.grammar.specs.Lines.{Answers};
ghost use Rattle.grammar.specs.Lawful.{depths as depths_of, statements as statements_of};
ghost use Rattle.grammar.specs.Only.{OnlyReads};
ghost use Rattle.features.specs.Model.{feature_names};
ghost use Rattle.reading.specs.Notes.{statement_in, said_in};
ghost use Rattle.terms.specs.Kinds.{StatementOf, FirstWrong, ChecksKinds, Readable, Found};
ghost use Rattle.terms.specs.Terms.{said_of, room_of, features_of, depths_in};

use super::{Term, put_root};
use features::table::Features;
use grammar::statement::{Said, Statement};
use orders::texts::WrittenOrder;
use orders::whole::whole_kind;
use reading::notes::Notes;
use reading::reader::heads::trees::note_in;
use reading::span::{Span, bytes_of};
use refusals::Refusal;

// A statement with the kind that has its text, or none where no kind has it.
fn with_kind<O: WrittenOrder>(
    order: &O,
    line: &[u8],
    statement: Statement<Span>,
) -> Option<Statement<O::Kind>>
    ensures { StatementOf (O.texts order.now) (statement_in line.now statement) result }
{
    match statement {
        Statement::Kind { variable, kind } => {
            let kind = whole_kind(order, bytes_of(line, kind))?;
            Some(Statement::Kind { variable, kind })
        }
        Statement::Feature {
            variable,
            feature,
            value,
        } => Some(Statement::Feature {
            variable,
            feature,
            value,
        }),
    }
}

// The place of the first kind text that no kind has.
#[tactic(auto, using(crate::proofs::WithKinds::wrong_at, crate::proofs::WithKinds::no_kind))]
fn first_wrong<O: WrittenOrder>(order: &O, line: &[u8], noted: &[Said<Span>]) -> Option<usize>
    ensures { FirstWrong (O.texts order.now) (map (said_in line.now) noted.now) result }
{
    // With `find` the proof did not close: the kinds of those before are wanted too, and its clause does not give them.
    for said in noted {
        if with_kind(order, line, said.statement).is_none() {
            return Some(said.place);
        }
    }
    None
}

// That all kinds can be read, or the refusal of the first kind text that no kind has.
fn check_kinds<O: WrittenOrder>(order: &O, line: &[u8], noted: &[Said<Span>]) -> Result<(), Refusal>
    ensures { ChecksKinds (O.texts order.now) (map (said_in line.now) noted.now) result }
{
    match first_wrong(order, line, noted) {
        Some(place) => Err(Refusal::Kind { place }),
        None => Ok(()),
    }
}

// Whether there is room for fewer statements than these.
fn is_short(room: usize, noted: &[Said<Span>]) -> bool
    ensures { result ≡ nat_lt room (length noted.now) }
{
    noted.len() > room
}

// The depth of a variable, 0 past the last one, as the clauses of depths have it.
fn depth_of(depths: &[usize], variable: usize) -> usize
    ensures { result ≡ slice_index depths.now variable }
{
    depths.get(variable).copied().unwrap_or(0)
}

// One deeper. No depth comes near the bound, since a term has no more depths than memory can have.
fn one_deeper(depth: usize) -> usize
    requires { depth < 9223372036854775808 }
    ensures { result ≡ depth + 1 }
{
    depth + 1
}

// The facts of a `Term` do not hold while it is filled: so its rows and depths are lent below, and not the term.
//
// One statement more, and where its value is the next variable the depth of that.
fn push<K: Copy>(rows: &mut Vec<Said<K>>, depths: &mut Vec<usize>, said: Said<K>)
    requires room { (vec_len rows.old < vec_capacity rows.old) × (vec_len depths.old < vec_capacity depths.old) }
    requires deep { depths.old.items ≡ depths_of (statements_of rows.old.items) }
    ensures items { rows.new.items ≡ rows.old.items ++ said ∷ [] }
    ensures deep { depths.new.items ≡ depths_of (statements_of rows.new.items) }
    ensures capacity { (vec_capacity rows.new ≡ vec_capacity rows.old) × (vec_capacity depths.new ≡ vec_capacity depths.old) }
{
    match said.statement {
        Statement::Kind { .. } => {}
        Statement::Feature {
            variable,
            value,
            ..
        } => {
            if value == depths.len() {
                let depth = depth_of(depths, variable);
                depths.push_reserved(one_deeper(depth));
            }
        }
    }
    rows.push_reserved(said);
}

// Noted statements, each with its kind, in the place of those in memory.
fn fill<O: WrittenOrder>(
    order: &O,
    line: &[u8],
    noted: &[Said<Span>],
    rows: &mut Vec<Said<O::Kind>>,
    depths: &mut Vec<usize>,
)
    requires kinds { Readable (O.texts order.now) (map (said_in line.now) noted.now) }
    requires room { (length noted.now ≤ vec_capacity rows.old) × (length noted.now + 1 ≤ vec_capacity depths.old) }
    ensures read { OnlyReads (O.texts order.now) (map (said_in line.now) noted.now) rows.new.items }
    ensures deep { depths.new.items ≡ depths_of (statements_of rows.new.items) }
    ensures capacity { (vec_capacity rows.new ≡ vec_capacity rows.old) × (vec_capacity depths.new ≡ vec_capacity depths.old) }
{
    rows.clear();
    depths.clear();
    put_root(depths);
    for said in noted {
        let statement = with_kind(order, line, said.statement).unwrap();
        let place = said.place;
        push(rows, depths, Said { statement, place });
    }
}

// Puts the statements of the notes into the term, each with its kind, or leaves the term as it was.
fn finish<K: Copy, O: WrittenOrder<Kind = K>>(
    term: &mut Term<K>,
    order: &O,
    features: usize,
    line: &[u8],
    notes: &Notes,
) -> Result<(), Refusal>
    requires { (F : List (List ℕ)) × Found F features line.now notes.now }
    ensures answer { (F : List (List ℕ)) → Found F features line.now notes.now → Answers (O.texts order.now) F (room_of term.old) line.now (said_of term.new) result }
    ensures fixed { (F : List (List ℕ)) → Found F features line.now notes.now → (s : Answered (Unit {0}) Refused) (vs : List (Row K)) → Answers (O.texts order.now) F (room_of term.old) line.now vs s → (s ≡ result) × (is_ok result ≡ true → vs ≡ said_of term.new) }
    ensures kept { is_err result ≡ true → term.new ≡ term.old }
    ensures few { is_ok result ≡ true → (length (said_of term.new) ≤ 399) × (length (depths_in term.new) ≤ 200) }
    ensures fields { (room_of term.new ≡ room_of term.old) × (is_ok result ≡ true → features_of term.new ≡ features) }
{
    let noted = notes.said.as_slice();
    if let Err(refusal) = check_kinds(order, line, noted) {
        return Err(refusal);
    }
    if is_short(term.room, noted) {
        return Err(Refusal::Memory);
    }
    fill(order, line, noted, &mut term.rows, &mut term.depths);
    term.features = features;
    Ok(())
}

// Notes what the line says, and puts it into the term. The clauses are those of `read`, which is thin: the answers to the goals here
// name steps of this code, and an edit of `read` is to be refused by a fact. The parameters are those of `read` too.
fn read_line<K: Copy, O: WrittenOrder<Kind = K>>(
    term: &mut Term<K>,
    order: &O,
    features: &Features,
    line: &[u8],
) -> Result<(), Refusal>
    ensures answer { Answers (O.texts order.now) (feature_names features.now) (room_of term.old) line.now (said_of term.new) result }
    ensures kept { is_err result ≡ true → term.new ≡ term.old }
    ensures fixed { (s : Answered (Unit {0}) Refused) (vs : List (Row K)) → Answers (O.texts order.now) (feature_names features.now) (room_of term.old) line.now vs s → (s ≡ result) × (is_ok result ≡ true → vs ≡ said_of term.new) }
    ensures few { is_ok result ≡ true → (length (said_of term.new) ≤ 399) × (length (depths_in term.new) ≤ 200) }
    ensures fields { (room_of term.new ≡ room_of term.old) × (is_ok result ≡ true → features_of term.new ≡ length (feature_names features.now)) }
{
    // The notes are filled in place: they have twenty kibibytes, which an answer would copy for each line.
    let mut notes = Notes::new();
    match note_in(features, line, &mut notes) {
        Ok(()) => finish(term, order, features.len(), line, &notes),
        Err(refusal) => Err(refusal),
    }
}

impl<K: Copy> Term<K> {
    // Reads a line: the statements that it gives, or a refusal for reason 1, 2, 3, 4 or 6, and then the term is left as it was.
    // The rules fix the answer: whatever meets them is this one.
    pub fn read<O: WrittenOrder<Kind = K>>(
        &mut self,
        order: &O,
        features: &Features,
        line: &[u8],
    ) -> Result<(), Refusal>
        ensures answer { Answers (O.texts order.now) (feature_names features.now) (room_of self.old) line.now (said_of self.new) result }
        ensures kept { is_err result ≡ true → self.new ≡ self.old }
        ensures fixed { (s : Answered (Unit {0}) Refused) (vs : List (Row K)) → Answers (O.texts order.now) (feature_names features.now) (room_of self.old) line.now vs s → (s ≡ result) × (is_ok result ≡ true → vs ≡ said_of self.new) }
        ensures few { is_ok result ≡ true → (length (said_of self.new) ≤ 399) × (length (depths_in self.new) ≤ 200) }
        ensures fields { (room_of self.new ≡ room_of self.old) × (is_ok result ≡ true → features_of self.new ≡ length (feature_names features.now)) }
    {
        read_line(self, order, features, line)
    }
}

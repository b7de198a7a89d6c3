// A reader over a lent line: its words, and what it notes of them.
ghost use Rattle.std.specs.Prelude.{◌≡◌, ℕ, ◌+◌, ◌<◌, ◌≤◌, List, length};
ghost use Rattle.features.specs.Model.{number_of};
ghost use Rattle.grammar.specs.declared.statement.Statement.TheVariants.{Kind};
ghost use Rattle.grammar.specs.Told.{nothing};
ghost use Rattle.grammar.specs.Told.{meet as met, meet_unnamed, say as saying, mark as marked};
ghost use Rattle.grammar.specs.Words.{capital};
ghost use Rattle.reading.specs.Links.{linked, links};
ghost use Rattle.reading.specs.Notes.{noted, part, statement_in, variables, statements, first_named, with_name, Named as Naming};
ghost use Rattle.reading.specs.Reading.{byte_at, mark_of, in_class, first_outside, leading, TokenAt, ShortWord};

use crate::notes::Notes;
use crate::span::{Span, bytes_of};
use declarations::line::is_name_byte;
use declarations::name::LONGEST_NAME;
use features::table::Features;
use grammar::statement::{Said, Statement};
use orders::texts::is_text_byte;
use refusals::Refusal;
use short_lists::ShortList;

pub mod heads;

// The line that is read, and the features that it may use. Nothing of the line is copied: tokens are parts of it.
#[derive(Clone, Copy)]
struct Reader<'a, 'f> {
    line: &'a [u8],
    features: &'f Features,
    ghost fits: { length line.now ≤ 1000 },
}

// A word of the line, and the place of its first byte.
#[derive(Clone, Copy)]
struct Token<'a> {
    place: usize,
    text: &'a [u8],
}

// What the bytes of a word are.
#[derive(Clone, Copy)]
enum Class {
    // letters and digits
    Name,
    // lower-case letters, digits and underscores
    Feature,
    // the bytes of kind texts
    Kind,
}

// The bytes that part the words of a line.
#[derive(Clone, Copy)]
enum Mark {
    Open,
    Close,
    Comma,
    Colon,
    // the two halves of the arrow
    Equals,
    Greater,
    // none of these, or the end of the line: a case like the others, so that one `match` has them all
    Other,
}

// The front of a term.
#[derive(Clone, Copy)]
enum Head {
    // A bare name: the whole term, up to `end`.
    Bare { end: usize },
    // The description of a variable, whose kind text begins at `at`.
    Described { variable: usize, at: usize },
}

// A description from its kind text on.
#[derive(Clone, Copy)]
enum Body {
    // It has no list and ends at `end`.
    Ends { end: usize },
    // Its list opens at `at`.
    Opens { at: usize },
}

// What follows an item: the next one, or the end of the list. (Heads, bodies and closings have two ends each that are both
// answers: neither is an error or nothing.)
#[derive(Clone, Copy)]
enum Closing {
    More,
    Done,
}

// The variable of a name, and whether the name was met before. The variable is wanted either way.
#[derive(Clone, Copy)]
struct Named {
    variable: usize,
    known: bool,
}

// The feature of a variable, and the place of its word.
#[derive(Clone, Copy)]
struct Link {
    variable: usize,
    feature: usize,
    place: usize,
}

// A part of no bytes.
const EMPTY: Span = Span { place: 0, len: 0 };

// What the room has where nothing is said yet.
const UNSAID: Said<Span> = Said {
    statement: Statement::Feature {
        variable: 0,
        feature: 0,
        value: 0,
    },
    place: 0,
};

// That there is room for one more is required here, and shown from the line's length: so none of these can fail.
impl Notes {
    // Nothing is found yet.
    pub fn new() -> Notes
        ensures { (line : List ℕ) → noted line result ≡ nothing }
    {
        Notes {
            names: ShortList::empty(EMPTY),
            said: ShortList::empty(UNSAID),
            wrong: None,
        }
    }

    // Nothing is found any more: what lies in the room means nothing, and stays.
    fn clear(&mut self)
        ensures { (line : List ℕ) → noted line self.new ≡ nothing }
    {
        self.names.len = 0;
        self.said.len = 0;
        self.wrong = None;
    }

    // The variable of a name, a new one where the name was not met before.
    #[tactic(auto, using(crate::proofs::Noting::old_meets, crate::proofs::Noting::old_told, crate::proofs::Noting::new_told))]
    fn meet(&mut self, line: &[u8], name: Span) -> Named
        requires { variables self.old < 200 }
        ensures answer { Naming (part line.now name) (noted line.now self.old).names result }
        ensures told { noted line.now self.new ≡ met (part line.now name) (noted line.now self.old) }
        ensures counts { (variables self.new ≤ variables self.old + 1) × (statements self.new ≡ statements self.old) }
    {
        match self.find(line, bytes_of(line, name)) {
            Some(variable) => Named {
                variable,
                known: true,
            },
            None => Named {
                variable: self.add(name),
                known: false,
            },
        }
    }

    // A new variable without a name.
    fn meet_unnamed(&mut self) -> usize
        requires { variables self.old < 200 }
        ensures answer { (line : List ℕ) → result ≡ length (noted line self.old).names }
        ensures told { (line : List ℕ) → noted line self.new ≡ meet_unnamed (noted line self.old) }
        ensures counts { (variables self.new ≡ variables self.old + 1) × (statements self.new ≡ statements self.old) }
    {
        self.add(EMPTY)
    }

    // The number of the variable with this name.
    #[tactic(auto, using(crate::proofs::Noting::number_found))]
    fn find(&self, line: &[u8], name: &[u8]) -> Option<usize>
        ensures { result ≡ number_of name.now (noted line.now self.now).names }
    {
        first_named(line, self.names.as_slice(), name)
    }

    // One variable more, and its number.
    fn add(&mut self, name: Span) -> usize
        requires { variables self.old < 200 }
        ensures answer { (line : List ℕ) → result ≡ length (noted line self.old).names }
        ensures told { (line : List ℕ) → noted line self.new ≡ with_name (part line name) (noted line self.old) }
        ensures counts { (variables self.new ≡ variables self.old + 1) × (statements self.new ≡ statements self.old) }
    {
        let variable = self.names.len();
        let _ = self.names.push(name);
        variable
    }

    // One statement more, from the word at this place.
    fn say(&mut self, statement: Statement<Span>, place: usize)
        requires { statements self.old < 399 }
        ensures told { (line : List ℕ) → noted line self.new ≡ saying (statement_in line statement) place (noted line self.old) }
        ensures counts { (variables self.new ≡ variables self.old) × (statements self.new ≡ statements self.old + 1) }
    {
        let _ = self.said.push(Said { statement, place });
    }

    // Says that the value of the link, if there is one, is this variable.
    fn say_link(&mut self, from: Option<Link>, value: usize)
        requires { statements self.old + links from < 400 }
        ensures told { (line : List ℕ) → noted line self.new ≡ linked from value (noted line self.old) }
        ensures counts { (variables self.new ≡ variables self.old) × (statements self.new ≡ statements self.old + links from) }
    {
        if let Some(link) = from {
            let statement = Statement::Feature {
                variable: link.variable,
                feature: link.feature,
                value,
            };
            self.say(statement, link.place);
        }
    }

    // A kind text is said of a variable.
    fn say_kind(&mut self, variable: usize, text: Token<'_>)
        requires { statements self.old < 399 }
        ensures told { (line : List ℕ) → noted line self.new ≡ saying (Kind variable (part line (record { place = text.entry.place; len = length text.entry.text.now }))) text.entry.place (noted line self.old) }
        ensures counts { (variables self.new ≡ variables self.old) × (statements self.new ≡ statements self.old + 1) }
    {
        self.say(
            Statement::Kind {
                variable,
                kind: text.span(),
            },
            text.place,
        );
    }

    // The name at this place is described: wrong where it was met before.
    fn describe(&mut self, found: Named, place: usize)
        ensures told { (line : List ℕ) → noted line self.new ≡ marked found.known place (noted line self.old) }
        ensures counts { (variables self.new ≡ variables self.old) × (statements self.new ≡ statements self.old) }
    {
        self.mark(found.known, place);
    }

    // The word at this place is wrong if the test says so. The leftmost counts.
    fn mark(&mut self, wrong: bool, place: usize)
        ensures told { (line : List ℕ) → noted line self.new ≡ marked wrong place (noted line self.old) }
        ensures counts { (variables self.new ≡ variables self.old) × (statements self.new ≡ statements self.old) }
    {
        if wrong && self.wrong.is_none() {
            self.wrong = Some(place);
        }
    }
}

// The first of the names that is this word. One line of the library: a trait for what has a name would be longer than its uses.
#[tactic(auto, unfolding(crate::specs::Notes::first_named))]
fn first_named(line: &[u8], names: &[Span], word: &[u8]) -> Option<usize>
    ensures { result ≡ first_named line.now word.now names.now }
{
    names.iter().position(|name| word == bytes_of(line, *name))
}

fn is_capital(byte: u8) -> bool
    ensures { result ≡ capital byte }
{
    byte.is_ascii_uppercase()
}

impl Class {
    // Whether words of the class have this byte. A closure in place of a class would have to be named again in each contract below.
    fn has(self, byte: u8) -> bool
        ensures { result ≡ in_class self byte }
    {
        match self {
            Class::Name => byte.is_ascii_alphanumeric(),
            Class::Feature => is_name_byte(byte),
            Class::Kind => is_text_byte(byte),
        }
    }

    // How many bytes the longest word of the class has that stands first.
    #[tactic(auto, using(crate::proofs::Spanning::leading_is, crate::proofs::Spanning::leading_within))]
    fn leading(self, bytes: &[u8]) -> usize
        ensures value { result ≡ leading self bytes.now }
        ensures within { result ≤ length bytes.now }
    {
        self.first_outside(bytes).unwrap_or(bytes.len())
    }

    // The first byte that no word of the class has: one line of the library.
    #[tactic(auto, unfolding(crate::specs::Reading::first_outside))]
    fn first_outside(self, bytes: &[u8]) -> Option<usize>
        ensures { result ≡ first_outside self bytes.now }
    {
        bytes.iter().position(|byte| !self.has(*byte))
    }
}

impl Token<'_> {
    // The word by its place and length.
    fn span(&self) -> Span
        ensures { result ≡ record { place = self.now.place; len = length self.now.text.now } }
    {
        Span {
            place: self.place,
            len: self.text.len(),
        }
    }
}

impl<'a, 'f> Reader<'a, 'f> {
    // The byte at a place, or none past the end.
    fn byte(&self, at: usize) -> Option<u8>
        ensures { result ≡ byte_at self.now.line.now at }
    {
        self.line.get(at).copied()
    }

    // The mark at a place.
    fn mark(&self, at: usize) -> Mark
        ensures { result ≡ mark_of (byte_at self.now.line.now at) }
    {
        let Some(byte) = self.byte(at) else {
            return Mark::Other;
        };
        match byte as char {
            '(' => Mark::Open,
            ')' => Mark::Close,
            ',' => Mark::Comma,
            ':' => Mark::Colon,
            '=' => Mark::Equals,
            '>' => Mark::Greater,
            _ => Mark::Other,
        }
    }

    // The longest word of a class that begins here. One of no bytes is a word too, and the longest where no byte is of the class.
    fn word(&self, class: Class, start: usize) -> Token<'a>
        requires { start ≤ length self.now.line.now }
        ensures { TokenAt self.now.line.now class start result }
    {
        let rest = &self.line[start..];
        Token {
            place: start,
            text: &rest[..class.leading(rest)],
        }
    }

    // The same, or a refusal where it has too many bytes.
    fn short_word(&self, class: Class, start: usize) -> Result<Token<'a>, Refusal>
        requires { start ≤ length self.now.line.now }
        ensures { ShortWord self.now.line.now class start result }
    {
        let word = self.word(class, start);
        if word.text.len() > LONGEST_NAME {
            return Err(Refusal::Limit { place: 0 });
        }
        Ok(word)
    }
}

// What comes of a rule that is tried on an entry.
use refusals::Refusal;

#[derive(Clone, Copy)]
pub enum Outcome<K> {
    // The rule matches: the kind at the root's end.
    Yes { kind: K },
    // A clash, at the statement with this number.
    No { statement: usize },
    // The entry or the rule is refused for any other reason.
    Refused { refusal: Refusal },
}

// Entries and rules have their numbers from 1.
#[derive(Clone, Copy)]
pub struct Trial<K> {
    pub entry: usize,
    pub rule: usize,
    pub outcome: Outcome<K>,
}

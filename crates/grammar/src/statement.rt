// The statements of a term, over its variables, which count from 0.

// How many variables and statements a lawful line has at most.
pub const MOST_VARIABLES: usize = 200;

pub const MOST_STATEMENTS: usize = 399;

#[derive(Clone, Copy, PartialEq, Eq, Debug)]
pub enum Statement<K> {
    // The variable is at or under the kind.
    Kind {
        variable: usize,
        kind: K,
    },
    // The feature of the variable is the value, which is a variable too.
    Feature {
        variable: usize,
        feature: usize,
        value: usize,
    },
}

// A statement, and the first byte of the word in the line that it came from: its kind text, or its feature.
#[derive(Clone, Copy, PartialEq, Eq, Debug)]
pub struct Said<K> {
    pub statement: Statement<K>,
    pub place: usize,
}

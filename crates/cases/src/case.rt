// A case: plain numbers. Its cells and slots lie in memory that each call is lent.

pub const MOST_CELLS: usize = 1024;

pub const MOST_FEATURES: usize = 16;

// The first `used` of its cells are in use. Every call takes every case, also one that no call has made.
#[derive(Clone, Copy, PartialEq, Eq, Debug)]
pub struct Case {
    pub cells: usize,
    pub features: usize,
    pub used: usize,
}

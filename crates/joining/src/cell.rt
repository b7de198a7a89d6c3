// One cell of a case.

// A cell that refers to itself is an end: its kind and its slots count. Any other is one with the cell that it refers to.
#[derive(Clone, Copy, PartialEq, Eq, Debug)]
pub struct Cell<K> {
    pub refers: usize,
    pub kind: K,
}

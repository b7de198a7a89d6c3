// Files: kinds, features, entries and rules as a bookkeeper writes them.
//
// `read_file`  what a file says, or why it is refused
// `Book`       what a file says
// `Memory`     memory for all that the largest file says
// `OfList`     the orders that a file's list of kinds is made into
// `LONGEST_FILE`  how many bytes a file may have
#![tactic(auto)]

mod lines;
pub mod made;
pub mod memory;

pub use lines::reads::{Book, LONGEST_FILE, read_file};

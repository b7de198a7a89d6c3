// The grammar of lines, and the statements that a line gives.
//
// `Statement`, `Said`    one statement of a term, and the place of the word that it came from
//
// `specs/` has trees and their writing, what a tree says, what a line is refused for, and the test that the statements of
// every term keep; `proofs/` the theory of these, which the reader of lines rests on.
#![tactic(auto)]

pub mod statement;

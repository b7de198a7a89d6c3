// Cells of a case and what joins them, for every order.
//
// `Cell`      one cell: what it refers to, and its kind
// `join_law`  what joining two cells does, as a theorem in its contract
//
// `specs/` has the memory of cells and slots, joining, structures and the law; `proofs/` the theory, which the crates above go on with.
#![tactic(auto)]

pub mod cell;
pub mod law;

// Lines that declare kinds, and what declarations mean.
//
// `Name`                                the name of a kind, in memory of its own
// `break_at`, `name_end`, `word_end`    a line that declares a kind, byte by byte
//
// `specs/` has the grammar, the relation "at or under", the refusals of a line and the rows of bits;
// `proofs/` the theory, over the declarations and a limit, for every list of kinds.
#![tactic(auto)]

pub mod line;
pub mod name;

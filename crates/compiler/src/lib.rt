// Compiling: from the statements of a term to its instructions.
//
// `Entry`    the code of a term that is entered: one sequence
// `Rule`     the codes of a term that is matched: one sequence for reading, one for writing
//
// Memory is taken once, when an entry or a rule is made; `compile` fills it, or refuses and leaves all as it was. Only compiling makes
// codes: `specs/Entries.antt` and `specs/Rules.antt` have what is in an entry and in a rule. Which instructions the codes are is said in
// the crate `instructions`.
#![tactic(auto)]

mod codes;

pub use codes::{entry, rule};

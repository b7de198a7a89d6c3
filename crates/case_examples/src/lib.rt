// The engine at the kind list, at a pair and at a nested pair.
//
// `match_kinds`, `match_amounts`, `match_nested`   matching over these orders
//
// They are run in the tests of the crate `examples`.
#![tactic(auto)]

pub mod instances;

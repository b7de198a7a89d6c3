// The worked examples that follow forty pounds, as one table, settled by one proof.
//
// `worked_examples`    the table, as a theorem in its contract
#![tactic(auto)]

pub mod table;

// Instructions, the codes of a term, and what the codes do.
//
// `Instruction`, `Mode`    one instruction; whether the read code or the write code is run
// `codes_law`              that the codes do what the statements say, as a theorem in its contract
//
// `specs/` has the codes as functions of a term's statements, what each instruction does to the cells, and the law; `proofs/` shows that
// running the codes comes to performing the statements one by one.
#![tactic(auto)]

pub mod instruction;
pub mod law;

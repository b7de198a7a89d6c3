// The law of a run: what the answers of a case mean, for every order and every type of things.
//
// `law_of_runs`    the law, as a theorem in its contract
//
// `specs/` has facts, interpretations, the calls on a case, runs of calls and the law; `proofs/` the theory, which rests on the law of
// joining, on what comes of performing statements, and on codes doing what statements say.
#![tactic(auto)]

pub mod law;

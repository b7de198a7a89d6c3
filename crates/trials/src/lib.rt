// Every rule tried on every entry.
//
// `try_all`                   a case for each entry, in which all rules are matched in order: what comes of each
// `Trial`, `Outcome`          that: a kind, a clash or another refusal
// `put_trial`, `put_trials`   the text of one trial, and of all
//
// `specs/Trials.antt` says which trials these are, by what the calls on a case answer and leave; `specs/Shown.antt` has their text.
#![tactic(auto)]

mod memory;
pub mod text;
pub mod trial;

pub use memory::calls::rules::entries::try_all;

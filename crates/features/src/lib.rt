// The features that lines may use, declared one by one.
//
// `Features`    at most 16 features: `declare` adds one, `find` answers the number of one
#![tactic(auto)]

pub mod table;

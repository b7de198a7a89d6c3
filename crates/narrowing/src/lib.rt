// Narrowing: two kinds as texts on a line, and the widest kind that is both.
//
// `narrow`  the two kinds of a line and their common kind, or why the line is refused
// `report`  the same as a line of text
#![tactic(auto)]

mod line;
pub mod narrow;
pub mod report;

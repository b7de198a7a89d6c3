// What a line says, as text.
//
// `report`   the statements of a line that is read into a term, one to a line, or why the line is refused
// `Listing`  statements with the texts of an order and the names of features: `put_statement` adds one to a text
#![tactic(auto)]

pub mod report;
pub mod rows;

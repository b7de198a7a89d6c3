// Lists of kinds that a manager writes.
//
// `Draft`    kinds being declared, line by line; begins with `any`
// `List`     a closed draft: an order of kinds, and a written one
// `SHIPPED`  the list that comes with the matcher
#![tactic(auto)]

pub mod draft;
pub mod list;
mod table;

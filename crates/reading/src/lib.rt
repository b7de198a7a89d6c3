// Lines, read as far as no order of kinds is needed.
//
// `note_in`   notes what a line says, with its kinds by the places of their texts, or a refusal for reason 1, 2 or 3; `note` answers it
// `Reader`    goes over a line, term by term and list by list
// `Notes`     what it finds: the variables, the statements, the leftmost wrong word
// `Span`      a part of the line; `bytes_of` its bytes
#![tactic(auto)]

pub mod notes;
pub mod reader;
pub mod span;

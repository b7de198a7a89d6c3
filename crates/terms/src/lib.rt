// Terms: the statements of lines, with kinds of an order.
//
// `Term`    `read` fills it from a line, or refuses the line and leaves it as it was; and the questions on it
#![tactic(auto)]

pub mod term;

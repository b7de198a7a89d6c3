// Bands of amounts in whole pence, as an order of kinds that has texts.
//
// `Band`   a lowest and a highest amount
// `Bands`  the order of the bands: what lies within what
#![tactic(auto)]

pub mod band;
pub mod order;
mod reading;
mod spelling;
pub mod texts;

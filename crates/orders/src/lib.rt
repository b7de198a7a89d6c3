// Orders of kinds: what the matcher asks of one, how kinds are written, and pairs of orders.
//
// `Order`         the widest kind, and the common kind of two kinds
// `WrittenOrder`  an order that also reads and writes its kinds
// `Pair`          two orders as one, compared part by part
// `whole_kind`    the kind that has a text, all of it
// `is_text_byte`  whether a kind's text may have this byte
// `stop`, `put`   for those who implement `WrittenOrder`: where a text ends, and a text into memory
#![tactic(auto)]

pub mod order;
pub mod pair;
pub mod texts;
pub mod whole;

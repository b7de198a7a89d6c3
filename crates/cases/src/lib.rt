// A case on lent memory, for every order.
//
// `case::Case`            a case: how many cells and features it has, and how many cells are in use
// `open`                  opens a case
// `enter`                 enters a term: all of it is new
// `match_rule`            matches a rule at a cell
// `join_cells`            joins two cells
// `kind_at`, `leads_to`   the questions: the kind at a cell's end, and the end that a feature leads to
//
// Nothing here allocates: the order, cells, slots, pending pairs, the spare copy and the place list are parameters of each call.
// `specs/Calls.antt` says what each call answers and leaves of them, on every input; and each call's clause `law` that the law of a run,
// which says what the answers mean, holds at it, whatever calls came before.
//
// Below `store`, which has what all calls share, a module uses what stands above it: pairs are joined on the store, the machine's steps
// join pairs, the machine takes steps, and entering and matching run the machine. Only the calls named here are public.
#![tactic(auto)]

pub mod case;
mod store;

pub use store::asks::{kind_at, leads_to};
pub use store::opens::open;
pub use store::pairs::joins::join_cells;
pub use store::pairs::steps::machine::limits::enters::enter;
pub use store::pairs::steps::machine::limits::matches::match_rule;

// Closing a draft.
ghost use Rattle.std.specs.Prelude.{◌≡◌, ◌<◌, length, Result};
ghost use Rattle.refusals.specs.declared.Refusal.{Refusal};
ghost use Rattle.declarations.specs.Rows.{rows_of};
ghost use Rattle.declarations.specs.Rows.{meets as meeting};
ghost use Rattle.kinds.specs.Lists.{drafted, Closes, Closing};
ghost use Rattle.kinds.specs.Model.{kinds_of, FirstPast, FirstPair};

use crate::draft::Draft;
use crate::list::List;
use crate::table::Table;
use refusals::Refusal;

impl Draft {
    // Closes the draft and uses it up: the list becomes the order of its kinds. The rules fix the answer.
    #[tactic(auto, using(crate::proofs::Closed::one_outcome))]
    pub fn close(self, list: &mut List) -> Result<(), Refusal>
        ensures answer { Closes (drafted self) list.old list.new result }
        ensures fixed { (s : Result (Unit {0}) Refusal) (after : Closing) → Closes (drafted self) list.old after s → s ≡ result }
    {
        close_draft(self, list)
    }
}

// Fills the list where every two kinds meet.
fn close_draft(draft: Draft, list: &mut List) -> Result<(), Refusal>
    ensures { Closes (drafted draft) list.old list.new result }
{
    let Draft { table } = draft;
    if let Some((first, second)) = table.first_apart() {
        return Err(Refusal::NoWidest { first, second });
    }
    *list = List { table };
    Ok(())
}

impl Table {
    // The first pair that does not meet, lowest numbers first.
    fn first_apart(&self) -> Option<(usize, usize)>
        ensures { FirstPair (kinds_of self.now) result }
    {
        (0..self.len()).find_map(|first| Some((first, self.apart_from(first)?)))
    }

    // The first kind past this one with which it does not meet.
    fn apart_from(&self, first: usize) -> Option<usize>
        requires { first < length (kinds_of self.now) }
        ensures { FirstPast (kinds_of self.now) first result }
    {
        (first + 1..self.len()).find(|second| !self.meets(first, *second))
    }

    // Whether kinds under both, if there are any, have a widest among them.
    fn meets(&self, a: usize, b: usize) -> bool
        ensures { result ≡ meeting 64 (rows_of (kinds_of self.now)) a b }
    {
        let both = self.row(a) & self.row(b);
        both == 0 || self.row(both.trailing_zeros() as usize) == both
    }
}

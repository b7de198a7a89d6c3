// A list as an order of kinds.
ghost use Rattle.std.specs.Prelude.{◌≡◌};
ghost use Rattle.declarations.specs.Rows.{rows_of, lowest_in, stray_common, common_in};
ghost use Rattle.kinds.specs.Lists.{list_order};
ghost use Rattle.kinds.specs.Model.{kinds_of};

use super::List;
use crate::table::Table;
use orders::order::Order;

impl Order for List {
    // Kinds are declared while the program runs, and every number is one: an enum or a type with fewer numbers cannot have them.
    type Kind = usize;

    ghost meaning = { λ l. list_order l };

    fn widest(&self) -> usize {
        0
    }

    fn common(&self, a: usize, b: usize) -> Option<usize> {
        self.table.common_kind(a, b)
    }
}

impl Table {
    // The lowest kind that is in both rows.
    fn common_kind(&self, a: usize, b: usize) -> Option<usize>
        ensures { result ≡ common_in 64 (rows_of (kinds_of self.now)) a b }
    {
        if a >= self.len() || b >= self.len() {
            return common_stray(a, b);
        }
        lowest(self.row(a) & self.row(b))
    }
}

// The common kind where a number past the last kind is among the two: they are the same, or one is `any`.
fn common_stray(a: usize, b: usize) -> Option<usize>
    ensures { result ≡ stray_common a b }
{
    if a == b || b == 0 {
        Some(a)
    } else if a == 0 {
        Some(b)
    } else {
        None
    }
}

// The lowest kind of a row, if it has one.
fn lowest(row: u64) -> Option<usize>
    ensures { result ≡ lowest_in 64 row }
{
    if row == 0 {
        None
    } else {
        Some(row.trailing_zeros() as usize)
    }
}

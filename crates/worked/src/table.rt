// The table of worked examples, as the contract of a function that does nothing.
ghost use Rattle.std.specs.Prelude.{◌≡◌};
ghost use Rattle.worked.specs.Table.{Table};

// How many examples there are. That they come out as the table says is computed from the definitions of orders, lines, codes and calls.
pub fn worked_examples() -> usize
    ensures table { Table }
    ensures count { result ≡ 8 }
{
    8
}

// The worked examples that follow forty pounds, run against the code: an entry, a rule, and the answer.
use super::Step::{Enter, Match};
use super::{Step, take_in_new};
use kinds::list::shipped::shipped;
use refusals::Refusal::{Clash, Full};
use std::test::Fail;

// How many cells the case has, and the entry and the rule with their answers.
const ROWS: [(u8, [Step<usize>; 2]); 8] = [
    (
        8,
        [
            Enter(b"returned_dd", Ok(1)),
            Match(b"receipt", 0, Err(Clash { statement: 1 })),
        ],
    ),
    (8, [Enter(b"by_dd", Ok(1)), Match(b"returned", 0, Ok(1))]),
    (
        8,
        [
            Enter(b"any(paid=>by_dd,back=>returned)", Ok(3)),
            Match(b"any(paid=>Y,back=>Y)", 0, Ok(3)),
        ],
    ),
    (
        8,
        [
            Enter(b"any(paid=>returned_dd)", Ok(2)),
            Match(b"any(paid=>fee)", 0, Err(Clash { statement: 3 })),
        ],
    ),
    (
        8,
        [
            Enter(b"any(a=>any(f=>credit),b=>any(f=>debit))", Ok(5)),
            Match(b"any(a=>Y,b=>Y)", 0, Err(Clash { statement: 3 })),
        ],
    ),
    (
        4,
        [
            Enter(b"any", Ok(1)),
            Match(b"any(paid=>any,back=>any,for=>any)", 0, Ok(4)),
        ],
    ),
    (
        4,
        [
            Enter(b"any", Ok(1)),
            Match(b"any(paid=>any,back=>any,for=>any,next=>any)", 0, Err(Full)),
        ],
    ),
    (
        5,
        [
            Enter(b"any", Ok(1)),
            Match(b"any(paid=>any,back=>any,for=>any,next=>any)", 0, Ok(5)),
        ],
    ),
];

#[test]
fn the_worked_examples_come_out_as_the_table_says(rt: HostRuntime) -> Result<(), Fail> {
    let order = shipped();
    for (cells, steps) in &ROWS {
        take_in_new(&rt, &order, rt.alloc(), *cells, 8, steps)?;
    }
    Ok(())
}

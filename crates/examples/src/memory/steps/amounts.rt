// Cases over pairs: a kind and a band of amounts, and a kind and two bands.
use super::Step::{Enter, Kind, Leads, Match, Places};
use super::take_in_new;
use bands::band::Band;
use bands::order::Bands;
use kinds::list::shipped::shipped;
use orders::pair::{Both, Pair};
use refusals::Refusal::Clash;
use settings::amounts;
use std::test::Fail;

const BACK: usize = 1;

const fn band(low: i64, high: i64) -> Band {
    Band { low, high }
}

// Forty pounds that were sent back in parts.
#[test]
fn forty_pounds(rt: HostRuntime) -> Result<(), Fail> {
    let order = amounts();
    let steps = [
        Enter(b"debit/-4000..-4000(back=>debit/-4000..-1)", Ok(2)),
        Match(b"any/1..9", 0, Err(Clash { statement: 1 })),
        Match(b"debit/-5000..-1(back=>any/-4000..0)", 0, Ok(2)),
        Places(&[0, 1]),
        Kind(
            0,
            Ok(Both {
                first: 2,
                second: band(-4000, -4000),
            }),
        ),
        Leads(0, BACK, Ok(Some(1))),
        Kind(
            1,
            Ok(Both {
                first: 2,
                second: band(-4000, -1),
            }),
        ),
    ];
    take_in_new(&rt, &order, rt.alloc(), 16, 2, &steps)
}

#[test]
fn a_kind_and_two_bands(rt: HostRuntime) -> Result<(), Fail> {
    let order = Pair {
        first: shipped(),
        second: Pair {
            first: Bands,
            second: Bands,
        },
    };
    let narrowed = Both {
        first: 6,
        second: Both {
            first: band(0, 5),
            second: band(3, 9),
        },
    };
    let steps = [
        Enter(b"debit/-5..5/0..9", Ok(1)),
        Match(b"any/0..9/10..20", 0, Err(Clash { statement: 1 })),
        Match(b"returned/0..9/3..20", 0, Ok(1)),
        Kind(0, Ok(narrowed)),
    ];
    take_in_new(&rt, &order, rt.alloc(), 4, 1, &steps)
}

// The list that comes with the matcher.
ghost use Rattle.std.specs.Prelude.{◌≡◌, map, Ok};
ghost use Rattle.kinds.specs.Lists.{listing};
ghost use Rattle.kinds.specs.Shipped.{shipped as shipped_kinds};
ghost use Rattle.kinds.specs.Shipped.{shipped_lines};

use super::List;
use crate::draft::Draft;
use crate::table::{ANY_NAME, Kind, Table, UNUSED};
use declarations::name::Name;
use refusals::Refusal;
use short_lists::ShortList;

// `any`, with all ten kinds at or under it.
const WIDEST: Kind = Kind {
    name: ANY_NAME,
    wider: 0,
    row: 1023,
};

const CREDIT: Kind = Kind {
    name: Name {
        text: ShortList {
            room: *b"credit\0\0\0\0\0\0\0\0\0\0\0\0\0\0\0\0\0\0",
            len: 6,
        },
    },
    wider: 1,
    row: 306,
};

const DEBIT: Kind = Kind {
    name: Name {
        text: ShortList {
            room: *b"debit\0\0\0\0\0\0\0\0\0\0\0\0\0\0\0\0\0\0\0",
            len: 5,
        },
    },
    wider: 1,
    row: 708,
};

const BY_DD: Kind = Kind {
    name: Name {
        text: ShortList {
            room: *b"by_dd\0\0\0\0\0\0\0\0\0\0\0\0\0\0\0\0\0\0\0",
            len: 5,
        },
    },
    wider: 1,
    row: 392,
};

const RECEIPT: Kind = Kind {
    name: Name {
        text: ShortList {
            room: *b"receipt\0\0\0\0\0\0\0\0\0\0\0\0\0\0\0\0\0",
            len: 7,
        },
    },
    wider: 2,
    row: 304,
};

const RENT: Kind = Kind {
    name: Name {
        text: ShortList {
            room: *b"rent\0\0\0\0\0\0\0\0\0\0\0\0\0\0\0\0\0\0\0\0",
            len: 4,
        },
    },
    wider: 16,
    row: 288,
};

const RETURNED: Kind = Kind {
    name: Name {
        text: ShortList {
            room: *b"returned\0\0\0\0\0\0\0\0\0\0\0\0\0\0\0\0",
            len: 8,
        },
    },
    wider: 4,
    row: 192,
};

const RETURNED_DD: Kind = Kind {
    name: Name {
        text: ShortList {
            room: *b"returned_dd\0\0\0\0\0\0\0\0\0\0\0\0\0",
            len: 11,
        },
    },
    wider: 72,
    row: 128,
};

const RENT_DD: Kind = Kind {
    name: Name {
        text: ShortList {
            room: *b"rent_dd\0\0\0\0\0\0\0\0\0\0\0\0\0\0\0\0\0",
            len: 7,
        },
    },
    wider: 40,
    row: 256,
};

const FEE: Kind = Kind {
    name: Name {
        text: ShortList {
            room: *b"fee\0\0\0\0\0\0\0\0\0\0\0\0\0\0\0\0\0\0\0\0\0",
            len: 3,
        },
    },
    wider: 4,
    row: 512,
};

// Ten kinds: 1 `credit any`, 2 `debit any`, 3 `by_dd any`, 4 `receipt credit`, 5 `rent receipt`, 6 `returned debit`,
// 7 `returned_dd returned by_dd`, 8 `rent_dd rent by_dd`, 9 `fee debit`.
pub const SHIPPED: List = List {
    table: Table {
        kinds: ShortList {
            room: [
                WIDEST,
                CREDIT,
                DEBIT,
                BY_DD,
                RECEIPT,
                RENT,
                RETURNED,
                RETURNED_DD,
                RENT_DD,
                FEE,
                UNUSED,
                UNUSED,
                UNUSED,
                UNUSED,
                UNUSED,
                UNUSED,
                UNUSED,
                UNUSED,
                UNUSED,
                UNUSED,
                UNUSED,
                UNUSED,
                UNUSED,
                UNUSED,
                UNUSED,
                UNUSED,
                UNUSED,
                UNUSED,
                UNUSED,
                UNUSED,
                UNUSED,
                UNUSED,
                UNUSED,
                UNUSED,
                UNUSED,
                UNUSED,
                UNUSED,
                UNUSED,
                UNUSED,
                UNUSED,
                UNUSED,
                UNUSED,
                UNUSED,
                UNUSED,
                UNUSED,
                UNUSED,
                UNUSED,
                UNUSED,
                UNUSED,
                UNUSED,
                UNUSED,
                UNUSED,
                UNUSED,
                UNUSED,
                UNUSED,
                UNUSED,
                UNUSED,
                UNUSED,
                UNUSED,
                UNUSED,
                UNUSED,
                UNUSED,
                UNUSED,
                UNUSED,
            ],
            len: 10,
        },
    },
};

// The constant, whose facts are proved here.
fn listed() -> List
    ensures { listing result ≡ shipped_kinds }
{
    SHIPPED
}

// The shipped list as a value of its own.
pub fn shipped() -> List
    ensures { listing result ≡ shipped_kinds }
{
    listed()
}

// The lines of the shipped kinds, from the first one past `any`.
const LINES: [&[u8]; 9] = [
    b"credit any",
    b"debit any",
    b"by_dd any",
    b"receipt credit",
    b"rent receipt",
    b"returned debit",
    b"returned_dd returned by_dd",
    b"rent_dd rent by_dd",
    b"fee debit",
];

// Declares these lines in a new draft and closes it.
fn declare_lines(lines: &[&[u8]], list: &mut List) -> Result<(), Refusal>
    requires { map (λ line. line.now) lines.now ≡ shipped_lines }
    ensures answer { result ≡ Ok tt }
    ensures after { listing list.new ≡ shipped_kinds }
{
    let mut draft = Draft::new();
    for line in lines {
        draft.declare(line)?;
    }
    draft.close(list)
}

// Fills a list by declaring the nine lines and closing: what comes of it is the shipped list.
pub fn declare_shipped(list: &mut List) -> Result<(), Refusal>
    ensures answer { result ≡ Ok tt }
    ensures after { listing list.new ≡ shipped_kinds }
{
    declare_lines(&LINES, list)
}

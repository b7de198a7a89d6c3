// Drafts, closing and lists.
use kinds::draft::Draft;
use kinds::list::shipped::{declare_shipped, shipped};
use orders::order::Order;
use orders::texts::WrittenOrder;
use refusals::Refusal;
use std::test::Fail;

// The kinds of the shipped list by their numbers.
const ANY: usize = 0;

const BY_DD: usize = 3;

const RECEIPT: usize = 4;

const RETURNED: usize = 6;

const RETURNED_DD: usize = 7;

// The common kind of two kinds of the shipped list.
fn common(a: usize, b: usize) -> Option<usize> {
    shipped().common(a, b)
}

#[test]
fn direct_debit_and_returned_have_returned_direct_debit(rt: HostRuntime) {
    for (a, b, both) in [
        (BY_DD, RETURNED, Some(RETURNED_DD)),
        (RETURNED_DD, RECEIPT, None),
        (RECEIPT, ANY, Some(RECEIPT)),
    ] {
        assert!(rt; common(a, b) == both);
    }
}

#[test]
fn a_number_past_the_last_kind_meets_itself_and_any(rt: HostRuntime) {
    for (a, b, both) in [
        (77, 77, Some(77)),
        (ANY, 77, Some(77)),
        (77, BY_DD, None),
        (10, 63, None),
    ] {
        assert!(rt; common(a, b) == both);
    }
}

#[test]
fn closing_is_refused_for_the_first_pair_and_leaves_the_list(rt: HostRuntime) {
    let mut draft = Draft::new();
    let declared = [
        draft.declare(b"a any"),
        draft.declare(b"b any"),
        draft.declare(b"c a b"),
        draft.declare(b"d a b"),
    ];
    let mut list = shipped();
    let closed = draft.close(&mut list);
    let refused = Err(Refusal::NoWidest {
        first: 1,
        second: 2,
    });
    assert!(rt;
        declared == [Ok(1), Ok(2), Ok(3), Ok(4)]
            && closed == refused
            && list.common(BY_DD, RETURNED) == Some(RETURNED_DD)
    );
}

#[test]
fn a_closed_draft_is_an_order(rt: HostRuntime) {
    let mut draft = Draft::new();
    let declared = [
        draft.declare(b"a any"),
        draft.declare(b"b any any"),
        draft.declare(b"c b a b"),
    ];
    let mut list = shipped();
    let closed = draft.close(&mut list);
    assert!(rt;
        declared == [Ok(1), Ok(2), Ok(3)]
            && closed == Ok(())
            && list.common(1, 2) == Some(3)
            && [list.read(b"c/1..2"), list.read(b"rent")] == [Some((3, 1)), None]
    );
}

// What closing a draft of these lines answers.
fn closing(lines: &[&str]) -> Result<(), Refusal> {
    let mut draft = Draft::new();
    for line in lines {
        draft.declare(line.as_bytes())?;
    }
    let mut list = shipped();
    draft.close(&mut list)
}

#[test]
fn what_is_both_is_declared_first(rt: HostRuntime) {
    let second = Err(Refusal::NoWidest {
        first: 2,
        second: 3,
    });
    let refund = Err(Refusal::NoWidest {
        first: 1,
        second: 3,
    });
    for (lines, closed) in [
        (["a any", "b any", "both a b", "c both", "d both"], Ok(())),
        (["a any", "b any", "c any", "d b c", "e b c"], second),
        (
            [
                "credit any",
                "debit any",
                "by_dd any",
                "rent_dd credit by_dd",
                "refund_dd credit by_dd",
            ],
            refund,
        ),
    ] {
        assert!(rt; closing(&lines) == closed);
    }
}

#[test]
fn a_name_is_read_up_to_where_texts_stop(rt: HostRuntime) {
    let list = shipped();
    for (text, read) in [
        ("rent/1..9", Some((5, 4))),
        ("rent(x", Some((5, 4))),
        ("rent_dd", Some((8, 7))),
        ("rent-x", None),
        ("Rent", None),
        ("", None),
    ] {
        assert!(rt; list.read(text.as_bytes()) == read);
    }
}

#[test]
fn declaring_the_shipped_lines_gives_the_shipped_list(rt: HostRuntime) {
    let mut list = shipped();
    let declared = declare_shipped(&mut list);
    assert!(rt; declared == Ok(()) && list.read(b"returned_dd") == Some((RETURNED_DD, 11)));
}

// What a draft with the kinds `a` and `b` answers to a line.
fn third(line: &[u8]) -> Result<usize, Refusal> {
    let mut draft = Draft::new();
    draft.declare(b"a any")?;
    draft.declare(b"b any")?;
    draft.declare(line)
}

#[test]
fn lines_against_the_rules_are_refused_where_the_table_says(rt: HostRuntime) {
    for (line, refusal) in [
        ("", Refusal::Grammar { place: 0 }),
        ("c", Refusal::Grammar { place: 1 }),
        ("c ", Refusal::Grammar { place: 2 }),
        ("C any", Refusal::Grammar { place: 0 }),
        ("1c any", Refusal::Grammar { place: 0 }),
        ("c  any", Refusal::Grammar { place: 2 }),
        ("c any ", Refusal::Grammar { place: 6 }),
        ("c a-b", Refusal::Grammar { place: 3 }),
        (" c any", Refusal::Grammar { place: 0 }),
        ("a any", Refusal::Word { place: 0 }),
        ("any any", Refusal::Word { place: 0 }),
        ("b loan", Refusal::Word { place: 0 }),
        ("c loan", Refusal::Word { place: 2 }),
        ("c any loan any", Refusal::Word { place: 6 }),
        ("c c", Refusal::Word { place: 2 }),
    ] {
        assert!(rt; third(line.as_bytes()) == Err(refusal));
    }
}

#[test]
fn names_have_at_most_24_bytes_up_to_where_the_grammar_fails(rt: HostRuntime) {
    let limit = Err(Refusal::Limit { place: 0 });
    for (line, declared) in [
        ("abcdefghijklmnopqrstuvwx any", Ok(3)),
        ("abcdefghijklmnopqrstuvwxy any", limit),
        ("abcdefghijklmnopqrstuvwxy", limit),
        ("abcdefghijklmnopqrstuvwxy!", limit),
        (
            "abcdefghij!klmnopqrstuvwxyz",
            Err(Refusal::Grammar { place: 10 }),
        ),
        // a wider kind of over 24 bytes is one that nobody declared
        (
            "c abcdefghijklmnopqrstuvwxyz",
            Err(Refusal::Word { place: 2 }),
        ),
    ] {
        assert!(rt; third(line.as_bytes()) == declared);
    }
}

#[test]
fn a_list_has_at_most_63_declared_kinds(rt: HostRuntime) -> Result<(), Fail> {
    let mut draft = Draft::new();
    for i in 0..63usize {
        let line = format!(in rt.alloc(); "k{i:02} any")?;
        assert!(rt; draft.declare(line.as_bytes()) == Ok(i + 1));
    }
    for (line, refusal) in [
        ("one_more any", Refusal::Limit { place: 0 }),
        ("k00 any", Refusal::Limit { place: 0 }),
        ("against  any", Refusal::Grammar { place: 8 }),
    ] {
        assert!(rt; draft.declare(line.as_bytes()) == Err(refusal));
    }
    Ok(())
}

#[test]
fn a_line_has_at_most_1000_bytes(rt: HostRuntime) {
    // `cc` and 249 times ` any`: 998 bytes, and then blanks
    let mut line = [b' '; 1001];
    line[..2].copy_from_slice(b"cc");
    for word in line[2..998].chunks_exact_mut(4) {
        word.copy_from_slice(b" any");
    }
    let declared = [
        third(&line[0..998]),
        third(&line[0..1000]),
        third(&line[0..1001]),
    ];
    let grammar = Err(Refusal::Grammar { place: 999 });
    let limit = Err(Refusal::Limit { place: 0 });
    assert!(rt; declared == [Ok(3), grammar, limit]);
}

#[test]
fn a_name_is_written_where_it_fits(rt: HostRuntime) {
    let list = shipped();
    let rent = RECEIPT + 1;
    let mut long = [b'?'; 6];
    let mut exact = [b'?'; 4];
    let written = [
        list.write(rent, &mut long),
        list.write(rent, &mut exact),
        list.write(rent, &mut [0; 3]),
        list.write(rent, &mut []),
        list.write(77, &mut long),
    ];
    assert!(rt; written == [4, 4, 0, 0, 0] && long == *b"rent??" && exact == *b"rent");
}

// Refusals, kinds and statements as the programs print them.
use bands::band::Band;
use bands::order::Bands;
use grammar::statement::Statement;
use listing::rows::Listing;
use refusals::Refusal;
use settings::features;
use showing::{put_kind, put_refusal};
use std::alloc::{AllocError, Global};
use std::test::Fail;

#[test]
fn a_refusal_is_its_number_and_its_values(rt: HostRuntime) -> Result<(), Fail> {
    let pair = Refusal::NoWidest {
        first: 1,
        second: 2,
    };
    let printed = [
        (Refusal::Limit { place: 0 }, "1 0"),
        (Refusal::Grammar { place: 17 }, "2 17"),
        (Refusal::Word { place: 9 }, "3 9"),
        (Refusal::Kind { place: 19 }, "4 19"),
        (pair, "5 1 2"),
        (Refusal::Memory, "6"),
        (Refusal::Cell, "7"),
        (Refusal::Feature, "8"),
        (Refusal::Full, "9"),
        (Refusal::Clash { statement: 3 }, "10 3"),
    ];
    for (refusal, text) in printed {
        assert!(rt; refusal.to_string(rt.alloc())?.as_str() == text);
    }
    Ok(())
}

#[test]
fn a_kind_is_added_to_a_text_or_a_question_mark(rt: HostRuntime) -> Result<(), Fail> {
    let mut text = Vec::new(rt.alloc());
    put_kind(&Bands, Band { low: -4, high: 9 }, &mut text)?;
    text.push(b' ')?;
    // not a band, so it has no text
    put_kind(&Bands, Band { low: 9, high: -4 }, &mut text)?;
    assert!(rt; text.as_slice() == b"-4..9 ?".as_slice());
    Ok(())
}

#[test]
fn a_refusal_is_added_to_a_text(rt: HostRuntime) -> Result<(), Fail> {
    let mut text = Vec::from_slice(rt.alloc(), b"line 7: ")?;
    put_refusal(Refusal::Grammar { place: 17 }, &mut text, rt.alloc())?;
    assert!(rt; text.as_slice() == b"line 7: refused 2 17".as_slice());
    Ok(())
}

// The text of a statement over bands and the programs' features.
fn statement_text(statement: Statement<Band>, heap: Global) -> Result<Vec<u8>, AllocError> {
    let listing = Listing {
        order: &Bands,
        features: &features(),
    };
    let mut text = Vec::new(heap);
    listing.put_statement(statement, &mut text)?;
    Ok(text)
}

#[test]
fn a_statement_is_added_to_a_text(rt: HostRuntime) -> Result<(), Fail> {
    let kind = Statement::Kind {
        variable: 0,
        kind: Band { low: 1, high: 9 },
    };
    let back = Statement::Feature {
        variable: 0,
        feature: 1,
        value: 1,
    };
    let last = Statement::Feature {
        variable: usize::MAX,
        feature: 7,
        value: 0,
    };
    for (statement, text) in [
        (kind, "X1:1..9"),
        (back, "X1.back=X2"),
        (last, "X18446744073709551616.?=X1"),
    ] {
        assert!(rt; statement_text(statement, rt.alloc())?.as_slice() == text.as_bytes());
    }
    Ok(())
}

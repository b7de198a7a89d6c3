// Narrowing two kinds on a line.
use bands::order::Bands;
use narrowing::report::report;
use orders::pair::Pair;
use settings::amounts;
use std::test::Fail;

const TWO: Pair<Bands, Bands> = Pair {
    first: Bands,
    second: Bands,
};

#[test]
fn returned_by_direct_debit(rt: HostRuntime) -> Result<(), Fail> {
    let text = report(&amounts(), b"by_dd/-10..0 returned/-5..5", rt.alloc())?;
    assert!(rt;
        text.as_slice() == b"by_dd/-10..0 and returned/-5..5: returned_dd/-5..0".as_slice()
    );
    Ok(())
}

#[test]
fn kinds_that_meet(rt: HostRuntime) -> Result<(), Fail> {
    for (line, text) in [
        (
            "1..9/0..0 5..20/-1..1",
            "1..9/0..0 and 5..20/-1..1: 5..9/0..0",
        ),
        (
            "1..9/0..0 5..20/1..1",
            "1..9/0..0 and 5..20/1..1: nothing can be both",
        ),
    ] {
        assert!(rt; report(&TWO, line.as_bytes(), rt.alloc())?.as_slice() == text.as_bytes());
    }
    Ok(())
}

#[test]
fn lines_that_are_refused(rt: HostRuntime) -> Result<(), Fail> {
    let long = [b'1'; 1001];
    for (line, text) in [
        (long.as_slice(), "refused 1 0"),
        (&long[..1000], "refused 2 1000"),
        (&[b'1', 255], "refused 2 1"),
        (b"1..9 1..9/1..9", "refused 4 0"),
        (b"1..9/1..9 1..9/1..9/1..9", "refused 4 10"),
    ] {
        assert!(rt; report(&TWO, line, rt.alloc())?.as_slice() == text.as_bytes());
    }
    Ok(())
}

// Reading lines into terms, and what can be asked of a term.
use bands::band::Band;
use bands::order::Bands;
use features::table::Features;
use grammar::statement::Statement;
use orders::texts::WrittenOrder;
use refusals::Refusal;
use std::test::Fail;
use terms::term::Term;

// The features `paid` and `back`.
fn two() -> Result<Features, Fail> {
    let mut features = Features::new();
    if [features.declare(b"paid"), features.declare(b"back")] != [Ok(0), Ok(1)] {
        return Err(Fail::new("a feature is refused"));
    }
    Ok(features)
}

// The statement that the variable is at or under the band.
fn band(variable: usize, low: i64, high: i64) -> Statement<Band> {
    Statement::Kind {
        variable,
        kind: Band { low, high },
    }
}

fn feature(variable: usize, feature: usize, value: usize) -> Statement<Band> {
    Statement::Feature {
        variable,
        feature,
        value,
    }
}

#[test]
fn a_new_term_is_that_of_a_bare_name(rt: HostRuntime) -> Result<(), Fail> {
    let term: Term<Band> = Term::new(rt.alloc(), 3)?;
    assert!(rt;
        [term.room(), term.statements(), term.variables()] == [3, 0, 1]
            && term.statement(1) == None
            && [term.depth(0), term.depth(1)] == [Some(0), None]
    );
    Ok(())
}

#[test]
fn a_line_is_read_with_its_places_and_depths(rt: HostRuntime) -> Result<(), Fail> {
    let mut term = Term::new(rt.alloc(), 399)?;
    let read = term.read(&Bands, &two()?, b"-4..-4(paid=>X:1..9(back=>Y),back=>Y)");
    let sizes = [
        term.statements(),
        term.said().len(),
        term.features(),
        term.variables(),
    ];
    let statements = [
        term.statement(0),
        term.statement(1),
        term.statement(2),
        term.statement(3),
        term.statement(4),
        term.statement(5),
        term.statement(6),
    ];
    let stated = [
        None,
        Some(band(0, -4, -4)),
        Some(feature(0, 0, 1)),
        Some(band(1, 1, 9)),
        Some(feature(1, 1, 2)),
        Some(feature(0, 1, 2)),
        None,
    ];
    let places = [
        term.place(1),
        term.place(2),
        term.place(3),
        term.place(4),
        term.place(5),
    ];
    let depths = [term.depth(1), term.depth(2), term.depth(3)];
    assert!(rt;
        read == Ok(())
            && sizes == [5, 5, 2, 3]
            && statements == stated
            && places == [Some(0), Some(7), Some(15), Some(20), Some(29)]
            && term.depths() == [0, 1, 2].as_slice()
            && depths == [Some(1), Some(2), None]
    );
    Ok(())
}

#[test]
fn a_refused_line_leaves_the_term(rt: HostRuntime) -> Result<(), Fail> {
    let features = two()?;
    let mut term = Term::new(rt.alloc(), 3)?;
    for (line, read) in [
        ("1..9(paid=>2..3)", Ok(())),
        ("1..9(", Err(Refusal::Grammar { place: 5 })),
        ("1..9(loan=>Y)", Err(Refusal::Word { place: 5 })),
        ("9..1", Err(Refusal::Kind { place: 0 })),
    ] {
        assert!(rt; term.read(&Bands, &features, line.as_bytes()) == read);
    }
    assert!(rt; term.statement(3) == Some(band(1, 2, 3)) && term.place(3) == Some(11));
    Ok(())
}

#[test]
fn a_line_with_more_statements_than_there_is_room_for(rt: HostRuntime) -> Result<(), Fail> {
    let features = two()?;
    let mut term = Term::new(rt.alloc(), 2)?;
    let read = [
        term.read(&Bands, &features, b"1..9(paid=>Y)"),
        term.read(&Bands, &features, b"1..9(paid=>2..3)"),
    ];
    assert!(rt;
        read == [Ok(()), Err(Refusal::Memory)]
            && term.statements() == 2
            && term.statement(2) == Some(feature(0, 0, 1))
    );
    Ok(())
}

// Bands: what two have in common, and their texts.
use bands::band::{Band, LIMIT, WIDEST};
use bands::order::Bands;
use orders::order::Order;
use orders::texts::WrittenOrder;

fn band(low: i64, high: i64) -> Band {
    Band { low, high }
}

#[test]
fn common_bands(rt: HostRuntime) {
    // the ends of this one are no band's
    let none = band(1, 0);
    for (a, b, both) in [
        (band(-10, 0), band(0, 5), Some(band(0, 0))),
        (band(-10, -1), band(0, 5), None),
        (none, WIDEST, Some(none)),
        (none, band(0, 5), None),
    ] {
        assert!(rt; Bands.common(a, b) == both);
    }
}

#[test]
fn texts_that_are_read(rt: HostRuntime) {
    for (text, read) in [
        ("0..0", (band(0, 0), 4)),
        ("-4000..-1", (band(-4000, -1), 9)),
        ("-1000000000000..1000000000000", (band(-LIMIT, LIMIT), 29)),
        ("5..9/a", (band(5, 9), 4)),
    ] {
        assert!(rt; Bands.read(text.as_bytes()) == Some(read));
    }
}

#[test]
fn texts_that_are_not_read(rt: HostRuntime) {
    for text in [
        "",
        "..",
        "5..",
        "..5",
        "+5..9",
        "05..9",
        "-0..1",
        "9..5",
        "1..2..3",
        "5..9a",
        "100000000000000000000000000000..5",
        "0..1000000000001",
    ] {
        assert!(rt; Bands.read(text.as_bytes()).is_none());
    }
}

#[test]
fn texts_that_are_written(rt: HostRuntime) {
    let mut memory = [b'#'; 9];
    let written = [
        Bands.write(band(-4000, -1), &mut memory),
        Bands.write(band(-4000, -1), &mut [0; 8]),
        Bands.write(band(-4000, -1), &mut []),
        Bands.write(band(1, 0), &mut memory),
    ];
    assert!(rt; written == [9, 0, 0, 0] && memory == *b"-4000..-1");
}

// What the programs read lines with.
use bands::band::Band;
use orders::pair::Both;
use orders::texts::{WrittenOrder, is_text_byte};
use settings::{amounts, features};

#[test]
fn the_programs_read_kinds_with_amounts(rt: HostRuntime) {
    let rent = Both {
        first: 8,
        second: Band {
            low: 4000,
            high: 4000,
        },
    };
    assert!(rt; amounts().read(b"rent_dd/4000..4000") == Some((rent, 18)));
}

#[test]
fn the_programs_have_seven_features(rt: HostRuntime) {
    let features = features();
    for (name, number) in [
        ("paid", Some(0)),
        ("back", Some(1)),
        ("for", Some(2)),
        ("next", Some(3)),
        ("a", Some(4)),
        ("b", Some(5)),
        ("f", Some(6)),
        ("loan", None),
    ] {
        assert!(rt; features.find(name.as_bytes()) == number);
    }
    assert!(rt; features.len() == 7);
}

#[test]
fn texts_have_small_letters_digits_and_four_signs(rt: HostRuntime) {
    for byte in b"amz059_-./" {
        assert!(rt; is_text_byte(*byte));
    }
    for byte in b"AZ :,()=>\t\0\xff" {
        assert!(rt; !is_text_byte(*byte));
    }
}

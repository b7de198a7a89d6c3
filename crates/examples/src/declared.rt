// Declaring features.
use features::table::Features;
use refusals::Refusal;

// Whether the feature with this number has this name.
fn is_named(features: &Features, feature: usize, name: &[u8]) -> bool {
    match features.name(feature) {
        Some(held) => held.is(name),
        None => false,
    }
}

#[test]
fn features_are_numbered_in_turn(rt: HostRuntime) {
    let mut features = Features::new();
    let declared = [features.declare(b"paid"), features.declare(b"back")];
    let found = [
        features.find(b"back"),
        features.find(b"bac"),
        features.find(b"backs"),
    ];
    assert!(rt;
        declared == [Ok(0), Ok(1)]
            && features.len() == 2
            && found == [Some(1), None, None]
            && is_named(&features, 1, b"back")
            && features.name(2).is_none()
    );
}

#[test]
fn a_refused_feature_leaves_the_rest(rt: HostRuntime) {
    let mut features = Features::new();
    for (name, declared) in [
        ("paid", Ok(0)),
        ("paid", Err(Refusal::Word { place: 0 })),
        ("", Err(Refusal::Grammar { place: 0 })),
        ("pay-in", Err(Refusal::Grammar { place: 3 })),
        (
            "abcdefghijklmnopqrstuvwxy",
            Err(Refusal::Limit { place: 0 }),
        ),
        (
            "abcdefghij!klmnopqrstuvwxyz",
            Err(Refusal::Grammar { place: 10 }),
        ),
    ] {
        assert!(rt; features.declare(name.as_bytes()) == declared);
    }
    assert!(rt; features.len() == 1 && features.declare(b"abcdefghijklmnopqrstuvwx") == Ok(1));
}

#[test]
fn there_are_at_most_16_features(rt: HostRuntime) {
    let mut features = Features::new();
    for last in b"abcdefghijklmnop" {
        assert!(rt; features.declare(&[b'f', *last]).is_ok());
    }
    let full = features.len();
    for (name, refusal) in [
        ("one_more", Refusal::Limit { place: 0 }),
        ("fa", Refusal::Limit { place: 0 }),
        ("Fa", Refusal::Grammar { place: 0 }),
    ] {
        assert!(rt; features.declare(name.as_bytes()) == Err(refusal));
    }
    assert!(rt; full == 16 && features.find(b"fp") == Some(15));
}

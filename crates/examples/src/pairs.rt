// Pairs, and pairs of pairs.
use bands::band::Band;
use bands::order::Bands;
use orders::order::Order;
use orders::pair::{Both, Pair};
use orders::texts::WrittenOrder;
use settings::amounts;

fn kind(number: usize, low: i64, high: i64) -> Both<usize, Band> {
    Both {
        first: number,
        second: Band { low, high },
    }
}

#[test]
fn a_pair_is_compared_part_by_part(rt: HostRuntime) {
    let order = amounts();
    let by_dd = kind(3, -4000, -4000);
    for (a, b, both) in [
        // by direct debit, and sent back between one penny and fifty pounds
        (by_dd, kind(6, -5000, -1), Some(kind(7, -4000, -4000))),
        // the amounts do not meet
        (by_dd, kind(6, 1, 9), None),
        // the kinds do not meet
        (kind(7, -4000, -4000), kind(4, -5000, 5000), None),
    ] {
        assert!(rt; order.common(a, b) == both);
    }
}

#[test]
fn a_pair_is_read_in_turn(rt: HostRuntime) {
    let order = amounts();
    for (text, read) in [
        ("debit/-4000..-4000", Some((kind(2, -4000, -4000), 18))),
        (
            "debit/-4000..-4000(back=>Y)",
            Some((kind(2, -4000, -4000), 18)),
        ),
        ("any/1..9/rest", Some((kind(0, 1, 9), 8))),
        ("debit", None),
        ("debit/", None),
        ("debit,1..9", None),
        ("loan/1..9", None),
        ("debit/1..9..", None),
    ] {
        assert!(rt; order.read(text.as_bytes()) == read);
    }
}

#[test]
fn a_pair_is_written_where_both_parts_fit(rt: HostRuntime) {
    let order = amounts();
    let fee = kind(9, 1, 9);
    let mut long = [b'?'; 10];
    let written = [
        order.write(fee, &mut long),
        order.write(fee, &mut [0; 8]),
        order.write(fee, &mut [0; 7]),
        order.write(fee, &mut [0; 3]),
        order.write(fee, &mut []),
        order.write(kind(9, 9, 1), &mut long),
    ];
    assert!(rt; written == [8, 8, 0, 0, 0, 0] && long == *b"fee/1..9??");
}

// Reads two kinds, and writes what they have in common: the bytes of the three texts. None also where the first is not what it and the
// widest have in common.
fn met<O: WrittenOrder>(order: &O, a: &[u8], b: &[u8], memory: &mut [u8]) -> Option<[usize; 3]>
where
    O::Kind: PartialEq,
{
    let (first, a_len) = order.read(a)?;
    let (second, b_len) = order.read(b)?;
    if order.common(first, order.widest()) != Some(first) {
        return None;
    }
    let both = order.common(first, second)?;
    Some([a_len, b_len, order.write(both, memory)])
}

#[test]
fn pairs_of_pairs_are_orders_too(rt: HostRuntime) {
    let order = Pair {
        first: amounts(),
        second: Pair {
            first: Bands,
            second: amounts(),
        },
    };
    let line = b"by_dd/-10..0/0..5/returned/1..1";
    let other = b"returned/0..5/3..9/by_dd/0..99";
    let mut memory = [b'?'; 40];
    let read = met(&order, line, other, &mut memory);
    assert!(rt;
        read == Some([31, 30, 38]) && memory == *b"returned_dd/0..0/3..5/returned_dd/1..1??"
    );
}

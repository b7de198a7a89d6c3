// Files, and the text that answers them.
use answering::{answer, answer_input};
use bands::order::Bands;
use kinds::list::List;
use orders::pair::Pair;
use std::test::Fail;

// Forty pounds that were sent back in parts: no payment that came in, but a return of some earlier one.
#[test]
fn with_amounts(rt: HostRuntime) -> Result<(), Fail> {
    let file =
        b"2\ncredit any\ndebit any\n1\nback\n1\ndebit/-4000..-4000(back=>debit/-4000..-1)\n2\nany/1..9\ndebit/-5000..-1(back=>any/-4000..0)\n";
    let text = answer::<_, Pair<List, Bands>>(file.as_slice(), rt.alloc())?;
    assert!(rt; text.as_slice() == b"1 1 no 1\n1 2 yes debit/-4000..-4000\n".as_slice());
    Ok(())
}

// By the list of kinds alone. A rule that is accepted narrows what the next one sees; each entry begins anew.
#[test]
fn with_kinds_alone(rt: HostRuntime) -> Result<(), Fail> {
    let file = b"3\npaid any\nlate paid\nearly paid\n0\n2\nany\nlate\n2\nearly\nlate\n";
    let text = answer::<_, List>(file.as_slice(), rt.alloc())?;
    assert!(rt; text.as_slice() == b"1 1 yes early\n1 2 no 1\n2 1 no 1\n2 2 yes late\n".as_slice());
    Ok(())
}

// A refused file is answered by the number of the reason and its values; a place counts from the file's start.
#[test]
fn refused_files(rt: HostRuntime) -> Result<(), Fail> {
    let files: [(&[u8], &[u8]); 8] = [
        (b"", b"file refused 2 0\n"),
        (b"64\n", b"file refused 1 0\n"),
        (b"64x\n", b"file refused 2 2\n"),
        (b"1\na loan\n", b"file refused 3 4\n"),
        (b"4\na any\nb any\nc a b\nd a b\n", b"file refused 5 1 2\n"),
        (b"1\na any\n0\n1\nb\n", b"file refused 4 12\n"),
        (b"0\n0\n0\n0", b"file refused 2 7\n"),
        (b"0\n0\n0\n0\n\n", b"file refused 2 8\n"),
    ];
    for (file, answered) in files {
        let text = answer::<_, List>(file, rt.alloc())?;
        assert!(rt; text.as_slice() == answered);
    }
    Ok(())
}

// An input is read whole. Of one that is longer than a file may be, only that is told.
#[test]
fn inputs_up_to_their_length_and_past_it(rt: HostRuntime) -> Result<(), Fail> {
    let inputs: [(usize, &[u8]); 3] = [
        (60_000, b"file refused 2 0\n"),
        (60_001, b"file refused 1 0\n"),
        (70_000, b"file refused 1 0\n"),
    ];
    for (length, answered) in inputs {
        let input = vec![in rt.alloc(); b'\n'; length]?;
        let text = answer_input::<_, List, _>(input.as_slice(), rt.alloc())?;
        assert!(rt; text.as_slice() == answered);
    }
    Ok(())
}

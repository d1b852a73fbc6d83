//! Lines, and bytes that wait.
use crate::{Failed, Gather, Line, MemSink};
use std::test::Fail;

#[test]
#[tactic(auto, using(crate::proofs::LineLemmas::line_lengths))]
fn a_line_has_single_spaces(rt: HostRuntime) {
    let mut line = Line::new();
    assert_eq!(rt; line.bytes(), b"".as_slice());
    line.word(b"done");
    line.number(0);
    line.word(b"of");
    line.number(10);
    line.number(u64::MAX);
    line.end();
    assert_eq!(rt;
        line.bytes(),
        b"done 0 of 10 18446744073709551615\n".as_slice()
    );
    let mut long = Line::new();
    long.word(&[b'x'; 159]);
    long.end();
    assert_eq!(rt; long.bytes().len(), 160);
}

/// Numbers beside their digits, where the count of digits changes.
const NUMBERS: &[(u64, &[u8])] = &[
    (0, b"0"),
    (9, b"9"),
    (10, b"10"),
    (99, b"99"),
    (100, b"100"),
    (101, b"101"),
    (999, b"999"),
    (1000, b"1000"),
    (9999, b"9999"),
    (10_000, b"10000"),
    (10_203, b"10203"),
    (99_999, b"99999"),
    (100_000_000, b"100000000"),
    (9_999_999_999_999_999_999, b"9999999999999999999"),
    (10_000_000_000_000_000_000, b"10000000000000000000"),
    (u64::MAX, b"18446744073709551615"),
];

/// A line of one number.
#[tactic(auto, using(crate::proofs::LineLemmas::line_lengths))]
fn line_of(value: u64) -> Line {
    let mut line = Line::new();
    line.number(value);
    line
}

#[test]
fn numbers_have_their_digits(rt: HostRuntime) {
    for (value, digits) in NUMBERS {
        assert_eq!(rt; line_of(*value).bytes(), *digits);
    }
}

/// Gathers 4,000 bytes of each letter.
fn gather_letters(sink: &mut MemSink, letters: &[u8]) -> Result<(), Failed> {
    let mut gather = Gather::new();
    for letter in letters {
        gather.push(sink, &[*letter; 4000])?;
    }
    gather.flush(sink)
}

/// The same, where room is made first.
fn gather_in_room(sink: &mut MemSink, letters: &[u8]) -> Result<(), Failed> {
    let mut gather = Gather::new();
    for letter in letters {
        gather.make_room(sink, 4000)?;
        gather.add(&[*letter; 4000]);
    }
    gather.flush(sink)
}

/// Three letters, gathered into a sink that fails at the call with this number; the letters of which it took all bytes.
struct Gathered {
    fails: u64,
    answer: Result<(), Failed>,
    letters: &'static [u8],
    calls: u64,
}

const GATHERED: &[Gathered] = &[
    Gathered {
        fails: 0,
        answer: Err(Failed),
        letters: b"",
        calls: 1,
    },
    Gathered {
        fails: 1,
        answer: Err(Failed),
        letters: b"ab",
        calls: 2,
    },
    Gathered {
        fails: 2,
        answer: Ok(()),
        letters: b"abc",
        calls: 2,
    },
];

#[test]
fn pieces_wait_until_they_are_many(rt: HostRuntime) -> Result<(), Fail> {
    for case in GATHERED {
        let mut sink = MemSink::new(rt.alloc(), 12_000, [case.fails].to_vec(rt.alloc())?)?;
        assert_eq!(rt; gather_letters(&mut sink, b"abc"), case.answer);
        let mut wanted = vec![in rt.alloc()]?;
        for letter in case.letters {
            wanted.extend_from_slice(&[*letter; 4000])?;
        }
        assert!(rt; sink.bytes() == wanted.as_slice());
        assert_eq!(rt; sink.calls(), case.calls);
    }
    Ok(())
}

#[test]
fn pieces_wait_where_room_is_made(rt: HostRuntime) -> Result<(), Fail> {
    for case in GATHERED {
        let mut sink = MemSink::new(rt.alloc(), 12_000, [case.fails].to_vec(rt.alloc())?)?;
        assert_eq!(rt; gather_in_room(&mut sink, b"abc"), case.answer);
        assert_eq!(rt; sink.bytes().len(), case.letters.len().saturating_mul(4000));
        assert_eq!(rt; sink.calls(), case.calls);
    }
    Ok(())
}

//! Scripts, their canonical texts, and what they cost.
use crate::{cost, largest, parse, print, words};
use std::alloc::Global;
use std::process::Abort;
use std::test::Fail;

/// A text, how it is printed, and what it costs.
#[derive(Clone, Copy)]
struct Case {
    text: &'static [u8],
    canonical: &'static str,
    cost: Option<u64>,
    words: Option<u64>,
    largest: u32,
}

/// The text is parsed, printed so, and costs so much.
fn parsed(rt: &impl Abort, alloc: Global, case: &Case) -> Result<(), Fail> {
    let script = parse(alloc, case.text)?;
    let printed = print(alloc, &script)?;
    assert_eq!(rt;
        printed.as_slice(),
        case.canonical.as_bytes(),
        "at {:?}",
        case.canonical
    );
    let again = parse(alloc, printed.as_slice())?;
    assert_eq!(rt;
        again.statements(),
        script.statements(),
        "at {:?}",
        case.canonical
    );
    assert_eq!(rt; cost(&script), case.cost, "ticks of {:?}", case.canonical);
    assert_eq!(rt; words(&script), case.words, "words of {:?}", case.canonical);
    assert_eq!(rt;
        largest(&script),
        case.largest,
        "largest of {:?}",
        case.canonical
    );
    Ok(())
}

#[test]
fn parses_and_prints(rt: HostRuntime) -> Result<(), Fail> {
    for case in [
        Case {
            text: b"  if  null r1 # x\n\nend",
            canonical: "if null r1\nend\n",
            cost: Some(1),
            words: Some(0),
            largest: 0,
        },
        Case {
            text: b"repeat 3\nwork 2\nend",
            canonical: "repeat 3\nwork 2\nend\n",
            cost: Some(10),
            words: Some(0),
            largest: 0,
        },
        Case {
            text: b"set v0 3\nrepeat 2\nadd v0 v0\nend\nout v0",
            canonical: "set v0 3\nrepeat 2\nadd v0 v0\nend\nout v0\n",
            cost: Some(7),
            words: Some(0),
            largest: 0,
        },
        Case {
            text: b"set v0 18446744073709551615",
            canonical: "set v0 18446744073709551615\n",
            cost: Some(1),
            words: Some(0),
            largest: 0,
        },
        Case {
            text: b"set v0 00000000000000000001",
            canonical: "set v0 1\n",
            cost: Some(1),
            words: Some(0),
            largest: 0,
        },
        Case {
            text: b"work 1\r\nout v7\r\n",
            canonical: "work 1\nout v7\n",
            cost: Some(2),
            words: Some(0),
            largest: 0,
        },
        Case {
            text: b"work 007# \xff\xfe\x00",
            canonical: "work 7\n",
            cost: Some(7),
            words: Some(0),
            largest: 0,
        },
        Case {
            text: b"\twork\t65535 ",
            canonical: "work 65535\n",
            cost: Some(65_535),
            words: Some(0),
            largest: 0,
        },
        Case {
            text: b"new r7 62 0\nnew r1 0 62\nnew r2 1 1",
            canonical: "new r7 62 0\nnew r1 0 62\nnew r2 1 1\n",
            cost: Some(21),
            words: Some(129),
            largest: 63,
        },
        Case {
            text: b"get v7 r7 61\nput r7 0 v0\nload r1 r0 61\nstore r0 0 r7\nmove r1 r0\nclear r7",
            canonical: "get v7 r7 61\nput r7 0 v0\nload r1 r0 61\nstore r0 0 r7\nmove r1 r0\nclear r7\n",
            cost: Some(27),
            words: Some(0),
            largest: 0,
        },
        Case {
            text: b"if v0 < v1\nwork 5\nelse\nnew r1 1 0\nend\nif v0 = v1\nend\nif same r0 r1\nelse\nwork 2\nend",
            canonical: "if v0 < v1\nwork 5\nelse\nnew r1 1 0\nend\nif v0 = v1\nend\nif same r0 r1\nelse\nwork 2\nend\n",
            cost: Some(12),
            words: Some(2),
            largest: 2,
        },
        Case {
            text: b"repeat 4\nrepeat 65535\nnew r1 1 1\nend\nend",
            canonical: "repeat 4\nrepeat 65535\nnew r1 1 1\nend\nend\n",
            cost: Some(2_097_129),
            words: Some(786_420),
            largest: 3,
        },
        Case {
            text: b"repeat 256\nwork 65535\nend",
            canonical: "repeat 256\nwork 65535\nend\n",
            cost: None,
            words: Some(0),
            largest: 0,
        },
        Case {
            text: b"repeat 256\nwork 65533\nend\nwork 511",
            canonical: "repeat 256\nwork 65533\nend\nwork 511\n",
            cost: Some(16_777_216),
            words: Some(0),
            largest: 0,
        },
        Case {
            text: b"repeat 256\nwork 65533\nend\nwork 512",
            canonical: "repeat 256\nwork 65533\nend\nwork 512\n",
            cost: None,
            words: Some(0),
            largest: 0,
        },
        Case {
            text: b"repeat 4096\nrepeat 4096\nnew r1 0 1\nend\nend",
            canonical: "repeat 4096\nrepeat 4096\nnew r1 0 1\nend\nend\n",
            cost: None,
            words: None,
            largest: 2,
        },
        Case {
            text: b"repeat 5\nend\njob v3\ncopy v1 v2\nsub v1 v2",
            canonical: "repeat 5\nend\njob v3\ncopy v1 v2\nsub v1 v2\n",
            cost: Some(9),
            words: Some(0),
            largest: 0,
        },
        Case {
            text: b"repeat 2\nif v0 < v1\nout v0\nelse\nrepeat 2\nadd v0 v2\nend\nset v1 1\nend\nend\nout v1",
            canonical: "repeat 2\nif v0 < v1\nout v0\nelse\nrepeat 2\nadd v0 v2\nend\nset v1 1\nend\nend\nout v1\n",
            cost: Some(18),
            words: Some(0),
            largest: 0,
        },
    ] {
        parsed(&rt, rt.alloc(), &case)?;
    }
    Ok(())
}

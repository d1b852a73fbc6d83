//! Words that tell a section, and words that don't.
use super::{Case, Task, admit_all, sections_of};
use std::alloc::{AllocError, Global};
use std::process::Abort;
use std::test::Fail;

const RIGHT: &[&str] = &[
    "a:0:0:2",
    "a_0123456789abcd:0:0:1",
    "z:63:99999999:00000000",
    "control:1:2:3",
];

const WRONG: &[&str] = &[
    "",
    "a",
    "a:0",
    "a:0:0",
    "a:0:0:2:",
    "a:0:0:2:3",
    ":0:0:2",
    "a::0:2",
    "a:0::2",
    "a:0:0:",
    "A:0:0:2",
    "0:0:0:2",
    "_a:0:0:2",
    "a-b:0:0:2",
    "abcdefghijklmnopq:0:0:2",
    "a:000000000:0:2",
    "a:0:100000000:2",
    "a:0:0:123456789",
    "a:+0:0:2",
    "a:0:-1:2",
    "a:0:0:2 ",
    " a:0:0:2",
    "a:0:0x1:2",
    "a;0;0;2",
];

/// Whether some words tell sections.
fn tells(alloc: Global, words: &[&str]) -> Result<bool, AllocError> {
    Ok(sections_of(alloc, words)?.is_some())
}

/// Reads each word alone.
fn check_all(
    rt: &impl Abort,
    alloc: Global,
    words: &[&str],
    wanted: bool,
) -> Result<(), AllocError> {
    for word in words {
        let found = tells(alloc, &[*word])?;
        assert_eq!(rt; (*word, found), (*word, wanted));
    }
    Ok(())
}

#[test]
fn forms(rt: HostRuntime) -> Result<(), Fail> {
    check_all(&rt, rt.alloc(), RIGHT, true)?;
    check_all(&rt, rt.alloc(), WRONG, false)?;
    Ok(())
}

/// At most 64 words.
#[test]
fn many(rt: HostRuntime) -> Result<(), Fail> {
    let most = tells(rt.alloc(), &["a:0:0:1"; 64])?;
    let more = tells(rt.alloc(), &["a:0:0:1"; 65])?;
    assert_eq!(&rt; (most, more), (true, false));
    Ok(())
}

const ONE: &[Task] = &[(2, 10, 10, 0, 2)];

/// A wrong word anywhere is no section at all.
#[test]
fn usage(rt: HostRuntime) -> Result<(), Fail> {
    const CASES: &[Case] = &[
        Case {
            high: ONE,
            words: &["a:0:0", "z:0:0:1"],
            wanted: "usage",
        },
        Case {
            high: ONE,
            words: &["z:0:0:1", "a:0:0"],
            wanted: "usage",
        },
    ];
    admit_all(&rt, rt.alloc(), CASES)?;
    Ok(())
}

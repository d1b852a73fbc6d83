//! Words that aren't taken, and lines that no trace has.
use super::{BUSY, SMALLEST, expect, run};
use crate::charted::Charted;
use std::alloc::{AllocError, Global};
use std::process::Abort;
use std::test::Fail;

/// Compares that words are refused, before anything is read.
fn expect_usage(rt: &impl Abort, alloc: Global, words: &[&str]) -> Result<(), AllocError> {
    let ended = run(alloc, words, SMALLEST, (&[0], &[]), 100)?;
    assert_eq!(rt;
        (ended.charted, ended.source.calls(), ended.sink.bytes()),
        (
            Charted::Usage,
            0,
            "usage: hk_chart [FIRST LAST]\n".as_bytes()
        )
    );
    Ok(())
}

#[test]
fn refuses_words(rt: HostRuntime) -> Result<(), Fail> {
    let alloc = rt.alloc();
    let wrong: [&[&str]; 14] = [
        &[""],
        &["1"],
        &["3", "1"],
        &["01", "3"],
        &["1", "03"],
        &["1", "x"],
        &["1", ""],
        &["1", " 2"],
        &["+1", "3"],
        &["-1", "3"],
        &["1", "16777216"],
        &["4294967296", "4294967297"],
        &["1", "18446744073709551616"],
        &["1", "2", "3"],
    ];
    for words in wrong {
        expect_usage(&rt, alloc, words)?;
    }
    let most = run(alloc, &["0", "16777215"], SMALLEST, (&[], &[]), 10_000)?.charted;
    assert_eq!(rt; most, Charted::Done);
    Ok(())
}

/// Lines in place of others of the busy trace, and the number of the line that is refused.
const SPOILED: &[(&str, &str, &str)] = &[
    ("heap work 9 ", "heap works 9 ", "line 1\n"),
    ("heap work 9 ", "heap work 09 ", "line 1\n"),
    ("debt 4\n", "debt 4 \n", "line 1\n"),
    ("debt 4\n", "debt 4\r\n", "line 1\n"),
    ("debt 4\n", "debt 18446744073709551616\n", "line 1\n"),
    ("high fast response", "high 1fast response", "line 2\n"),
    ("high fast response", "high Fast response", "line 2\n"),
    (
        "high fast response",
        "high abcdefghijklmnopq response",
        "line 2\n",
    ),
    ("low log\n", "low fast\n", "line 3\n"),
    (
        "log\nt 0",
        "log\nlow slow\nhigh late response 1 deadline 2\nt 0",
        "line 5\n",
    ),
    ("t 0 high fast\n", "t 0 low fast\n", "line 4\n"),
    ("t 0 high fast\n", "t 0 high log\n", "line 4\n"),
    ("t 0 high fast\n", "t 0 high slow\n", "line 4\n"),
    ("t 0 high fast\n", "t 1 high fast\n", "line 4\n"),
    ("t 0 high fast\n", "t 0  high fast\n", "line 4\n"),
    (
        "fault 0 fast 0 1 nil\n",
        "fault 1 fast 0 1 nil\n",
        "line 5\n",
    ),
    (
        "fault 0 fast 0 1 nil\n",
        "fault 0 log 0 1 nil\n",
        "line 5\n",
    ),
    (
        "fault 0 fast 0 1 nil\n",
        "fault 0 fast 0 1 null\n",
        "line 5\n",
    ),
    (
        "fault 0 fast 0 1 nil\n",
        "out 0 fast 3\nout 0 fast 3\n",
        "line 6\n",
    ),
    ("ended 0 fast 0 1\n", "", "line 6\n"),
    ("ended 0 fast 0 1\n", "ended 0 fast 0 0\n", "line 6\n"),
    ("ended 0 fast 0 1\n", "ended 0 fast 0 2\n", "line 6\n"),
    ("t 1 gc flip\n", "t 1 gc flop\n", "line 7\n"),
    ("t 2 gc lost 12\n", "t 2 gc lost\n", "line 8\n"),
    ("t 3 low log\n", "t 3 gc live\nt 4 idle\n", "line 10\n"),
    ("t 5 idle\n", "t 5 idle\nout 5 log 1\n", "line 12\n"),
    ("done fast jobs 1 latest 1\n", "", "line 12\n"),
    ("cycles 1 collector", "cycle 1 collector", "line 14\n"),
    ("end 6\n", "end 7\n", "line 15\n"),
    ("end 6\n", "", "line 15\n"),
    ("end 6\n", "end 6", "line 15\n"),
    ("end 6\n", "end 6\n\n", "line 16\n"),
    ("end 6\n", "end 6\nx", "line 16\n"),
];

#[test]
fn refuses_lines(rt: HostRuntime) -> Result<(), Fail> {
    let alloc = rt.alloc();
    for (old, new, said) in SPOILED {
        let spoiled = BUSY.replace(alloc, old, new)?;
        expect(&rt, alloc, &[], spoiled.as_str(), Charted::Trace, said)?;
    }
    expect(&rt, alloc, &[], "", Charted::Trace, "line 1\n")?;
    expect(&rt, alloc, &[], "sheet long\n", Charted::Trace, "line 1\n")?;
    Ok(())
}

//! Traces worked out by hand.
mod limits;
mod refusals;
mod streams;

use crate::charted::Charted;
use crate::tool::run_chart;
use hk_io::{MemSink, MemSource, Trial};
use std::alloc::{AllocError, Global};
use std::process::Abort;
use std::test::Fail;

/// A task whose one job arrives at 0 and has two of ten ticks.
const SMALLEST: &str = "heap work 4179 attempt 0 busy 2 debt 0
high a response 2 deadline 10
t 0 high a
t 1 high a
out 1 a 7
ended 1 a 0 2
t 2 idle
t 3 idle
t 4 idle
t 5 idle
t 6 idle
t 7 idle
t 8 idle
t 9 idle
done a jobs 1 latest 2
cycles 0 collector 0 idle 8
end 10
";

/// A high task that meets a fault, a low one, and a collector whose attempt is lost.
const BUSY: &str = "heap work 9 attempt 3 busy 5 debt 4
high fast response 1 deadline 3
low log
t 0 high fast
fault 0 fast 0 1 nil
ended 0 fast 0 1
t 1 gc flip
t 2 gc lost 12
t 3 low log
t 4 gc step
t 5 idle
done fast jobs 1 latest 1
done log jobs 0 latest 0
cycles 1 collector 3 idle 1
end 6
";

/// How a run ended, and its source and sink.
#[derive(Drop)]
struct Ended {
    charted: Charted,
    source: MemSource,
    sink: MemSink,
}

/// Runs some words on an input, where the calls with these numbers fail, and the sink has so much room.
fn run(
    alloc: Global,
    words: &[&str],
    input: &str,
    fails: (&[u64], &[u64]),
    room: usize,
) -> Result<Ended, AllocError> {
    let Trial {
        words,
        mut source,
        mut sink,
    } = Trial::new(alloc, words, input.as_bytes(), fails, room)?;
    let charted = run_chart(alloc, words.as_slice(), &mut source, &mut sink);
    Ok(Ended {
        charted,
        source,
        sink,
    })
}

/// Compares what is said of an input, and how the program ends.
fn expect(
    rt: &impl Abort,
    alloc: Global,
    words: &[&str],
    input: &str,
    charted: Charted,
    text: &str,
) -> Result<(), AllocError> {
    let ended = run(alloc, words, input, (&[], &[]), 100)?;
    assert_eq!(rt;
        (ended.charted, ended.sink.bytes()),
        (charted, text.as_bytes()),
        "{input}"
    );
    Ok(())
}

/// Whether a line begins with one of some words.
fn begins(line: &str, kinds: &[&str]) -> bool {
    for kind in kinds {
        if line.starts_with(*kind) {
            return true;
        }
    }
    false
}

/// The lines of a text that begin with one of some words.
fn lines_of(alloc: Global, text: &str, kinds: &[&str]) -> Result<String, AllocError> {
    let mut found = String::new(alloc);
    for line in text.lines() {
        if begins(line, kinds) {
            found.push_str(line)?;
            found.push('\n')?;
        }
    }
    Ok(found)
}

/// Some lines as a text.
fn joined(alloc: Global, lines: &[&str]) -> Result<String, AllocError> {
    let mut text = String::new(alloc);
    for line in lines {
        text.push_str(line)?;
        text.push('\n')?;
    }
    Ok(text)
}

/// Compares the lines of a picture that begin with one of some words, in their order.
fn expect_lines(
    rt: &impl Abort,
    alloc: Global,
    words: &[&str],
    input: &str,
    kinds: &[&str],
    lines: &[&str],
) -> Result<(), Fail> {
    let ended = run(alloc, words, input, (&[], &[]), 100_000)?;
    assert_eq!(rt; ended.charted, Charted::Done, "{input}");
    let text = str::from_utf8(ended.sink.bytes())?;
    let found = lines_of(alloc, text, kinds)?;
    let wanted = joined(alloc, lines)?;
    assert_eq!(rt; found, wanted, "{text}");
    Ok(())
}

/// How the lines of shapes and of what they say begin.
const SHAPES: &[&str] = &[
    "<path class=\"high\" d=\"M ",
    "<path class=\"low\" d=\"M ",
    "<path class=\"collector\" d=\"M ",
    "<path class=\"lost\" d=\"M ",
    "<path class=\"nobody\" d=\"M ",
    "<path class=\"out\" d=\"M ",
    "<path class=\"fault\" d=\"M ",
    "<path class=\"arrival\" d=\"M ",
    "<path class=\"deadline\" d=\"M ",
    "<path class=\"end\" d=\"M ",
    "<path class=\"mark\" d=\"M ",
    "out ",
    "fault ",
    "arrival ",
    "deadline ",
    "ended ",
    "lost ",
];

#[test]
fn the_shapes_of_the_smallest_run(rt: HostRuntime) -> Result<(), Fail> {
    // The lane of `a` begins at 0, the collector's at 30 and nobody's at 60; a rectangle's middle is 17 below. Outputs stand 0 to 6
    // below, arrivals 6 to 12, ends 22 to 26, deadlines 26 to 30. The job
    // arrives at 0, has to end by 10, and ends at 2.
    expect_lines(
        &rt,
        rt.alloc(),
        &[],
        SMALLEST,
        SHAPES,
        &[
            "<path class=\"high\" d=\"M 0 17 H 2 \"/>",
            "<path class=\"nobody\" d=\"M 2 77 H 10 \"/>",
            "<path class=\"out\" d=\"M 1 0 v 6\"><title>",
            "out 1 a 7 </title></path>",
            "<path class=\"arrival\" d=\"M 0 6 v 6\"><title>",
            "arrival 0 a 0 </title></path>",
            "<path class=\"deadline\" d=\"M 10 26 v 4\"><title>",
            "deadline 10 a 0 </title></path>",
            "<path class=\"end\" d=\"M 2 22 v 4\"><title>",
            "ended 1 a 0 2 </title></path>",
        ],
    )
}

#[test]
fn the_shapes_of_a_busy_run(rt: HostRuntime) -> Result<(), Fail> {
    // Lanes: `fast` 0, `log` 30, the collector 60, nobody 90. The lost attempt has a rectangle of its own.
    expect_lines(
        &rt,
        rt.alloc(),
        &[],
        BUSY,
        SHAPES,
        &[
            "<path class=\"high\" d=\"M 0 17 H 1 \"/>",
            "<path class=\"collector\" d=\"M 1 77 H 2 \"/>",
            "<path class=\"lost\" d=\"M 2 77 H 3 \"/>",
            "<path class=\"low\" d=\"M 3 47 H 4 \"/>",
            "<path class=\"collector\" d=\"M 4 77 H 5 \"/>",
            "<path class=\"nobody\" d=\"M 5 107 H 6 \"/>",
            "<path class=\"fault\" d=\"M 0 0 v 6\"><title>",
            "fault 0 fast 0 1 nil </title></path>",
            "<path class=\"arrival\" d=\"M 0 6 v 6\"><title>",
            "arrival 0 fast 0 </title></path>",
            "<path class=\"deadline\" d=\"M 3 26 v 4\"><title>",
            "deadline 3 fast 0 </title></path>",
            "<path class=\"end\" d=\"M 1 22 v 4\"><title>",
            "ended 0 fast 0 1 </title></path>",
            "<path class=\"mark\" d=\"M 2 69 v 16\"><title>",
            "lost 2 events 12 </title></path>",
        ],
    )
}

#[test]
fn a_window_cuts(rt: HostRuntime) -> Result<(), Fail> {
    // Ticks 1 to 3, so moments 1 to 4: the arrival at 0 and the deadline at 10 lie outside, the end at 2 inside.
    expect_lines(
        &rt,
        rt.alloc(),
        &["1", "3"],
        SMALLEST,
        SHAPES,
        &[
            "<path class=\"high\" d=\"M 1 17 H 2 \"/>",
            "<path class=\"nobody\" d=\"M 2 77 H 4 \"/>",
            "<path class=\"out\" d=\"M 1 0 v 6\"><title>",
            "out 1 a 7 </title></path>",
            "<path class=\"end\" d=\"M 2 22 v 4\"><title>",
            "ended 1 a 0 2 </title></path>",
        ],
    )
}

#[test]
fn the_axis_and_the_curves(rt: HostRuntime) -> Result<(), Fail> {
    // Six ticks. The tenths, rounded down, are 0 0 1 1 2 3 3 4 4 5 6, and a thousand units are six ticks.
    expect_lines(
        &rt,
        rt.alloc(),
        &[],
        BUSY,
        &["<text class=\"axis", "<path class=\"grid"],
        &[
            "<text class=\"axis\" transform=\"translate( 160 30)\"> 0 </text>",
            "<text class=\"axis\" transform=\"translate( 160 30)\"> 0 </text>",
            "<text class=\"axis\" transform=\"translate( 326 30)\"> 1 </text>",
            "<text class=\"axis\" transform=\"translate( 326 30)\"> 1 </text>",
            "<text class=\"axis\" transform=\"translate( 493 30)\"> 2 </text>",
            "<text class=\"axis\" transform=\"translate( 660 30)\"> 3 </text>",
            "<text class=\"axis\" transform=\"translate( 660 30)\"> 3 </text>",
            "<text class=\"axis\" transform=\"translate( 826 30)\"> 4 </text>",
            "<text class=\"axis\" transform=\"translate( 826 30)\"> 4 </text>",
            "<text class=\"axis\" transform=\"translate( 993 30)\"> 5 </text>",
            "<text class=\"axis\" transform=\"translate( 1160 30)\"> 6 </text>",
            "<path class=\"grid\" d=\"M 0 0 V 120 \"/>",
            "<path class=\"grid\" d=\"M 0 0 V 120 \"/>",
            "<path class=\"grid\" d=\"M 1 0 V 120 \"/>",
            "<path class=\"grid\" d=\"M 1 0 V 120 \"/>",
            "<path class=\"grid\" d=\"M 2 0 V 120 \"/>",
            "<path class=\"grid\" d=\"M 3 0 V 120 \"/>",
            "<path class=\"grid\" d=\"M 3 0 V 120 \"/>",
            "<path class=\"grid\" d=\"M 4 0 V 120 \"/>",
            "<path class=\"grid\" d=\"M 4 0 V 120 \"/>",
            "<path class=\"grid\" d=\"M 5 0 V 120 \"/>",
            "<path class=\"grid\" d=\"M 6 0 V 120 \"/>",
        ],
    )?;
    // The collector has the ticks 1, 2 and 4, the second as a rectangle of its own, with which nothing is paid; nobody has 5.
    expect_lines(
        &rt,
        rt.alloc(),
        &[],
        BUSY,
        &[
            "<path class=\"owed\" d=\"M 0",
            "<path class=\"collected\" d=\"M 0",
            "<path class=\"idle\" d=\"M 0",
            "H ",
        ],
        &[
            "<path class=\"owed\" d=\"M 0 0",
            "H 1 v 1 L 2 0",
            "H 4 v 1 L 5 0",
            "H 6 \"/>",
            "<path class=\"collected\" d=\"M 0 0",
            "H 1 l 1 1",
            "H 2 l 1 1",
            "H 4 l 1 1",
            "H 6 \"/>",
            "<path class=\"idle\" d=\"M 0 0",
            "H 5 l 1 1",
            "H 6 \"/>",
        ],
    )
}

#[test]
fn what_is_owed_at_least(rt: HostRuntime) -> Result<(), Fail> {
    // The collector has three ticks in a row, so three events were owed before them; the top is the bound, 7. The ticks so far
    // are five at most.
    expect_lines(
        &rt,
        rt.alloc(),
        &[],
        "heap work 9 attempt 3 busy 5 debt 7
low log
t 0 low log
t 1 gc flip
t 2 gc step
t 3 gc step
t 4 idle
done log jobs 0 latest 0
cycles 1 collector 3 idle 1
end 5
",
        &[
            "<svg x=",
            "<g transform=\"matrix",
            "H 1 ",
            "</g></svg><text",
        ],
        &[
            "<svg x=\"160\" y=\"40\" width=\"1000\" height=\"1000\" preserveAspectRatio=\"none\" viewBox=\" 0 0 5 1000\">",
            "<svg x=\"160\" y=\"0\" width=\"1000\" height=\"60\" preserveAspectRatio=\"none\" viewBox=\" 0 0 5 7 \">",
            "<g transform=\"matrix(1 0 0 -1 0 7 )\">",
            "H 1 v 3 L 4 0",
            "<svg x=\"160\" y=\"80\" width=\"1000\" height=\"100\" preserveAspectRatio=\"none\" viewBox=\" 0 0 5 5 \">",
            "<g transform=\"matrix(1 0 0 -1 0 5 )\">",
            "H 1 l 3 3",
            "</g></svg><text x=\"160\" y=\"200\">run: debt at most 7 events, collector 3 ticks, nobody 1 ticks</text>",
        ],
    )
}

//! Whole runs, worked out by hand.
use super::sheets::{Case, FITS, sheet_text};
use super::{Ended, expect, expect_end};
use hk_io::{Status, Trial};
use hk_top::run_tool;
use std::alloc::{AllocError, Global};
use std::process::Abort;
use std::test::Fail;

/// What is written for a sheet of two tasks, and how it ends.
fn expect_case(
    rt: &impl Abort,
    alloc: Global,
    case: &Case,
    status: Status,
    text: &str,
) -> Result<(), AllocError> {
    let sheet = sheet_text(alloc, case)?;
    expect(rt, alloc, sheet.as_str(), status, text)
}

/// Every tick goes to a job, and each job ends by its deadline: `a` has the ticks 0 and 1, 6 and 7, 12 and 13, and `b` those
/// from 2 to 5 and from 8 to 11. The second job of `a` arrives at 5 and ends at 8, the third at 10 and ends at 14; the second
/// of `b` at 7, and ends at 12.
pub(crate) const FULL: &str = "heap work 4213 attempt 0 busy 14 debt 0
high a deadline 5
high b deadline 7
done a jobs 3 latest 4
done b jobs 2 latest 6
cycles 0 collector 0 idle 0
end 14
";

#[test]
fn runs_by_deadlines(rt: HostRuntime) -> Result<(), Fail> {
    expect_case(&rt, rt.alloc(), &FITS, Status::Done, FULL)?;
    Ok(())
}

/// Runs the check of the program of fixed priorities on an input.
fn run_by_priorities(alloc: Global, input: &str) -> Result<Ended, AllocError> {
    let Trial {
        words,
        mut source,
        mut sink,
    } = Trial::new(alloc, &["check"], input.as_bytes(), (&[], &[]), 100)?;
    let status = run_tool(alloc, words.as_slice(), &mut source, &mut sink);
    Ok(Ended {
        status,
        source,
        sink,
    })
}

/// What fits by deadlines needn't by fixed priorities.
#[test]
fn is_refused_by_priorities(rt: HostRuntime) -> Result<(), Fail> {
    let sheet = sheet_text(rt.alloc(), &FITS)?;
    let ended = run_by_priorities(rt.alloc(), sheet.as_str())?;
    expect_end(&rt, &ended, Status::NotAdmitted, "refused response b\n");
    Ok(())
}

/// Sheets that aren't admitted, and the lines that say why.
const REFUSED: &[(Case, &str)] = &[
    // Within 5 ticks 2 + 4 are due.
    (
        Case {
            deadline: 5,
            ..FITS
        },
        "refused demand 5\n",
    ),
    // 2 ticks of 5 and 5 of 7 are more than all.
    (Case { cost: 5, ..FITS }, "refused busy\n"),
    // A jitter is told before the demand.
    (
        Case {
            deadline: 5,
            jitter_b: 1,
            ..FITS
        },
        "refused jitter b\n",
    ),
    // The script of `b` takes 4 ticks.
    (
        Case { cost: 3, ..FITS },
        "refused cost b need 4 declared 3\n",
    ),
];

#[test]
fn tells_why_a_sheet_is_not_admitted(rt: HostRuntime) -> Result<(), Fail> {
    for (case, line) in REFUSED {
        expect_case(&rt, rt.alloc(), case, Status::NotAdmitted, line)?;
    }
    Ok(())
}

/// A high job makes an object, the collector pays for it, and then a low job makes one.
const RESERVE: &str = r#"version = 1
ticks = 120
heap = { live = 62, alloc = 512, reserve = 13, rate = 11, board = [2, 2] }

[[high]]
name = "a"
period = 1000
deadline = 1000
cost = 40
words = 3
arrivals = [0]
script = """
new r1 1 1
work 33
"""

[[low]]
name = "b"
arrivals = [0]
script = "new r1 1 1"
"#;

/// Job `a` has the ticks from 0 to 39, the collector 40 to 72, job `b` 73 to 79, and the collector 80 to 112.
#[test]
fn collects_between_the_jobs(rt: HostRuntime) -> Result<(), Fail> {
    let report = "heap work 4213 attempt 34 busy 184 debt 134
high a deadline 1000
low b
done a jobs 1 latest 40
done b jobs 1 latest 80
cycles 1 collector 66 idle 7
end 120
";
    expect(&rt, rt.alloc(), RESERVE, Status::Done, report)?;
    Ok(())
}

/// More is kept than the sheet declares: the board's five words and the object's five, against eight.
const KEPT: &str = r#"version = 1
ticks = 100
heap = { live = 8, alloc = 512, reserve = 129, rate = 11, board = [2, 2] }

[[high]]
name = "a"
period = 1000
deadline = 1000
cost = 7
words = 5
arrivals = [0]
script = "new r1 1 3"
"#;

/// The job has the ticks from 0 to 6. The collector flips at 7, loads the frame word at 8, the registers 0 and 1 with three
/// events more for the board and two for the object, which doesn't fit, 9 to 15, the other registers 16 to 21, the exchange 22;
/// at 23 it finds the ten words.
#[test]
fn stands_still_where_too_much_is_kept(rt: HostRuntime) -> Result<(), Fail> {
    let report = "heap work 3693 attempt 34 busy 96 debt 89
high a deadline 1000
live 23 10 above 8
";
    expect(&rt, rt.alloc(), KEPT, Status::Live, report)?;
    Ok(())
}

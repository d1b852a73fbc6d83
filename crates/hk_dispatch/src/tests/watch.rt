//! Runs of sessions in tests: what is written of each, who got each tick, and at every tick the debt, the useful events of
//! the cycle and the words used, looked at against their bounds.
use super::counts::{Counts, most_used};
use super::written::{Written, add, name, name_of};
use crate::{Pick, Session, SessionBy, Tick, Who};
use hk_admit::{admit, check_heap};
use hk_sheet::read;
use std::alloc::{AllocError, Global};
use std::process::Abort;
use std::test::Fail;

/// A sheet, its report, and who got the ticks: each stretch with its first and its last tick, the flips and the lost attempts.
pub(crate) struct Row {
    pub sheet: &'static str,
    pub report: &'static str,
    pub ticks: &'static str,
}

/// The lines of the analysis.
fn analysis(alloc: Global, session: &Session) -> Result<String, AllocError> {
    let mut text = String::new(alloc);
    let checked = session.by.checked();
    let (work, attempt, busy, debt) = (checked.work, checked.attempt, checked.busy, checked.debt);
    add(
        &mut text,
        format!(in alloc; "heap work {work} attempt {attempt} busy {busy} debt {debt}"),
    )?;
    for (task, response) in checked
        .sheet
        .high
        .items
        .iter()
        .zip(session.responses.items.iter())
    {
        let name = name(&task.name);
        let deadline = task.timing.deadline;
        add(
            &mut text,
            format!(in alloc; "high {name} response {response} deadline {deadline}"),
        )?;
    }
    for task in &checked.sheet.low.items {
        let name = name(&task.name);
        add(&mut text, format!(in alloc; "low {name}"))?;
    }
    Ok(text)
}

/// The last lines.
fn closing<P: Pick>(
    alloc: Global,
    session: &SessionBy<P>,
    text: &mut String,
) -> Result<(), AllocError> {
    let sheet = &session.checked().sheet;
    let high = sheet.high.items.len();
    for place in 0..high + sheet.low.items.len() {
        let seat = place as u8;
        let who = if place < high {
            Who::Hi(seat)
        } else {
            Who::Lo(seat - high as u8)
        };
        let name = name_of(sheet, who);
        let (jobs, latest) = (session.ended(seat), session.latest(seat));
        add(
            text,
            format!(in alloc; "done {name} jobs {jobs} latest {latest}"),
        )?;
    }
    let (flips, events, idle) = (session.flips(), session.events(), session.idle());
    add(
        text,
        format!(in alloc; "cycles {flips} collector {events} idle {idle}"),
    )?;
    let ticks = sheet.ticks;
    add(text, format!(in alloc; "end {ticks}"))
}

/// Runs a session to its end, and one call further. What was written before stands in front.
fn run<P: Pick>(
    rt: &impl Abort,
    alloc: Global,
    session: &mut SessionBy<P>,
    before: String,
) -> Result<Written, Fail> {
    let mut written = Written::new(alloc, before);
    let mut counts = Counts::new();
    let horizon = session.checked().sheet.ticks;
    let room = most_used(&session.checked().sheet);
    for tick in 0..horizon + 1 {
        let answer = session.tick();
        let sheet = &session.checked().sheet;
        match answer {
            Tick::Ran { who, out, end } => {
                assert!(rt; tick < horizon);
                if let Who::Gc(chore) = who {
                    counts.event(chore);
                }
                written.ran(alloc, sheet, tick, who, out, end)?;
            }
            Tick::LiveOver(words) => {
                written.end_stretch(alloc, sheet, None, tick)?;
                let live = sheet.heap.live;
                add(
                    &mut written.report,
                    format!(in alloc; "live {tick} {words} above {live}"),
                )?;
                assert_eq!(rt; session.tick(), Tick::LiveOver(words));
                return Ok(written);
            }
            Tick::Over => {
                assert_eq!(rt; tick, horizon);
                written.end_stretch(alloc, sheet, None, tick)?;
            }
        }
        counts.look(rt, session, room, tick);
    }
    closing(alloc, session, &mut written.report)?;
    assert_eq!(rt; session.tick(), Tick::Over);
    Ok(written)
}

/// Compares what a session wrote with a row.
fn compare(rt: &impl Abort, written: &Written, row: &Row) {
    assert_eq!(rt; written.report.as_str(), row.report);
    assert_eq!(rt; written.ticks.as_str(), row.ticks);
}

/// Runs the session of an admitted sheet, and compares what was written.
pub(crate) fn check(rt: &impl Abort, alloc: Global, row: &Row) -> Result<(), Fail> {
    let sheet = read(alloc, row.sheet.as_bytes())?;
    let Ok(admitted) = admit(alloc, sheet) else {
        panic!(rt; "not admitted")
    };
    let mut session = Session::open(alloc, admitted)?;
    let before = analysis(alloc, &session)?;
    let written = run(rt, alloc, &mut session.by, before)?;
    compare(rt, &written, row);
    Ok(())
}

/// Runs the session of a sheet by a choice of its own, and compares what was written.
pub(crate) fn check_by<P: Pick>(
    rt: &impl Abort,
    alloc: Global,
    pick: P,
    row: &Row,
) -> Result<(), Fail> {
    let sheet = read(alloc, row.sheet.as_bytes())?;
    let Ok(checked) = check_heap(alloc, sheet) else {
        panic!(rt; "the heap has no room")
    };
    let mut session = SessionBy::open(alloc, checked, pick)?;
    let written = run(rt, alloc, &mut session, String::new(alloc))?;
    compare(rt, &written, row);
    Ok(())
}

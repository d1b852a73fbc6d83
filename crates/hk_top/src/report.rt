//! The report of a session, written as it runs. No memory is taken.
ghost use Rattle.std.specs.Prelude.{◌≡◌, ℕ, ◌+◌, ◌<◌, ◌++◌, ◌≤◌, List, codes, length, OnOk, OnErr, IfOk};
ghost use Rattle.std.specs.Io.KnownBytes.{Appends};
ghost use Rattle.hk_io.specs.Bytes.{AppendsPrefix, AppendsFront};
ghost use Rattle.hk_io.specs.Faults.{HasCause};
ghost use Rattle.hk_io.specs.Limits.{longest_line};
ghost use Rattle.hk_io.specs.declared.gather.TheConstants.{GATHER_ROOM};
ghost use Rattle.hk_dispatch.specs.Session.{state, IsTick};
ghost use Rattle.hk_dispatch.specs.Told.{told};
ghost use Rattle.hk_dispatch.specs.declared.tick.Tick.TheVariants.{Ran};
ghost use Rattle.hk_top.specs.Names.{AreNamed, AreLowNamed};
ghost use Rattle.hk_top.specs.Text.{out_line, fault_line, ended_line, event_line, live_line};
ghost use Rattle.hk_top.specs.Report.{high_lines, low_lines, analysis, name_of, who_text, out_text, fault_text, ended_text, traced, voiced, text_of_tick, live_in, texts_below, line_of_high_end, line_of_low_end, closing, IsRunText};

use crate::lines::{
    add_ended_line, add_event_line, add_fault_line, add_idle_line, add_lost_line, add_out_line,
    add_task_line, cycles_line, done_line, end_line, event_line, heap_line, high_line, live_line,
    low_line,
};
use hk_admit::Checked;
use hk_dispatch::{Chore, End, JobFault, Pick, SessionBy, Tick, Who};
use hk_io::{Failed, Gather, LINE_ROOM, Line, Sink};
use hk_sheet::{High, Low, Name, Sheet, Ticks};

/// How much is written of a run.
#[derive(Clone, Copy, Debug, PartialEq, Eq)]
pub enum Form {
    /// What the jobs put out, and the faults that they met.
    Plain,
    /// Besides, who got each tick, and each job that ended.
    Trace,
    /// Nothing but what the run came to.
    Quiet,
}

/// How a run ended.
#[derive(Clone, Copy, Debug, PartialEq, Eq)]
pub enum Finish {
    /// The collector found so many words reserved, more than the space has for evacuation.
    Live(u64),
    /// At the horizon.
    AtEnd,
}

/// The bytes of a name.
fn bytes_of(name: &Name) -> &[u8]
    ensures { result.now ≡ name.now }
{
    name.items.as_slice()
}

/// The high tasks of a sheet.
fn high_tasks(sheet: &Sheet) -> &[High]
    ensures { result.now ≡ sheet.now.high }
{
    let tasks = &sheet.high;
    tasks.items.as_slice()
}

/// The low tasks of a sheet.
fn low_tasks(sheet: &Sheet) -> &[Low]
    ensures { result.now ≡ sheet.now.low }
{
    let tasks = &sheet.low;
    tasks.items.as_slice()
}

/// The response times, one for each high task.
fn times_of(responses: &Ticks) -> &[u64]
    ensures { result.now ≡ responses.now }
{
    responses.items.as_slice()
}

/// Writes the response time and the deadline of each high task behind what waits.
fn write_high_tasks<K: Sink>(
    tasks: &[High],
    responses: &[u64],
    gather: &mut Gather,
    sink: &mut K,
) -> Result<(), Failed>
    requires names { AreNamed tasks.now }
    requires whole { length responses.now ≡ length tasks.now }
    ensures ok { OnOk result (AppendsFront (K.taken sink.old) (K.taken sink.new) (gather.old ++ high_lines tasks.now responses.now) gather.new) }
    ensures prefix { OnErr result (AppendsPrefix (K.taken sink.old) (K.taken sink.new) (gather.old ++ high_lines tasks.now responses.now)) }
    ensures cause { HasCause (K.faults sink.old) (K.faults sink.new) result }
{
    for (place, task) in tasks.iter().enumerate() {
        let line = high_line(bytes_of(&task.name), responses[place], task.timing.deadline);
        gather.push(sink, line.bytes())?;
    }
    Ok(())
}

/// Writes the low tasks behind what waits.
fn write_low_tasks<K: Sink>(tasks: &[Low], gather: &mut Gather, sink: &mut K) -> Result<(), Failed>
    requires { AreLowNamed tasks.now }
    ensures ok { OnOk result (AppendsFront (K.taken sink.old) (K.taken sink.new) (gather.old ++ low_lines tasks.now) gather.new) }
    ensures prefix { OnErr result (AppendsPrefix (K.taken sink.old) (K.taken sink.new) (gather.old ++ low_lines tasks.now)) }
    ensures cause { HasCause (K.faults sink.old) (K.faults sink.new) result }
{
    for task in tasks {
        gather.push(sink, low_line(bytes_of(&task.name)).bytes())?;
    }
    Ok(())
}

/// Writes the lines of the analysis behind what waits.
fn add_analysis<K: Sink>(
    checked: &Checked,
    responses: &Ticks,
    gather: &mut Gather,
    sink: &mut K,
) -> Result<(), Failed>
    requires whole { length responses.now ≡ length checked.now.sheet.high }
    ensures ok { OnOk result (AppendsFront (K.taken sink.old) (K.taken sink.new) (gather.old ++ analysis checked.now.sheet checked.now.work checked.now.attempt checked.now.busy checked.now.debt responses.now) gather.new) }
    ensures prefix { OnErr result (AppendsPrefix (K.taken sink.old) (K.taken sink.new) (gather.old ++ analysis checked.now.sheet checked.now.work checked.now.attempt checked.now.busy checked.now.debt responses.now)) }
    ensures cause { HasCause (K.faults sink.old) (K.faults sink.new) result }
{
    let heap = heap_line(checked.work, checked.attempt, checked.busy, checked.debt);
    gather.push(sink, heap.bytes())?;
    let sheet = &checked.sheet;
    write_high_tasks(high_tasks(sheet), times_of(responses), gather, sink)?;
    write_low_tasks(low_tasks(sheet), gather, sink)
}

/// Writes the lines of the analysis: of the heap, of each high task with its response time, and of each low task.
pub fn write_analysis<K: Sink>(
    checked: &Checked,
    responses: &Ticks,
    sink: &mut K,
) -> Result<(), Failed>
    requires whole { length responses.now ≡ length checked.now.sheet.high }
    ensures ok { OnOk result (Appends (K.taken sink.old) (K.taken sink.new) (analysis checked.now.sheet checked.now.work checked.now.attempt checked.now.busy checked.now.debt responses.now)) }
    ensures prefix { OnErr result (AppendsPrefix (K.taken sink.old) (K.taken sink.new) (analysis checked.now.sheet checked.now.work checked.now.attempt checked.now.busy checked.now.debt responses.now)) }
    ensures cause { HasCause (K.faults sink.old) (K.faults sink.new) result }
{
    let mut gather = Gather::new();
    add_analysis(checked, responses, &mut gather, sink)?;
    gather.flush(sink)
}

/// The name of the task that got a tick.
fn name_of(sheet: &Sheet, who: Who) -> &[u8]
    requires high { AreNamed sheet.now.high }
    requires low { AreLowNamed sheet.now.low }
    ensures name { result.now ≡ name_of sheet.now who }
    ensures short { length result.now ≤ 16 }
{
    match who {
        Who::Hi(place) => match high_tasks(sheet).get(place as usize) {
            Some(task) => bytes_of(&task.name),
            None => b"",
        },
        Who::Lo(place) => match low_tasks(sheet).get(place as usize) {
            Some(task) => bytes_of(&task.name),
            None => b"",
        },
        Who::Gc(_) | Who::Idle => b"",
    }
}

/// Adds who got a tick to what waits, where there is room for a line.
fn add_who(gather: &mut Gather, sheet: &Sheet, tick: u64, who: Who)
    requires high { AreNamed sheet.now.high }
    requires low { AreLowNamed sheet.now.low }
    requires room { length gather.old + longest_line ≤ GATHER_ROOM }
    ensures { gather.new ≡ gather.old ++ who_text sheet.now tick who }
{
    match who {
        Who::Hi(_) => add_task_line(gather, tick, b"high", name_of(sheet, who)),
        Who::Lo(_) => add_task_line(gather, tick, b"low", name_of(sheet, who)),
        Who::Gc(Chore::Step) => add_event_line(gather, tick, b"step"),
        Who::Gc(Chore::Flip) => add_event_line(gather, tick, b"flip"),
        Who::Gc(Chore::Lost(events)) => add_lost_line(gather, tick, u64::from(events)),
        Who::Idle => add_idle_line(gather, tick),
    }
}

/// Writes who got a tick behind what waits, where a trace is asked for.
fn write_who<K: Sink>(
    form: Form,
    sheet: &Sheet,
    tick: u64,
    who: Who,
    gather: &mut Gather,
    sink: &mut K,
) -> Result<(), Failed>
    requires high { AreNamed sheet.now.high }
    requires low { AreLowNamed sheet.now.low }
    ensures ok { OnOk result (AppendsFront (K.taken sink.old) (K.taken sink.new) (gather.old ++ traced form (who_text sheet.now tick who)) gather.new) }
    ensures prefix { OnErr result (AppendsPrefix (K.taken sink.old) (K.taken sink.new) (gather.old ++ traced form (who_text sheet.now tick who))) }
    ensures cause { HasCause (K.faults sink.old) (K.faults sink.new) result }
{
    match form {
        Form::Trace => {
            gather.make_room(sink, LINE_ROOM)?;
            add_who(gather, sheet, tick, who);
            Ok(())
        }
        Form::Plain | Form::Quiet => Ok(()),
    }
}

/// Writes behind what waits that a tick went to the collector, which found too many words reserved, where a trace is asked for.
fn trace_live<K: Sink>(
    form: Form,
    tick: u64,
    gather: &mut Gather,
    sink: &mut K,
) -> Result<(), Failed>
    ensures ok { OnOk result (AppendsFront (K.taken sink.old) (K.taken sink.new) (gather.old ++ traced form (event_line tick (codes "live"))) gather.new) }
    ensures prefix { OnErr result (AppendsPrefix (K.taken sink.old) (K.taken sink.new) (gather.old ++ traced form (event_line tick (codes "live")))) }
    ensures cause { HasCause (K.faults sink.old) (K.faults sink.new) result }
{
    match form {
        Form::Trace => gather.push(sink, event_line(tick, b"live").bytes()),
        Form::Plain | Form::Quiet => Ok(()),
    }
}

/// Writes a value that a job put out behind what waits.
fn put_out<K: Sink>(
    tick: u64,
    name: &[u8],
    value: u64,
    gather: &mut Gather,
    sink: &mut K,
) -> Result<(), Failed>
    requires { length name.now ≤ 16 }
    ensures ok { OnOk result (AppendsFront (K.taken sink.old) (K.taken sink.new) (gather.old ++ out_line tick name.now value) gather.new) }
    ensures prefix { OnErr result (AppendsPrefix (K.taken sink.old) (K.taken sink.new) (gather.old ++ out_line tick name.now value)) }
    ensures cause { HasCause (K.faults sink.old) (K.faults sink.new) result }
{
    gather.make_room(sink, LINE_ROOM)?;
    add_out_line(gather, tick, name, value);
    Ok(())
}

/// Writes what a job put out behind what waits, where that is asked for.
fn write_out<K: Sink>(
    form: Form,
    tick: u64,
    name: &[u8],
    out: Option<u64>,
    gather: &mut Gather,
    sink: &mut K,
) -> Result<(), Failed>
    requires { length name.now ≤ 16 }
    ensures ok { OnOk result (AppendsFront (K.taken sink.old) (K.taken sink.new) (gather.old ++ voiced form (out_text tick name.now out)) gather.new) }
    ensures prefix { OnErr result (AppendsPrefix (K.taken sink.old) (K.taken sink.new) (gather.old ++ voiced form (out_text tick name.now out))) }
    ensures cause { HasCause (K.faults sink.old) (K.faults sink.new) result }
{
    match (form, out) {
        (Form::Plain | Form::Trace, Some(value)) => put_out(tick, name, value, gather, sink),
        _ => Ok(()),
    }
}

/// Writes that a job ended with a fault behind what waits.
fn put_fault<K: Sink>(
    tick: u64,
    name: &[u8],
    job: u64,
    fault: JobFault,
    gather: &mut Gather,
    sink: &mut K,
) -> Result<(), Failed>
    requires { length name.now ≤ 16 }
    ensures ok { OnOk result (AppendsFront (K.taken sink.old) (K.taken sink.new) (gather.old ++ fault_line tick name.now job fault.statement fault.nil) gather.new) }
    ensures prefix { OnErr result (AppendsPrefix (K.taken sink.old) (K.taken sink.new) (gather.old ++ fault_line tick name.now job fault.statement fault.nil)) }
    ensures cause { HasCause (K.faults sink.old) (K.faults sink.new) result }
{
    gather.make_room(sink, LINE_ROOM)?;
    add_fault_line(gather, tick, name, job, fault);
    Ok(())
}

/// Writes the fault that ended a job behind what waits, where that is asked for.
fn write_fault<K: Sink>(
    form: Form,
    tick: u64,
    name: &[u8],
    end: Option<End>,
    gather: &mut Gather,
    sink: &mut K,
) -> Result<(), Failed>
    requires { length name.now ≤ 16 }
    ensures ok { OnOk result (AppendsFront (K.taken sink.old) (K.taken sink.new) (gather.old ++ voiced form (fault_text tick name.now end)) gather.new) }
    ensures prefix { OnErr result (AppendsPrefix (K.taken sink.old) (K.taken sink.new) (gather.old ++ voiced form (fault_text tick name.now end))) }
    ensures cause { HasCause (K.faults sink.old) (K.faults sink.new) result }
{
    match (form, end) {
        (
            Form::Plain | Form::Trace,
            Some(
                End {
                    job,
                    ticks: _,
                    fault: Some(fault),
                },
            ),
        ) => put_fault(tick, name, job, fault, gather, sink),
        _ => Ok(()),
    }
}

/// Writes that a job ended behind what waits.
fn put_ended<K: Sink>(
    tick: u64,
    name: &[u8],
    job: u64,
    ticks: u64,
    gather: &mut Gather,
    sink: &mut K,
) -> Result<(), Failed>
    requires { length name.now ≤ 16 }
    ensures ok { OnOk result (AppendsFront (K.taken sink.old) (K.taken sink.new) (gather.old ++ ended_line tick name.now job ticks) gather.new) }
    ensures prefix { OnErr result (AppendsPrefix (K.taken sink.old) (K.taken sink.new) (gather.old ++ ended_line tick name.now job ticks)) }
    ensures cause { HasCause (K.faults sink.old) (K.faults sink.new) result }
{
    gather.make_room(sink, LINE_ROOM)?;
    add_ended_line(gather, tick, name, job, ticks);
    Ok(())
}

/// Writes the end of a job behind what waits, where a trace is asked for.
fn write_ended<K: Sink>(
    form: Form,
    tick: u64,
    name: &[u8],
    end: Option<End>,
    gather: &mut Gather,
    sink: &mut K,
) -> Result<(), Failed>
    requires { length name.now ≤ 16 }
    ensures ok { OnOk result (AppendsFront (K.taken sink.old) (K.taken sink.new) (gather.old ++ traced form (ended_text tick name.now end)) gather.new) }
    ensures prefix { OnErr result (AppendsPrefix (K.taken sink.old) (K.taken sink.new) (gather.old ++ traced form (ended_text tick name.now end))) }
    ensures cause { HasCause (K.faults sink.old) (K.faults sink.new) result }
{
    match (form, end) {
        (
            Form::Trace,
            Some(
                End {
                    job,
                    ticks,
                    fault: _,
                },
            ),
        ) => put_ended(tick, name, job, ticks, gather, sink),
        _ => Ok(()),
    }
}

/// Writes what a tick was behind what waits.
fn write_tick<K: Sink>(
    form: Form,
    sheet: &Sheet,
    tick: u64,
    ran: (Who, Option<u64>, Option<End>),
    gather: &mut Gather,
    sink: &mut K,
) -> Result<(), Failed>
    requires high { AreNamed sheet.now.high }
    requires low { AreLowNamed sheet.now.low }
    ensures ok { OnOk result (AppendsFront (K.taken sink.old) (K.taken sink.new) (gather.old ++ text_of_tick form sheet.now tick (Ran ran.0 ran.1 ran.2)) gather.new) }
    ensures prefix { OnErr result (AppendsPrefix (K.taken sink.old) (K.taken sink.new) (gather.old ++ text_of_tick form sheet.now tick (Ran ran.0 ran.1 ran.2))) }
    ensures cause { HasCause (K.faults sink.old) (K.faults sink.new) result }
{
    let (who, out, end) = ran;
    let name = name_of(sheet, who);
    write_who(form, sheet, tick, who, gather, sink)?;
    write_out(form, tick, name, out, gather, sink)?;
    write_fault(form, tick, name, end, gather, sink)?;
    write_ended(form, tick, name, end, gather, sink)
}

/// The seat of a place.
fn seat_of(place: usize) -> u8
    requires { place < 256 }
    ensures { result ≡ place }
{
    place as u8
}

/// Writes what each high task came to behind what waits.
fn write_high_ends<P: Pick, K: Sink>(
    session: &SessionBy<P>,
    gather: &mut Gather,
    sink: &mut K,
) -> Result<(), Failed>
    requires few { length session.now.sheet.high + length session.now.sheet.low ≤ 31 }
    requires names { AreNamed session.now.sheet.high }
    ensures ok { OnOk result (AppendsFront (K.taken sink.old) (K.taken sink.new) (gather.old ++ texts_below (line_of_high_end session.now.sheet (state session.now.geometry (P.choice session.now.pick) session.now.sheet session.now.given)) (length session.now.sheet.high)) gather.new) }
    ensures prefix { OnErr result (AppendsPrefix (K.taken sink.old) (K.taken sink.new) (gather.old ++ texts_below (line_of_high_end session.now.sheet (state session.now.geometry (P.choice session.now.pick) session.now.sheet session.now.given)) (length session.now.sheet.high))) }
    ensures cause { HasCause (K.faults sink.old) (K.faults sink.new) result }
{
    let tasks = high_tasks(&session.checked().sheet);
    for (place, task) in tasks.iter().enumerate() {
        let seat = seat_of(place);
        let line = done_line(
            bytes_of(&task.name),
            session.ended(seat),
            session.latest(seat),
        );
        gather.push(sink, line.bytes())?;
    }
    Ok(())
}

/// Writes what each low task came to behind what waits.
fn write_low_ends<P: Pick, K: Sink>(
    session: &SessionBy<P>,
    gather: &mut Gather,
    sink: &mut K,
) -> Result<(), Failed>
    requires few { length session.now.sheet.high + length session.now.sheet.low ≤ 31 }
    requires names { AreLowNamed session.now.sheet.low }
    ensures ok { OnOk result (AppendsFront (K.taken sink.old) (K.taken sink.new) (gather.old ++ texts_below (line_of_low_end session.now.sheet (state session.now.geometry (P.choice session.now.pick) session.now.sheet session.now.given)) (length session.now.sheet.low)) gather.new) }
    ensures prefix { OnErr result (AppendsPrefix (K.taken sink.old) (K.taken sink.new) (gather.old ++ texts_below (line_of_low_end session.now.sheet (state session.now.geometry (P.choice session.now.pick) session.now.sheet session.now.given)) (length session.now.sheet.low))) }
    ensures cause { HasCause (K.faults sink.old) (K.faults sink.new) result }
{
    let sheet = &session.checked().sheet;
    let first = high_tasks(sheet).len();
    for (place, task) in low_tasks(sheet).iter().enumerate() {
        let seat = seat_of(first + place);
        let line = done_line(
            bytes_of(&task.name),
            session.ended(seat),
            session.latest(seat),
        );
        gather.push(sink, line.bytes())?;
    }
    Ok(())
}

/// Writes the last lines of a run that came to its horizon behind what waits.
fn write_closing<P: Pick, K: Sink>(
    session: &SessionBy<P>,
    gather: &mut Gather,
    sink: &mut K,
) -> Result<(), Failed>
    requires few { length session.now.sheet.high + length session.now.sheet.low ≤ 31 }
    requires high { AreNamed session.now.sheet.high }
    requires low { AreLowNamed session.now.sheet.low }
    ensures ok { OnOk result (AppendsFront (K.taken sink.old) (K.taken sink.new) (gather.old ++ closing session.now.sheet (state session.now.geometry (P.choice session.now.pick) session.now.sheet session.now.given)) gather.new) }
    ensures prefix { OnErr result (AppendsPrefix (K.taken sink.old) (K.taken sink.new) (gather.old ++ closing session.now.sheet (state session.now.geometry (P.choice session.now.pick) session.now.sheet session.now.given))) }
    ensures cause { HasCause (K.faults sink.old) (K.faults sink.new) result }
{
    write_high_ends(session, gather, sink)?;
    write_low_ends(session, gather, sink)?;
    let cycles = cycles_line(session.flips(), session.events(), session.idle());
    gather.push(sink, cycles.bytes())?;
    gather.push(sink, end_line(session.checked().sheet.ticks).bytes())
}

/// Gives a session a tick, and writes what it was behind what waits. It answers the words that the collector found reserved,
/// where these were more than the space has for evacuation.
fn write_next<P: Pick, K: Sink>(
    session: &mut SessionBy<P>,
    form: Form,
    tick: u64,
    gather: &mut Gather,
    sink: &mut K,
) -> Result<Option<u64>, Failed>
    requires at { session.old.given ≡ tick }
    requires before { IsTick session.old.geometry (P.choice session.old.pick) session.old.sheet tick }
    ensures opened { session.new ≡ record session.old { given = tick + 1 } }
    ensures ok { OnOk result (AppendsFront (K.taken sink.old) (K.taken sink.new) (gather.old ++ text_of_tick form session.old.sheet tick (told session.old.geometry (P.choice session.old.pick) session.old.sheet tick)) gather.new) }
    ensures live { IfOk result (λ live. live ≡ live_in (told session.old.geometry (P.choice session.old.pick) session.old.sheet tick)) }
    ensures prefix { OnErr result (AppendsPrefix (K.taken sink.old) (K.taken sink.new) (gather.old ++ text_of_tick form session.old.sheet tick (told session.old.geometry (P.choice session.old.pick) session.old.sheet tick))) }
    ensures cause { HasCause (K.faults sink.old) (K.faults sink.new) result }
{
    match session.tick() {
        Tick::Ran { who, out, end } => {
            let sheet = &session.checked().sheet;
            write_tick(form, sheet, tick, (who, out, end), gather, sink)?;
            Ok(None)
        }
        Tick::LiveOver(words) => {
            trace_live(form, tick, gather, sink)?;
            Ok(Some(words))
        }
        Tick::Over => unreachable!(),
    }
}

/// Writes that the collector found so many words reserved at a tick, more than the space has, behind what waits.
fn write_live<K: Sink>(
    tick: u64,
    words: u64,
    limit: u64,
    gather: &mut Gather,
    sink: &mut K,
) -> Result<(), Failed>
    ensures ok { OnOk result (AppendsFront (K.taken sink.old) (K.taken sink.new) (gather.old ++ live_line tick words limit) gather.new) }
    ensures prefix { OnErr result (AppendsPrefix (K.taken sink.old) (K.taken sink.new) (gather.old ++ live_line tick words limit)) }
    ensures cause { HasCause (K.faults sink.old) (K.faults sink.new) result }
{
    gather.push(sink, live_line(tick, words, limit).bytes())
}

/// Runs a session that has had no tick to its end, and writes the lines of its ticks and the last lines. It answers how the
/// session ended: at its horizon, or with the words that the collector found reserved, more than the space has for evacuation.
/// It takes no memory.
///
/// # Errors
///
/// Where a write fails. What was taken is then a first part of these lines.
pub fn write_run<P: Pick, K: Sink>(
    session: &mut SessionBy<P>,
    form: Form,
    sink: &mut K,
) -> Result<Finish, Failed>
    requires start { session.old.given ≡ 0 }
    ensures ok { IfOk result (λ finish. (text : List ℕ) × IsRunText form session.old.geometry (P.choice session.old.pick) session.old.sheet finish text × Appends (K.taken sink.old) (K.taken sink.new) text) }
    ensures prefix { OnErr result ((finish : Finish) × (text : List ℕ) × IsRunText form session.old.geometry (P.choice session.old.pick) session.old.sheet finish text × AppendsPrefix (K.taken sink.old) (K.taken sink.new) text) }
    ensures cause { HasCause (K.faults sink.old) (K.faults sink.new) result }
    ensures opened { session.new ≡ record session.old { given = session.new.given } }
{
    let ticks = session.checked().sheet.ticks;
    let mut gather = Gather::new();
    for tick in 0..ticks {
        if let Some(words) = write_next(session, form, tick, &mut gather, sink)? {
            let limit = session.checked().sheet.heap.live;
            write_live(tick, words, u64::from(limit), &mut gather, sink)?;
            gather.flush(sink)?;
            return Ok(Finish::Live(words));
        }
    }
    write_closing(session, &mut gather, sink)?;
    gather.flush(sink)?;
    Ok(Finish::AtEnd)
}

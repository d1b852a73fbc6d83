//! A line of a trace from its words.
ghost use Rattle.std.specs.Prelude.{◌≡◌, ◌≤◌, ◌<◌, ◌^◌, length, map, IfSome};
ghost use Rattle.std.specs.List.{list_all};
ghost use Rattle.std.specs.Str.{bytes_eq};
ghost use Rattle.hk_chart.specs.Trace.{leads_with_zero, number_in, small_in, is_name_byte, is_name, is_new_name, place_of, lane_in, heap_line, high_line, low_line, idle_line, collector_in, who_in, tick_line, lost_line, out_line, cause_in, fault_line, ended_line, done_line, cycles_line, end_line, live_line, two_words, three_words, four_words, five_words, six_words, nine_words, line_of};

use crate::lex::is;
use crate::task::{MAX_NAME, Task};
use crate::trace_line::{Cause, TraceLine, Who};
use hk_io::number;

/// Whether a word has several digits, the first a zero.
fn leads_with_zero(word: &[u8]) -> bool
    ensures { result ≡ leads_with_zero word.now }
{
    match word {
        [first, _, ..] => *first == b'0',
        _ => false,
    }
}

/// A number of 64 bits, without leading zeros.
#[tactic(auto, unfolding(crate::specs::Trace::number_in))]
fn number_in(word: &[u8]) -> Option<u64>
    ensures { result ≡ number_in word.now }
{
    if leads_with_zero(word) {
        return None;
    }
    number(word)
}

/// A number of 32 bits, without leading zeros.
#[tactic(auto, unfolding(crate::specs::Trace::small_in))]
pub fn small(word: &[u8]) -> Option<u32>
    ensures { result ≡ small_in word.now }
{
    u32::try_from(number_in(word)?).ok()
}

/// Whether a byte may stand in a name behind the first.
fn is_name_byte(byte: u8) -> bool
    ensures { result ≡ is_name_byte byte }
{
    byte.is_ascii_lowercase() || byte.is_ascii_digit() || byte == b'_'
}

/// Whether all of the bytes may.
fn are_name_bytes(bytes: &[u8]) -> bool
    ensures { result ≡ list_all is_name_byte bytes.now }
{
    bytes.iter().all(|byte| is_name_byte(*byte))
}

/// Whether a word is a name.
fn is_name(word: &[u8]) -> bool
    ensures { result ≡ is_name word.now }
{
    let Some((first, rest)) = word.split_first() else {
        return false;
    };
    first.is_ascii_lowercase() && are_name_bytes(rest) && word.len() <= MAX_NAME
}

/// Whether a task has this name.
fn is_named(task: &Task, name: &[u8]) -> bool
    ensures { result ≡ bytes_eq task.now.name name.now }
{
    task.name.items.as_slice() == name
}

/// The place of the task of a name.
fn place_of(tasks: &[Task], name: &[u8]) -> Option<usize>
    ensures { result ≡ place_of tasks.now name.now }
{
    tasks.iter().position(|task| is_named(task, name))
}

/// The same, where it has 8 bits at most.
#[tactic(auto, unfolding(crate::specs::Trace::lane_in))]
fn lane(tasks: &[Task], name: &[u8]) -> Option<u8>
    ensures { result ≡ lane_in tasks.now name.now }
{
    u8::try_from(place_of(tasks, name)?).ok()
}

/// Whether a word is a name that no task has yet.
fn is_new_name(tasks: &[Task], name: &[u8]) -> bool
    ensures { result ≡ is_new_name tasks.now name.now }
{
    is_name(name) && lane(tasks, name).is_none()
}

/// `heap work W attempt A busy B debt D`.
#[tactic(auto, unfolding(crate::specs::Trace::heap_line))]
fn heap(
    a: &[u8],
    w: &[u8],
    b: &[u8],
    x: &[u8],
    c: &[u8],
    y: &[u8],
    d: &[u8],
    z: &[u8],
) -> Option<TraceLine>
    ensures { result ≡ heap_line a.now w.now b.now x.now c.now y.now d.now z.now }
{
    if is(a, "work") && is(b, "attempt") && is(c, "busy") && is(d, "debt") {
        number_in(w)?;
        number_in(x)?;
        number_in(y)?;
        let debt = number_in(z)?;
        Some(TraceLine::Heap { debt })
    } else {
        None
    }
}

/// `high NAME response R deadline D`.
#[tactic(auto, unfolding(crate::specs::Trace::high_line))]
fn high(tasks: &[Task], name: &[u8], a: &[u8], r: &[u8], b: &[u8], d: &[u8]) -> Option<TraceLine>
    ensures { result ≡ high_line tasks.now name.now a.now r.now b.now d.now }
{
    if is(a, "response") && is(b, "deadline") && is_new_name(tasks, name) {
        small(r)?;
        let deadline = small(d)?;
        Some(TraceLine::High { deadline })
    } else {
        None
    }
}

/// `low NAME`.
#[tactic(auto, unfolding(crate::specs::Trace::low_line))]
fn low(tasks: &[Task], name: &[u8]) -> Option<TraceLine>
    ensures { result ≡ low_line tasks.now name.now }
{
    if is_new_name(tasks, name) {
        Some(TraceLine::Low)
    } else {
        None
    }
}

/// `t TICK idle`.
#[tactic(auto, unfolding(crate::specs::Trace::idle_line))]
fn idle(tick: &[u8], what: &[u8]) -> Option<TraceLine>
    ensures { result ≡ idle_line tick.now what.now }
{
    if is(what, "idle") {
        let tick = small(tick)?;
        Some(TraceLine::Tick {
            tick,
            who: Who::Idle,
        })
    } else {
        None
    }
}

/// What the collector did with a tick.
#[tactic(auto, unfolding(crate::specs::Trace::collector_in))]
fn collector(event: &[u8]) -> Option<Who>
    ensures { result ≡ collector_in event.now }
{
    if is(event, "step") {
        Some(Who::Step)
    } else if is(event, "flip") {
        Some(Who::Flip)
    } else if is(event, "live") {
        Some(Who::Live)
    } else {
        None
    }
}

/// Who got a tick.
#[tactic(auto, unfolding(crate::specs::Trace::who_in))]
fn who(tasks: &[Task], kind: &[u8], name: &[u8]) -> Option<Who>
    ensures { result ≡ who_in tasks.now kind.now name.now }
{
    if is(kind, "high") {
        Some(Who::High(lane(tasks, name)?))
    } else if is(kind, "low") {
        Some(Who::Low(lane(tasks, name)?))
    } else if is(kind, "gc") {
        collector(name)
    } else {
        None
    }
}

/// `t TICK high NAME` and the others of this length.
#[tactic(auto, unfolding(crate::specs::Trace::tick_line))]
fn tick(tasks: &[Task], tick: &[u8], kind: &[u8], name: &[u8]) -> Option<TraceLine>
    ensures { result ≡ tick_line tasks.now tick.now kind.now name.now }
{
    let tick = small(tick)?;
    let who = who(tasks, kind, name)?;
    Some(TraceLine::Tick { tick, who })
}

/// `t TICK gc lost N`.
#[tactic(auto, unfolding(crate::specs::Trace::lost_line))]
fn lost(tick: &[u8], kind: &[u8], event: &[u8], count: &[u8]) -> Option<TraceLine>
    ensures { result ≡ lost_line tick.now kind.now event.now count.now }
{
    if is(kind, "gc") && is(event, "lost") {
        let tick = small(tick)?;
        let events = number_in(count)?;
        Some(TraceLine::Tick {
            tick,
            who: Who::Lost(events),
        })
    } else {
        None
    }
}

/// `out TICK NAME VALUE`.
#[tactic(auto, unfolding(crate::specs::Trace::out_line))]
fn out(tasks: &[Task], tick: &[u8], name: &[u8], value: &[u8]) -> Option<TraceLine>
    ensures { result ≡ out_line tasks.now tick.now name.now value.now }
{
    let tick = small(tick)?;
    let lane = lane(tasks, name)?;
    let value = number_in(value)?;
    Some(TraceLine::Out { tick, lane, value })
}

/// `nil` or `field`.
#[tactic(auto, unfolding(crate::specs::Trace::cause_in))]
fn cause(word: &[u8]) -> Option<Cause>
    ensures { result ≡ cause_in word.now }
{
    if is(word, "nil") {
        Some(Cause::Nil)
    } else if is(word, "field") {
        Some(Cause::Field)
    } else {
        None
    }
}

/// `fault TICK NAME JOB STATEMENT nil` or `field`.
#[tactic(auto, unfolding(crate::specs::Trace::fault_line))]
fn fault(
    tasks: &[Task],
    tick: &[u8],
    name: &[u8],
    job: &[u8],
    statement: &[u8],
    why: &[u8],
) -> Option<TraceLine>
    ensures { result ≡ fault_line tasks.now tick.now name.now job.now statement.now why.now }
{
    let tick = small(tick)?;
    let lane = lane(tasks, name)?;
    let job = small(job)?;
    let statement = small(statement)?;
    let cause = cause(why)?;
    Some(TraceLine::Fault {
        tick,
        lane,
        job,
        statement,
        cause,
    })
}

/// `ended TICK NAME JOB TICKS`.
#[tactic(auto, unfolding(crate::specs::Trace::ended_line))]
fn ended(tasks: &[Task], tick: &[u8], name: &[u8], job: &[u8], ticks: &[u8]) -> Option<TraceLine>
    ensures { result ≡ ended_line tasks.now tick.now name.now job.now ticks.now }
{
    let tick = small(tick)?;
    let lane = lane(tasks, name)?;
    let job = small(job)?;
    let ticks = small(ticks)?;
    Some(TraceLine::Ended {
        tick,
        lane,
        job,
        ticks,
    })
}

/// `done NAME jobs J latest X`.
#[tactic(auto, unfolding(crate::specs::Trace::done_line))]
fn done(
    tasks: &[Task],
    name: &[u8],
    a: &[u8],
    jobs: &[u8],
    b: &[u8],
    latest: &[u8],
) -> Option<TraceLine>
    ensures { result ≡ done_line tasks.now name.now a.now jobs.now b.now latest.now }
{
    if is(a, "jobs") && is(b, "latest") {
        let lane = lane(tasks, name)?;
        small(jobs)?;
        small(latest)?;
        Some(TraceLine::Done { lane })
    } else {
        None
    }
}

/// `cycles C collector E idle I`.
#[tactic(auto, unfolding(crate::specs::Trace::cycles_line))]
fn cycles(cycles: &[u8], a: &[u8], collector: &[u8], b: &[u8], idle: &[u8]) -> Option<TraceLine>
    ensures { result ≡ cycles_line cycles.now a.now collector.now b.now idle.now }
{
    if is(a, "collector") && is(b, "idle") {
        small(cycles)?;
        let collector = number_in(collector)?;
        let idle = number_in(idle)?;
        Some(TraceLine::Cycles { collector, idle })
    } else {
        None
    }
}

/// `end N`.
#[tactic(auto, unfolding(crate::specs::Trace::end_line))]
fn end(ticks: &[u8]) -> Option<TraceLine>
    ensures { result ≡ end_line ticks.now }
{
    let ticks = small(ticks)?;
    Some(TraceLine::End { ticks })
}

/// `live TICK WORDS above E`.
#[tactic(auto, unfolding(crate::specs::Trace::live_line))]
fn live(tick: &[u8], words: &[u8], a: &[u8], limit: &[u8]) -> Option<TraceLine>
    ensures { result ≡ live_line tick.now words.now a.now limit.now }
{
    if is(a, "above") {
        let tick = small(tick)?;
        number_in(words)?;
        number_in(limit)?;
        Some(TraceLine::Live { tick })
    } else {
        None
    }
}

/// A line of two words.
#[tactic(auto, unfolding(crate::specs::Trace::two_words))]
fn two_words(tasks: &[Task], name: &[u8], a: &[u8]) -> Option<TraceLine>
    ensures { result ≡ two_words tasks.now name.now a.now }
{
    if is(name, "low") {
        low(tasks, a)
    } else if is(name, "end") {
        end(a)
    } else {
        None
    }
}

/// A line of three words.
#[tactic(auto, unfolding(crate::specs::Trace::three_words))]
fn three_words(name: &[u8], a: &[u8], b: &[u8]) -> Option<TraceLine>
    ensures { result ≡ three_words name.now a.now b.now }
{
    if is(name, "t") { idle(a, b) } else { None }
}

/// A line of four words.
#[tactic(auto, unfolding(crate::specs::Trace::four_words))]
fn four_words(tasks: &[Task], name: &[u8], a: &[u8], b: &[u8], c: &[u8]) -> Option<TraceLine>
    ensures { result ≡ four_words tasks.now name.now a.now b.now c.now }
{
    if is(name, "t") {
        tick(tasks, a, b, c)
    } else if is(name, "out") {
        out(tasks, a, b, c)
    } else {
        None
    }
}

/// A line of five words.
#[tactic(auto, unfolding(crate::specs::Trace::five_words))]
fn five_words(
    tasks: &[Task],
    name: &[u8],
    a: &[u8],
    b: &[u8],
    c: &[u8],
    d: &[u8],
) -> Option<TraceLine>
    ensures { result ≡ five_words tasks.now name.now a.now b.now c.now d.now }
{
    if is(name, "t") {
        lost(a, b, c, d)
    } else if is(name, "ended") {
        ended(tasks, a, b, c, d)
    } else if is(name, "live") {
        live(a, b, c, d)
    } else {
        None
    }
}

/// A line of six words.
#[tactic(auto, unfolding(crate::specs::Trace::six_words))]
fn six_words(
    tasks: &[Task],
    name: &[u8],
    a: &[u8],
    b: &[u8],
    c: &[u8],
    d: &[u8],
    e: &[u8],
) -> Option<TraceLine>
    ensures { result ≡ six_words tasks.now name.now a.now b.now c.now d.now e.now }
{
    if is(name, "high") {
        high(tasks, a, b, c, d, e)
    } else if is(name, "fault") {
        fault(tasks, a, b, c, d, e)
    } else if is(name, "done") {
        done(tasks, a, b, c, d, e)
    } else if is(name, "cycles") {
        cycles(a, b, c, d, e)
    } else {
        None
    }
}

/// A line of nine words.
#[tactic(auto, unfolding(crate::specs::Trace::nine_words))]
fn nine_words(
    name: &[u8],
    a: &[u8],
    b: &[u8],
    c: &[u8],
    d: &[u8],
    e: &[u8],
    f: &[u8],
    g: &[u8],
    h: &[u8],
) -> Option<TraceLine>
    ensures { result ≡ nine_words name.now a.now b.now c.now d.now e.now f.now g.now h.now }
{
    if is(name, "heap") {
        heap(a, b, c, d, e, f, g, h)
    } else {
        None
    }
}

/// The line of these words, in a trace whose analysis has named these tasks so far.
#[tactic(auto, unfolding(crate::specs::Trace::line_of))]
pub fn trace_line(tasks: &[Task], words: &[&[u8]]) -> Option<TraceLine>
    ensures { result ≡ line_of tasks.now (map (λ word. word.now) words.now) }
{
    match words {
        [name, a] => two_words(tasks, name, a),
        [name, a, b] => three_words(name, a, b),
        [name, a, b, c] => four_words(tasks, name, a, b, c),
        [name, a, b, c, d] => five_words(tasks, name, a, b, c, d),
        [name, a, b, c, d, e] => six_words(tasks, name, a, b, c, d, e),
        [name, a, b, c, d, e, f, g, h] => nine_words(name, a, b, c, d, e, f, g, h),
        _ => None,
    }
}

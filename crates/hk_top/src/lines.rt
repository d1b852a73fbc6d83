//! The lines of the report.
ghost use Rattle.std.specs.Prelude.{◌≡◌, ◌+◌, ◌≤◌, [], ◌∷◌, ◌++◌, codes, decimal, length};
ghost use Rattle.hk_io.specs.Line.{with_word, with_number, with_end};
ghost use Rattle.hk_io.specs.Limits.{longest_line};
ghost use Rattle.hk_io.specs.declared.gather.TheConstants.{GATHER_ROOM};
ghost use Rattle.hk_top.specs.Text.{heap_line, high_line, low_line, out_line, fault_line, ended_line, task_line, event_line, lost_line, idle_line, done_line, cycles_line, end_line, live_line};

use hk_dispatch::JobFault;
use hk_io::{Gather, Line};

/// Adds a word to a line that has room for it and a space.
fn add_word(line: &mut Line, bytes: &[u8])
    requires { length line.old + 1 + length bytes.now ≤ longest_line }
    ensures added { line.new ≡ with_word line.old bytes.now }
    ensures room { length line.new ≤ length line.old + 1 + length bytes.now }
{
    line.word(bytes);
}

/// Adds a number to a line that has room for 20 digits and a space.
fn add_number(line: &mut Line, value: u64)
    requires { length line.old + 21 ≤ longest_line }
    ensures added { line.new ≡ with_number line.old value }
    ensures room { length line.new ≤ length line.old + 21 }
{
    line.number(value);
}

/// Ends a line that has room for the newline.
fn end(line: &mut Line)
    requires { length line.old + 1 ≤ longest_line }
    ensures { line.new ≡ with_end line.old }
{
    line.end();
}

/// The analysis of the heap: the most events of a collector's cycle, the most of an attempt that a job can spoil, the
/// length of the busy period in ticks, and the most events that the collector is behind.
#[tactic(auto, unfolding(crate::specs::Text::heap_line))]
pub fn heap_line(work: u64, attempt: u64, busy: u64, debt: u64) -> Line
    ensures { result ≡ heap_line work attempt busy debt }
{
    let mut line = Line::new();
    add_word(&mut line, b"heap work");
    add_number(&mut line, work);
    add_word(&mut line, b"attempt");
    add_number(&mut line, attempt);
    add_word(&mut line, b"busy");
    add_number(&mut line, busy);
    add_word(&mut line, b"debt");
    add_number(&mut line, debt);
    end(&mut line);
    line
}

/// A high task's response time and deadline, in ticks.
#[tactic(auto, unfolding(crate::specs::Text::high_line))]
pub fn high_line(name: &[u8], response: u64, deadline: u64) -> Line
    requires { length name.now ≤ 16 }
    ensures { result ≡ high_line name.now response deadline }
{
    let mut line = Line::new();
    add_word(&mut line, b"high");
    add_word(&mut line, name);
    add_word(&mut line, b"response");
    add_number(&mut line, response);
    add_word(&mut line, b"deadline");
    add_number(&mut line, deadline);
    end(&mut line);
    line
}

/// A low task.
#[tactic(auto, unfolding(crate::specs::Text::low_line))]
pub fn low_line(name: &[u8]) -> Line
    requires { length name.now ≤ 16 }
    ensures { result ≡ low_line name.now }
{
    let mut line = Line::new();
    add_word(&mut line, b"low");
    add_word(&mut line, name);
    end(&mut line);
    line
}

/// How many of a task's jobs ended, and the most ticks that one of them took from its arrival.
#[tactic(auto, unfolding(crate::specs::Text::done_line))]
pub fn done_line(name: &[u8], jobs: u64, latest: u64) -> Line
    requires { length name.now ≤ 16 }
    ensures { result ≡ done_line name.now jobs latest }
{
    let mut line = Line::new();
    add_word(&mut line, b"done");
    add_word(&mut line, name);
    add_word(&mut line, b"jobs");
    add_number(&mut line, jobs);
    add_word(&mut line, b"latest");
    add_number(&mut line, latest);
    end(&mut line);
    line
}

/// The collector's cycles that began, the ticks that it had, and the ticks that went to nobody.
#[tactic(auto, unfolding(crate::specs::Text::cycles_line))]
pub fn cycles_line(cycles: u64, collector: u64, idle: u64) -> Line
    ensures { result ≡ cycles_line cycles collector idle }
{
    let mut line = Line::new();
    add_word(&mut line, b"cycles");
    add_number(&mut line, cycles);
    add_word(&mut line, b"collector");
    add_number(&mut line, collector);
    add_word(&mut line, b"idle");
    add_number(&mut line, idle);
    end(&mut line);
    line
}

/// The ticks of the run.
#[tactic(auto, unfolding(crate::specs::Text::end_line))]
pub fn end_line(ticks: u64) -> Line
    ensures { result ≡ end_line ticks }
{
    let mut line = Line::new();
    add_word(&mut line, b"end");
    add_number(&mut line, ticks);
    end(&mut line);
    line
}

/// Adds a word behind a space to what waits, where there is room.
fn add_next_word(gather: &mut Gather, bytes: &[u8])
    requires { length gather.old + 1 + length bytes.now ≤ GATHER_ROOM }
    ensures added { gather.new ≡ gather.old ++ 32 ∷ bytes.now }
    ensures room { length gather.new ≤ length gather.old + 1 + length bytes.now }
{
    gather.add(b" ");
    gather.add(bytes);
}

/// Adds a number behind a space to what waits, where there is room.
fn add_next_number(gather: &mut Gather, value: u64)
    requires { length gather.old + 21 ≤ GATHER_ROOM }
    ensures added { gather.new ≡ gather.old ++ 32 ∷ decimal value }
    ensures room { length gather.new ≤ length gather.old + 21 }
{
    gather.add(b" ");
    gather.add_number(value);
}

/// Adds the beginning of the line of a tick to what waits, where there is room.
fn add_tick(gather: &mut Gather, tick: u64)
    requires { length gather.old + 22 ≤ GATHER_ROOM }
    ensures added { gather.new ≡ (gather.old ++ codes "t ") ++ decimal tick }
    ensures room { length gather.new ≤ length gather.old + 22 }
{
    gather.add(b"t ");
    gather.add_number(tick);
}

/// Adds the newline to what waits, where there is room.
fn add_end(gather: &mut Gather)
    requires { length gather.old + 1 ≤ GATHER_ROOM }
    ensures { gather.new ≡ gather.old ++ 10 ∷ [] }
{
    gather.add(b"\n");
}

/// Adds that a tick went to a task of a kind to what waits, where there is room for a line.
#[tactic(auto, unfolding(crate::specs::Text::task_line))]
pub fn add_task_line(gather: &mut Gather, tick: u64, kind: &[u8], name: &[u8])
    requires kind { length kind.now ≤ 16 }
    requires name { length name.now ≤ 16 }
    requires room { length gather.old + longest_line ≤ GATHER_ROOM }
    ensures { gather.new ≡ gather.old ++ task_line tick kind.now name.now }
{
    add_tick(gather, tick);
    add_next_word(gather, kind);
    add_next_word(gather, name);
    add_end(gather);
}

/// Adds that a tick went to the collector, for an event of this kind, to what waits, where there is room for a line.
#[tactic(auto, unfolding(crate::specs::Text::event_line))]
pub fn add_event_line(gather: &mut Gather, tick: u64, event: &[u8])
    requires event { length event.now ≤ 16 }
    requires room { length gather.old + longest_line ≤ GATHER_ROOM }
    ensures { gather.new ≡ gather.old ++ event_line tick event.now }
{
    add_tick(gather, tick);
    add_next_word(gather, b"gc");
    add_next_word(gather, event);
    add_end(gather);
}

/// Adds that a tick went to nobody to what waits, where there is room for a line.
#[tactic(auto, unfolding(crate::specs::Text::idle_line))]
pub fn add_idle_line(gather: &mut Gather, tick: u64)
    requires room { length gather.old + longest_line ≤ GATHER_ROOM }
    ensures { gather.new ≡ gather.old ++ idle_line tick }
{
    add_tick(gather, tick);
    add_next_word(gather, b"idle");
    add_end(gather);
}

/// Adds that a tick went to the collector, which lost an attempt of so many events, to what waits, where there is room for a line.
#[tactic(auto, unfolding(crate::specs::Text::lost_line))]
pub fn add_lost_line(gather: &mut Gather, tick: u64, events: u64)
    requires room { length gather.old + longest_line ≤ GATHER_ROOM }
    ensures { gather.new ≡ gather.old ++ lost_line tick events }
{
    add_tick(gather, tick);
    add_next_word(gather, b"gc lost");
    add_next_number(gather, events);
    add_end(gather);
}

/// Adds what a task put out at a tick to what waits, where there is room for a line.
#[tactic(auto, unfolding(crate::specs::Text::out_line))]
pub fn add_out_line(gather: &mut Gather, tick: u64, name: &[u8], value: u64)
    requires name { length name.now ≤ 16 }
    requires room { length gather.old + longest_line ≤ GATHER_ROOM }
    ensures { gather.new ≡ gather.old ++ out_line tick name.now value }
{
    gather.add(b"out");
    add_next_number(gather, tick);
    add_next_word(gather, name);
    add_next_number(gather, value);
    add_end(gather);
}

/// Adds that a job of a task ended at a tick with a fault at a statement of its script to what waits, where there is room for a
/// line.
#[tactic(auto, unfolding(crate::specs::Text::fault_line))]
pub fn add_fault_line(gather: &mut Gather, tick: u64, name: &[u8], job: u64, fault: JobFault)
    requires name { length name.now ≤ 16 }
    requires room { length gather.old + longest_line ≤ GATHER_ROOM }
    ensures { gather.new ≡ gather.old ++ fault_line tick name.now job fault.statement fault.nil }
{
    gather.add(b"fault");
    add_next_number(gather, tick);
    add_next_word(gather, name);
    add_next_number(gather, job);
    add_next_number(gather, u64::from(fault.statement));
    add_next_word(gather, if fault.nil { b"nil" } else { b"field" });
    add_end(gather);
}

/// Adds that a job of a task ended at a tick, so many ticks after it arrived, to what waits, where there is room for a line.
#[tactic(auto, unfolding(crate::specs::Text::ended_line))]
pub fn add_ended_line(gather: &mut Gather, tick: u64, name: &[u8], job: u64, ticks: u64)
    requires name { length name.now ≤ 16 }
    requires room { length gather.old + longest_line ≤ GATHER_ROOM }
    ensures { gather.new ≡ gather.old ++ ended_line tick name.now job ticks }
{
    gather.add(b"ended");
    add_next_number(gather, tick);
    add_next_word(gather, name);
    add_next_number(gather, job);
    add_next_number(gather, ticks);
    add_end(gather);
}

/// A tick went to the collector, for an event of this kind.
#[tactic(auto, unfolding(crate::specs::Text::event_line))]
pub fn event_line(tick: u64, event: &[u8]) -> Line
    requires { length event.now ≤ 16 }
    ensures { result ≡ event_line tick event.now }
{
    let mut line = Line::new();
    add_word(&mut line, b"t");
    add_number(&mut line, tick);
    add_word(&mut line, b"gc");
    add_word(&mut line, event);
    end(&mut line);
    line
}

/// At a tick the collector found so many words reserved, more than the space has for evacuation.
#[tactic(auto, unfolding(crate::specs::Text::live_line))]
pub fn live_line(tick: u64, words: u64, limit: u64) -> Line
    ensures { result ≡ live_line tick words limit }
{
    let mut line = Line::new();
    add_word(&mut line, b"live");
    add_number(&mut line, tick);
    add_number(&mut line, words);
    add_word(&mut line, b"above");
    add_number(&mut line, limit);
    end(&mut line);
    line
}

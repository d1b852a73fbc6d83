//! The lines of a picture.
ghost use Rattle.std.specs.Prelude.{◌≡◌, ◌+◌, ◌*◌, ◌/◌, ◌<◌, ◌≤◌, ◌^◌, [], take, length, max};
ghost use Rattle.hk_io.specs.Line.{with_word, with_number, with_end};
ghost use Rattle.hk_io.specs.Limits.{longest_line};
ghost use Rattle.hk_chart.specs.Shapes.{task_at};
ghost use Rattle.hk_chart.specs.Drawing.{row_of, height_of, name_at, bar_start, bar_text, mark_text, told_text, fault_text, end_text, cause_word, rectangle_text, stroke_text, title_text, size_text, name_text, label_text, tenth_of, axis_text, grid_text, plot_text, below_text, frame_text, upright_text, curve_start, rise_text, curve_end, owed_units, owed_text, pays, owed_fall, is_collector, is_nobody, collector_rise, idle_rise, counts_text};

use crate::progress::Progress;
use crate::shape::{Bar, Lane, Shape};
use crate::span::Span;
use crate::task::{MAX_NAME, Task};
use crate::trace_line::Cause;
use hk_io::Line;

/// Adds a word to a line that has room for it and a space.
pub fn add_word(line: &mut Line, bytes: &[u8])
    requires { length line.old + 1 + length bytes.now ≤ longest_line }
    ensures added { line.new ≡ with_word line.old bytes.now }
    ensures room { length line.new ≤ length line.old + 1 + length bytes.now }
{
    line.word(bytes);
}

/// Adds a number to a line that has room for 20 digits and a space.
pub fn add_number(line: &mut Line, value: u64)
    requires { length line.old + 21 ≤ longest_line }
    ensures added { line.new ≡ with_number line.old value }
    ensures room { length line.new ≤ length line.old + 21 }
{
    line.number(value);
}

/// Ends a line that has room for the newline.
pub fn end(line: &mut Line)
    requires { length line.old + 1 ≤ longest_line }
    ensures { line.new ≡ with_end line.old }
{
    line.end();
}

/// Where a lane begins, from the top.
fn row_of(tasks: u8, lane: Lane) -> u64
    ensures value { result ≡ row_of tasks lane }
    ensures few { result ≤ 8000 }
{
    match lane {
        Lane::Task(place) => 30 * u64::from(place),
        Lane::Collector | Lane::Lost => 30 * u64::from(tasks),
        Lane::Nobody => 30 * u64::from(tasks) + 30,
    }
}

/// The height of all lanes.
fn height_of(tasks: u8) -> u64
    ensures value { result ≡ height_of tasks }
    ensures few { result ≤ 8000 }
{
    30 * u64::from(tasks) + 60
}

/// The first bytes of a name, which are all of them.
fn shown(name: &[u8]) -> &[u8]
    ensures value { result.now ≡ take MAX_NAME name.now }
    ensures short { length result.now ≤ 16 }
{
    &name[..name.len().min(MAX_NAME)]
}

/// The name of the task of a place.
fn name_at(tasks: &[Task], place: u8) -> &[u8]
    ensures value { result.now ≡ name_at tasks.now place }
    ensures short { length result.now ≤ 16 }
{
    match tasks.get(usize::from(place)) {
        Some(task) => shown(task.name.items.as_slice()),
        None => b"",
    }
}

/// How a rectangle begins.
fn bar_start(high: u8, lane: Lane) -> &'static [u8]
    ensures value { result.now ≡ bar_start high lane }
    ensures short { length result.now ≤ 40 }
{
    match lane {
        Lane::Task(place) => {
            if place < high {
                b"<path class=\"high\" d=\"M"
            } else {
                b"<path class=\"low\" d=\"M"
            }
        }
        Lane::Collector => b"<path class=\"collector\" d=\"M",
        Lane::Lost => b"<path class=\"lost\" d=\"M",
        Lane::Nobody => b"<path class=\"nobody\" d=\"M",
    }
}

/// A rectangle.
#[tactic(auto, unfolding(crate::specs::Drawing::bar_text))]
fn bar_line(progress: &Progress, bar: Bar) -> Line
    ensures { result ≡ bar_text progress.now bar }
{
    let mut line = Line::new();
    add_word(&mut line, bar_start(progress.high, bar.lane));
    add_number(&mut line, u64::from(bar.first));
    add_number(&mut line, row_of(progress.tasks, bar.lane) + 17);
    add_word(&mut line, b"H");
    add_number(&mut line, u64::from(bar.last) + 1);
    add_word(&mut line, b"\"/>");
    end(&mut line);
    line
}

/// The stroke of a mark.
#[tactic(auto, unfolding(crate::specs::Drawing::mark_text))]
fn mark_line(start: &[u8], moment: u64, y: u64, stroke: &[u8]) -> Line
    requires start { length start.now ≤ 40 }
    requires stroke { length stroke.now ≤ 20 }
    ensures { result ≡ mark_text start.now moment y stroke.now }
{
    let mut line = Line::new();
    add_word(&mut line, start);
    add_number(&mut line, moment);
    add_number(&mut line, y);
    add_word(&mut line, stroke);
    end(&mut line);
    line
}

/// What a mark says.
#[tactic(auto, unfolding(crate::specs::Drawing::told_text))]
fn told_line(what: &[u8], tick: u64, name: &[u8], number: u64) -> Line
    requires what { length what.now ≤ 16 }
    requires name { length name.now ≤ 16 }
    ensures { result ≡ told_text what.now tick name.now number }
{
    let mut line = Line::new();
    add_word(&mut line, what);
    add_number(&mut line, tick);
    add_word(&mut line, name);
    add_number(&mut line, number);
    add_word(&mut line, b"</title></path>");
    end(&mut line);
    line
}

/// What the mark of a fault says.
#[tactic(auto, unfolding(crate::specs::Drawing::fault_text))]
fn fault_line(tick: u64, name: &[u8], job: u64, statement: u64, why: &[u8]) -> Line
    requires name { length name.now ≤ 16 }
    requires why { length why.now ≤ 16 }
    ensures { result ≡ fault_text tick name.now job statement why.now }
{
    let mut line = Line::new();
    add_word(&mut line, b"fault");
    add_number(&mut line, tick);
    add_word(&mut line, name);
    add_number(&mut line, job);
    add_number(&mut line, statement);
    add_word(&mut line, why);
    add_word(&mut line, b"</title></path>");
    end(&mut line);
    line
}

/// What the mark of an end says.
#[tactic(auto, unfolding(crate::specs::Drawing::end_text))]
fn end_line(tick: u64, name: &[u8], job: u64, ticks: u64) -> Line
    requires { length name.now ≤ 16 }
    ensures { result ≡ end_text tick name.now job ticks }
{
    let mut line = Line::new();
    add_word(&mut line, b"ended");
    add_number(&mut line, tick);
    add_word(&mut line, name);
    add_number(&mut line, job);
    add_number(&mut line, ticks);
    add_word(&mut line, b"</title></path>");
    end(&mut line);
    line
}

/// Why a job met a fault.
fn cause_word(cause: Cause) -> &'static [u8]
    ensures value { result.now ≡ cause_word cause }
    ensures short { length result.now ≤ 16 }
{
    match cause {
        Cause::Nil => b"nil",
        Cause::Field => b"field",
    }
}

/// The rectangle of a shape, if it is one.
#[tactic(auto, unfolding(crate::specs::Drawing::rectangle_text))]
pub fn rectangle_line(progress: &Progress, shape: Shape) -> Line
    ensures { result ≡ rectangle_text progress.now shape }
{
    match shape {
        Shape::Bar(bar) => bar_line(progress, bar),
        _ => Line::new(),
    }
}

/// The stroke of a mark.
#[tactic(auto, unfolding(crate::specs::Drawing::stroke_text))]
pub fn stroke_line(progress: &Progress, shape: Shape) -> Line
    ensures { result ≡ stroke_text progress.now shape }
{
    match shape {
        Shape::Bar(_) => Line::new(),
        Shape::Lost { tick, .. } => mark_line(
            b"<path class=\"mark\" d=\"M",
            u64::from(tick),
            30 * u64::from(progress.tasks) + 9,
            b"v 16\"><title>",
        ),
        Shape::Out { tick, lane, .. } => mark_line(
            b"<path class=\"out\" d=\"M",
            u64::from(tick),
            30 * u64::from(lane),
            b"v 6\"><title>",
        ),
        Shape::Fault { tick, lane, .. } => mark_line(
            b"<path class=\"fault\" d=\"M",
            u64::from(tick),
            30 * u64::from(lane),
            b"v 6\"><title>",
        ),
        Shape::Arrival { moment, lane, .. } => mark_line(
            b"<path class=\"arrival\" d=\"M",
            moment,
            30 * u64::from(lane) + 6,
            b"v 6\"><title>",
        ),
        Shape::Deadline { moment, lane, .. } => mark_line(
            b"<path class=\"deadline\" d=\"M",
            moment,
            30 * u64::from(lane) + 26,
            b"v 4\"><title>",
        ),
        Shape::End { tick, lane, .. } => mark_line(
            b"<path class=\"end\" d=\"M",
            u64::from(tick) + 1,
            30 * u64::from(lane) + 22,
            b"v 4\"><title>",
        ),
    }
}

/// What a shape says.
#[tactic(auto, unfolding(crate::specs::Drawing::title_text))]
pub fn title_line(tasks: &[Task], shape: Shape) -> Line
    ensures { result ≡ title_text tasks.now shape }
{
    match shape {
        Shape::Bar(_) => Line::new(),
        Shape::Lost { tick, events } => told_line(b"lost", u64::from(tick), b"events", events),
        Shape::Out { tick, lane, value } => {
            told_line(b"out", u64::from(tick), name_at(tasks, lane), value)
        }
        Shape::Fault {
            tick,
            lane,
            job,
            statement,
            cause,
        } => fault_line(
            u64::from(tick),
            name_at(tasks, lane),
            u64::from(job),
            u64::from(statement),
            cause_word(cause),
        ),
        Shape::Arrival { moment, lane, job } => {
            told_line(b"arrival", moment, name_at(tasks, lane), u64::from(job))
        }
        Shape::Deadline { moment, lane, job } => {
            told_line(b"deadline", moment, name_at(tasks, lane), u64::from(job))
        }
        Shape::End {
            tick,
            lane,
            job,
            ticks,
        } => end_line(
            u64::from(tick),
            name_at(tasks, lane),
            u64::from(job),
            u64::from(ticks),
        ),
    }
}

/// How large a picture is.
#[tactic(auto, unfolding(crate::specs::Drawing::size_text))]
pub fn size_line(tasks: u8) -> Line
    ensures { result ≡ size_text tasks }
{
    let mut line = Line::new();
    add_word(&mut line, b"viewBox=\"0 0 1200");
    add_number(&mut line, height_of(tasks) + 330);
    add_word(&mut line, b"\">");
    end(&mut line);
    line
}

/// The name of a picture.
#[tactic(auto, unfolding(crate::specs::Drawing::name_text))]
pub fn name_line(span: Span, ticks: u64) -> Line
    ensures { result ≡ name_text span ticks }
{
    let mut line = Line::new();
    add_word(&mut line, b"<title id=\"title\">Who got each tick:");
    add_number(&mut line, span.ticks);
    add_word(&mut line, b"ticks from");
    add_number(&mut line, span.first);
    add_word(&mut line, b"on, of a run of");
    add_number(&mut line, ticks);
    add_word(&mut line, b"</title>");
    end(&mut line);
    line
}

/// The name of a lane.
#[tactic(auto, unfolding(crate::specs::Drawing::label_text))]
pub fn label_line(name: &[u8]) -> Line
    ensures { result ≡ label_text name.now }
{
    let mut line = Line::new();
    add_word(&mut line, b"<tspan x=\"8\" dy=\"30\">");
    add_word(&mut line, shown(name));
    add_word(&mut line, b"</tspan>");
    end(&mut line);
    line
}

/// How far a tenth of a span is from its first tick.
fn tenth_of(span: Span, tenth: u64) -> u64
    requires span { span.ticks ≤ 2 ^ 32 }
    requires tenth { tenth ≤ 10 }
    ensures value { result ≡ tenth_of span tenth }
    ensures few { result ≤ 2 ^ 32 }
{
    span.ticks * tenth / 10
}

/// The number of a tick on the axis.
#[tactic(auto, unfolding(crate::specs::Drawing::axis_text))]
pub fn axis_line(span: Span, tenth: u64) -> Line
    requires first { span.first < 2 ^ 32 }
    requires ticks { span.ticks ≤ 2 ^ 32 }
    requires some { 0 < span.ticks }
    requires tenth { tenth ≤ 10 }
    ensures { result ≡ axis_text span tenth }
{
    let mut line = Line::new();
    let far = tenth_of(span, tenth);
    let across = 1000 * far / span.ticks;
    add_word(&mut line, b"<text class=\"axis\" transform=\"translate(");
    add_number(&mut line, 160 + across);
    add_word(&mut line, b"30)\">");
    add_number(&mut line, span.first + far);
    add_word(&mut line, b"</text>");
    end(&mut line);
    line
}

/// The rule at a tick of the axis.
#[tactic(auto, unfolding(crate::specs::Drawing::grid_text))]
pub fn grid_line(span: Span, tasks: u8, tenth: u64) -> Line
    requires first { span.first < 2 ^ 32 }
    requires ticks { span.ticks ≤ 2 ^ 32 }
    requires tenth { tenth ≤ 10 }
    ensures { result ≡ grid_text span tasks tenth }
{
    let mut line = Line::new();
    let far = tenth_of(span, tenth);
    add_word(&mut line, b"<path class=\"grid\" d=\"M");
    add_number(&mut line, span.first + far);
    add_word(&mut line, b"0 V");
    add_number(&mut line, height_of(tasks));
    add_word(&mut line, b"\"/>");
    end(&mut line);
    line
}

/// The plot of the lanes.
#[tactic(auto, unfolding(crate::specs::Drawing::plot_text))]
pub fn plot_line(span: Span) -> Line
    ensures { result ≡ plot_text span }
{
    let mut line = Line::new();
    add_word(
        &mut line,
        b"<svg x=\"160\" y=\"40\" width=\"1000\" height=\"1000\" preserveAspectRatio=\"none\" viewBox=\"",
    );
    add_number(&mut line, span.first);
    add_word(&mut line, b"0");
    add_number(&mut line, span.ticks);
    add_word(&mut line, b"1000\">");
    end(&mut line);
    line
}

/// Where the plots below stand.
#[tactic(auto, unfolding(crate::specs::Drawing::below_text))]
pub fn below_line(tasks: u8) -> Line
    ensures { result ≡ below_text tasks }
{
    let mut line = Line::new();
    add_word(&mut line, b"</svg></g><g transform=\"translate(0");
    add_number(&mut line, height_of(tasks) + 60);
    add_word(&mut line, b")\">");
    end(&mut line);
    line
}

/// A plot below, which begins so and has so many units up.
#[tactic(auto, unfolding(crate::specs::Drawing::frame_text))]
pub fn frame_line(start: &[u8], span: Span, units: u64) -> Line
    requires { length start.now ≤ 88 }
    ensures { result ≡ frame_text start.now span units }
{
    let mut line = Line::new();
    add_word(&mut line, start);
    add_number(&mut line, span.first);
    add_word(&mut line, b"0");
    add_number(&mut line, span.ticks);
    add_number(&mut line, units);
    add_word(&mut line, b"\">");
    end(&mut line);
    line
}

/// Its units go up.
#[tactic(auto, unfolding(crate::specs::Drawing::upright_text))]
pub fn upright_line(units: u64) -> Line
    ensures { result ≡ upright_text units }
{
    let mut line = Line::new();
    add_word(&mut line, b"<g transform=\"matrix(1 0 0 -1 0");
    add_number(&mut line, units);
    add_word(&mut line, b")\">");
    end(&mut line);
    line
}

/// The events up to the top of the plot of what is owed.
pub fn owed_units(progress: &Progress) -> u64
    ensures { result ≡ owed_units progress.now }
{
    progress.debt.max(1)
}

/// How a curve begins.
#[tactic(auto, unfolding(crate::specs::Drawing::curve_start))]
pub fn curve_start_line(start: &[u8], first: u64) -> Line
    requires { length start.now ≤ 60 }
    ensures { result ≡ curve_start start.now first }
{
    let mut line = Line::new();
    add_word(&mut line, start);
    add_number(&mut line, first);
    add_word(&mut line, b"0");
    end(&mut line);
    line
}

/// A part of a curve that rises.
#[tactic(auto, unfolding(crate::specs::Drawing::rise_text))]
fn rise_line(bar: Bar) -> Line
    ensures { result ≡ rise_text bar }
{
    let ticks = (u64::from(bar.last) + 1).saturating_sub(u64::from(bar.first));
    let mut line = Line::new();
    add_word(&mut line, b"H");
    add_number(&mut line, u64::from(bar.first));
    add_word(&mut line, b"l");
    add_number(&mut line, ticks);
    add_number(&mut line, ticks);
    end(&mut line);
    line
}

/// How a curve ends.
#[tactic(auto, unfolding(crate::specs::Drawing::curve_end))]
pub fn curve_end_line(span: Span) -> Line
    requires first { span.first < 2 ^ 32 }
    requires ticks { span.ticks ≤ 2 ^ 32 }
    ensures { result ≡ curve_end span }
{
    let mut line = Line::new();
    add_word(&mut line, b"H");
    add_number(&mut line, span.first + span.ticks);
    add_word(&mut line, b"\"/>");
    end(&mut line);
    line
}

/// The part of the curve of what is owed at a rectangle of the collector.
#[tactic(auto, unfolding(crate::specs::Drawing::owed_text))]
fn owed_line(bar: Bar) -> Line
    ensures { result ≡ owed_text bar }
{
    let behind = u64::from(bar.last) + 1;
    let ticks = behind.saturating_sub(u64::from(bar.first));
    let mut line = Line::new();
    add_word(&mut line, b"H");
    add_number(&mut line, u64::from(bar.first));
    add_word(&mut line, b"v");
    add_number(&mut line, ticks);
    add_word(&mut line, b"L");
    add_number(&mut line, behind);
    add_word(&mut line, b"0");
    end(&mut line);
    line
}

/// Whether each tick of a lane pays for an event that was owed, and makes none owed again.
fn pays(lane: Lane) -> bool
    ensures { result ≡ pays lane }
{
    match lane {
        Lane::Collector => true,
        Lane::Task(_) | Lane::Lost | Lane::Nobody => false,
    }
}

/// Whether a lane is the collector's.
fn is_collector(lane: Lane) -> bool
    ensures { result ≡ is_collector lane }
{
    match lane {
        Lane::Collector | Lane::Lost => true,
        Lane::Task(_) | Lane::Nobody => false,
    }
}

/// Whether it is nobody's.
fn is_nobody(lane: Lane) -> bool
    ensures { result ≡ is_nobody lane }
{
    match lane {
        Lane::Nobody => true,
        Lane::Task(_) | Lane::Collector | Lane::Lost => false,
    }
}

/// The part of the curve of what is owed at a shape.
#[tactic(auto, unfolding(crate::specs::Drawing::owed_fall))]
pub fn owed_fall_line(shape: Shape) -> Line
    ensures { result ≡ owed_fall shape }
{
    match shape {
        Shape::Bar(bar) => {
            if pays(bar.lane) {
                owed_line(bar)
            } else {
                Line::new()
            }
        }
        _ => Line::new(),
    }
}

/// The part of the collector's curve at a shape.
#[tactic(auto, unfolding(crate::specs::Drawing::collector_rise))]
pub fn collector_rise_line(shape: Shape) -> Line
    ensures { result ≡ collector_rise shape }
{
    match shape {
        Shape::Bar(bar) => {
            if is_collector(bar.lane) {
                rise_line(bar)
            } else {
                Line::new()
            }
        }
        _ => Line::new(),
    }
}

/// The part of nobody's curve at a shape.
#[tactic(auto, unfolding(crate::specs::Drawing::idle_rise))]
pub fn idle_rise_line(shape: Shape) -> Line
    ensures { result ≡ idle_rise shape }
{
    match shape {
        Shape::Bar(bar) => {
            if is_nobody(bar.lane) {
                rise_line(bar)
            } else {
                Line::new()
            }
        }
        _ => Line::new(),
    }
}

/// What the trace says of the whole run.
#[tactic(auto, unfolding(crate::specs::Drawing::counts_text))]
pub fn counts_line(progress: &Progress) -> Line
    ensures { result ≡ counts_text progress.now }
{
    let mut line = Line::new();
    add_word(
        &mut line,
        b"</g></svg><text x=\"160\" y=\"200\">run: debt at most",
    );
    add_number(&mut line, progress.debt);
    add_word(&mut line, b"events, collector");
    add_number(&mut line, progress.collector);
    add_word(&mut line, b"ticks, nobody");
    add_number(&mut line, progress.idle);
    add_word(&mut line, b"ticks</text>");
    end(&mut line);
    line
}

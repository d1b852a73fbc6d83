//! Writes a picture.
ghost use Rattle.std.specs.Prelude.{◌<◌, ◌≤◌, ◌^◌, ◌++◌, IfOk, OnOk, OnErr};
ghost use Rattle.std.specs.List.{flat_map};
ghost use Rattle.std.specs.Io.KnownBytes.{Appends};
ghost use Rattle.hk_io.specs.Bytes.{AppendsPrefix, AppendsFront};
ghost use Rattle.hk_io.specs.Faults.{HasCause};
ghost use Rattle.hk_chart.specs.Framed.{framed, IsFrame};
ghost use Rattle.hk_chart.specs.Drawing.{whole_mark, part_text, texts_of};

use crate::caption::{between, bottom, middle, owed_start, top};
use crate::chart::Chart;
use crate::drawing::{
    collector_rise_line, idle_rise_line, owed_fall_line, rectangle_line, stroke_line, title_line,
};
use crate::progress::Progress;
use crate::shape::Shape;
use crate::span::Span;
use crate::task::Task;
use crate::text::Text;
use hk_io::{Failed, Gather, Sink, put_all};
use std::alloc::{AllocError, Global};

/// A part of a picture that has a text for each shape.
#[derive(Clone, Copy, Debug, PartialEq, Eq)]
pub enum Part {
    /// The rectangles.
    Bars,
    /// The marks.
    Marks,
    /// The curve of what the collector owed at least.
    Owed,
    /// The curve of the collector's ticks.
    Collector,
    /// The curve of nobody's ticks.
    Idle,
}

/// What stands around the shapes of a picture.
#[derive(Drop)]
pub struct Frame {
    pub top: Text,
    pub owed: Text,
    pub middle: Text,
    pub between: Text,
    pub bottom: Text,
}

/// Makes what stands around the shapes of a picture.
pub fn frame_of(alloc: Global, span: Span, chart: &Chart) -> Result<Frame, AllocError>
    requires first { span.first < 2 ^ 32 }
    requires ticks { span.ticks ≤ 2 ^ 32 }
    requires some { 0 < span.ticks }
    ensures { IfOk result (IsFrame span chart.now) }
{
    Ok(Frame {
        top: top(alloc, span, chart)?,
        owed: owed_start(alloc, span, chart)?,
        middle: middle(alloc, span)?,
        between: between(alloc, span)?,
        bottom: bottom(alloc, span, chart)?,
    })
}

/// Writes a text behind what waits.
#[tactic(auto, using(hk_io::proofs::BytesLemmas::gathered))]
fn put_text<K: Sink>(text: &Text, gather: &mut Gather, sink: &mut K) -> Result<(), Failed>
    ensures ok { OnOk result (AppendsFront (K.taken sink.old) (K.taken sink.new) (gather.old ++ text.now) gather.new) }
    ensures prefix { OnErr result (AppendsPrefix (K.taken sink.old) (K.taken sink.new) (gather.old ++ text.now)) }
    ensures cause { HasCause (K.faults sink.old) (K.faults sink.new) result }
{
    gather.flush(sink)?;
    put_all(sink, text.bytes())
}

/// Writes a mark behind what waits.
#[tactic(auto, using(crate::proofs::Joined::joined), unfolding(crate::specs::Drawing::whole_mark))]
fn put_mark<K: Sink>(
    progress: &Progress,
    tasks: &[Task],
    shape: Shape,
    gather: &mut Gather,
    sink: &mut K,
) -> Result<(), Failed>
    ensures ok { OnOk result (AppendsFront (K.taken sink.old) (K.taken sink.new) (gather.old ++ whole_mark progress.now tasks.now shape) gather.new) }
    ensures prefix { OnErr result (AppendsPrefix (K.taken sink.old) (K.taken sink.new) (gather.old ++ whole_mark progress.now tasks.now shape)) }
    ensures cause { HasCause (K.faults sink.old) (K.faults sink.new) result }
{
    gather.push(sink, stroke_line(progress, shape).bytes())?;
    gather.push(sink, title_line(tasks, shape).bytes())
}

/// Writes the text of a part for a shape behind what waits.
fn put_shape<K: Sink>(
    part: Part,
    progress: &Progress,
    tasks: &[Task],
    shape: Shape,
    gather: &mut Gather,
    sink: &mut K,
) -> Result<(), Failed>
    ensures ok { OnOk result (AppendsFront (K.taken sink.old) (K.taken sink.new) (gather.old ++ part_text part progress.now tasks.now shape) gather.new) }
    ensures prefix { OnErr result (AppendsPrefix (K.taken sink.old) (K.taken sink.new) (gather.old ++ part_text part progress.now tasks.now shape)) }
    ensures cause { HasCause (K.faults sink.old) (K.faults sink.new) result }
{
    match part {
        Part::Bars => gather.push(sink, rectangle_line(progress, shape).bytes()),
        Part::Marks => put_mark(progress, tasks, shape, gather, sink),
        Part::Owed => gather.push(sink, owed_fall_line(shape).bytes()),
        Part::Collector => gather.push(sink, collector_rise_line(shape).bytes()),
        Part::Idle => gather.push(sink, idle_rise_line(shape).bytes()),
    }
}

/// Writes a part behind what waits.
fn put_shapes<K: Sink>(
    part: Part,
    progress: &Progress,
    tasks: &[Task],
    shapes: &[Shape],
    gather: &mut Gather,
    sink: &mut K,
) -> Result<(), Failed>
    ensures ok { OnOk result (AppendsFront (K.taken sink.old) (K.taken sink.new) (gather.old ++ flat_map (part_text part progress.now tasks.now) shapes.now) gather.new) }
    ensures prefix { OnErr result (AppendsPrefix (K.taken sink.old) (K.taken sink.new) (gather.old ++ flat_map (part_text part progress.now tasks.now) shapes.now)) }
    ensures cause { HasCause (K.faults sink.old) (K.faults sink.new) result }
{
    for shape in shapes {
        put_shape(part, progress, tasks, *shape, gather, sink)?;
    }
    Ok(())
}

/// Writes a part of a picture behind what waits.
fn put_part<K: Sink>(
    part: Part,
    chart: &Chart,
    gather: &mut Gather,
    sink: &mut K,
) -> Result<(), Failed>
    ensures ok { OnOk result (AppendsFront (K.taken sink.old) (K.taken sink.new) (gather.old ++ texts_of part chart.now) gather.new) }
    ensures prefix { OnErr result (AppendsPrefix (K.taken sink.old) (K.taken sink.new) (gather.old ++ texts_of part chart.now)) }
    ensures cause { HasCause (K.faults sink.old) (K.faults sink.new) result }
{
    put_shapes(
        part,
        &chart.progress,
        chart.tasks.all(),
        chart.shapes.all(),
        gather,
        sink,
    )
}

/// Writes a picture.
#[tactic(auto, using(hk_io::proofs::BytesLemmas::gathered))]
pub fn put_picture<K: Sink>(frame: &Frame, chart: &Chart, sink: &mut K) -> Result<(), Failed>
    ensures ok { OnOk result (Appends (K.taken sink.old) (K.taken sink.new) (framed frame.now chart.now)) }
    ensures prefix { OnErr result (AppendsPrefix (K.taken sink.old) (K.taken sink.new) (framed frame.now chart.now)) }
    ensures cause { HasCause (K.faults sink.old) (K.faults sink.new) result }
{
    let mut gather = Gather::new();
    put_text(&frame.top, &mut gather, sink)?;
    put_part(Part::Bars, chart, &mut gather, sink)?;
    put_part(Part::Marks, chart, &mut gather, sink)?;
    put_text(&frame.owed, &mut gather, sink)?;
    put_part(Part::Owed, chart, &mut gather, sink)?;
    put_text(&frame.middle, &mut gather, sink)?;
    put_part(Part::Collector, chart, &mut gather, sink)?;
    put_text(&frame.between, &mut gather, sink)?;
    put_part(Part::Idle, chart, &mut gather, sink)?;
    put_text(&frame.bottom, &mut gather, sink)?;
    gather.flush(sink)
}

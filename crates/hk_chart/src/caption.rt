//! What stands around the shapes of a picture.
ghost use Rattle.std.specs.Prelude.{◌≡◌, ◌<◌, ◌≤◌, ◌^◌, ◌++◌, [], codes, length, IfOk};
ghost use Rattle.std.specs.List.{flat_map};
ghost use Rattle.hk_chart.specs.Drawing.{head_text, style_text, caption_text, legend_text, task_label, axis_texts, grid_texts, with_head, with_names, with_plot, top_text, owed_place, ticks_place, owed_start_text, middle_text, between_text, bottom_text};

use crate::chart::Chart;
use crate::drawing::{
    axis_line, below_line, counts_line, curve_end_line, curve_start_line, frame_line, grid_line,
    label_line, name_line, owed_units, plot_line, size_line, upright_line,
};
use crate::span::Span;
use crate::task::Task;
use crate::text::Text;
use std::alloc::{AllocError, Global};

/// How a picture begins.
fn head_text() -> &'static [u8]
    ensures { result.now ≡ head_text }
{
    b"<svg xmlns=\"http://www.w3.org/2000/svg\" role=\"graphics-document document\" aria-labelledby=\"title\" aria-describedby=\"desc\" font-family=\"monospace\" font-size=\"15\"\n"
}

/// What a picture shows, in words, and its colours.
fn style_text() -> &'static [u8]
    ensures { result.now ≡ style_text }
{
    b"<desc id=\"desc\">One lane for each task, one for the collector and one for nobody, along an axis of ticks. A rectangle is a run of ticks of one lane. Upright strokes, from the top of a lane to its foot: outputs and faults, arrivals of jobs, their ends, and their deadlines; in the lane of the collector, lost attempts. Below: how many events the collector owed at least, and how many ticks the collector had so far, and how many nobody had.</desc>\n<style>\nsvg svg{overflow:visible}path{fill:none}\n.high{stroke:#0072b2}.low{stroke:#56b4e9}.collector{stroke:#009e73}.lost{stroke:#d55e00}.nobody{stroke:#bbbbbb}\n.high,.low,.collector,.lost,.nobody{stroke-width:10}\n.arrival,.end,.deadline,.out,.fault,.mark,.grid,.owed,.collected,.idle{vector-effect:non-scaling-stroke}\n.arrival,.end{stroke:#000000;stroke-width:1.5}.deadline{stroke:#d55e00;stroke-width:2}\n.out{stroke:#e69f00;stroke-width:3}.fault{stroke:#cc79a7;stroke-width:5}.mark{stroke:#d55e00;stroke-width:2}\n.grid{stroke:#dddddd;stroke-width:1}.axis{text-anchor:middle;font-size:13px}\n.owed{fill:#009e73;stroke:#009e73;stroke-width:1}.collected{stroke:#009e73;stroke-width:2}.idle{stroke:#777777;stroke-width:2;stroke-dasharray:5 3}\n</style>\n<clipPath id=\"plot\"><rect x=\"158\" y=\"0\" width=\"1004\" height=\"1200\"/></clipPath>\n<rect width=\"100%\" height=\"100%\" fill=\"#ffffff\"/>\n<text x=\"8\" y=\"32\">\n"
}

/// The names of the curves, and a frame round each plot.
fn caption_text() -> &'static [u8]
    ensures { result.now ≡ caption_text }
{
    b"<text x=\"8\" y=\"20\">owed at least,</text><text x=\"8\" y=\"42\">of the bound</text>\n<text x=\"8\" y=\"100\">ticks so far</text><text x=\"8\" y=\"124\" fill=\"#00664b\">collector: solid</text><text x=\"8\" y=\"148\" fill=\"#555555\">nobody: dashed</text>\n<path d=\"M160 0H1160V60H160z M160 80H1160V180H160z\" stroke=\"#dddddd\"/>\n"
}

/// What the marks are.
fn legend_text() -> &'static [u8]
    ensures { result.now ≡ legend_text }
{
    b"<path class=\"high\" d=\"M160 223h30\"/><text x=\"196\" y=\"228\">high task</text><path class=\"low\" d=\"M320 223h30\"/><text x=\"356\" y=\"228\">low task</text><path class=\"collector\" d=\"M480 223h30\"/><text x=\"516\" y=\"228\">collector</text><path class=\"lost\" d=\"M640 223h30\"/><text x=\"676\" y=\"228\">lost attempt</text><path class=\"nobody\" d=\"M820 223h30\"/><text x=\"856\" y=\"228\">nobody</text>\n<path class=\"out\" d=\"M175 240v6\"/><text x=\"196\" y=\"254\">output</text><path class=\"fault\" d=\"M335 240v6\"/><text x=\"356\" y=\"254\">fault</text><path class=\"arrival\" d=\"M495 244v6\"/><text x=\"516\" y=\"254\">arrival</text><path class=\"end\" d=\"M655 250v6\"/><text x=\"676\" y=\"254\">end</text><path class=\"deadline\" d=\"M835 252v6\"/><text x=\"856\" y=\"254\">deadline</text>\n</g></svg>\n"
}

/// Adds the names of the lanes of tasks.
fn add_labels(text: &mut Text, tasks: &[Task]) -> Result<(), AllocError>
    ensures { IfOk result (λ _. text.new ≡ text.old ++ flat_map task_label tasks.now) }
{
    for task in tasks {
        text.add(label_line(task.name.items.as_slice()).bytes())?;
    }
    Ok(())
}

/// Adds the numbers on the axis.
fn add_axis(text: &mut Text, span: Span) -> Result<(), AllocError>
    requires first { span.first < 2 ^ 32 }
    requires ticks { span.ticks ≤ 2 ^ 32 }
    requires some { 0 < span.ticks }
    ensures { IfOk result (λ _. text.new ≡ text.old ++ axis_texts span) }
{
    for tenth in 0..11 {
        text.add(axis_line(span, tenth).bytes())?;
    }
    Ok(())
}

/// Adds the rules at the ticks of the axis.
fn add_grid(text: &mut Text, span: Span, tasks: u8) -> Result<(), AllocError>
    requires first { span.first < 2 ^ 32 }
    requires ticks { span.ticks ≤ 2 ^ 32 }
    ensures { IfOk result (λ _. text.new ≡ text.old ++ grid_texts span tasks) }
{
    for tenth in 0..11 {
        text.add(grid_line(span, tasks, tenth).bytes())?;
    }
    Ok(())
}

/// Adds the head.
fn add_head(text: &mut Text, span: Span, chart: &Chart) -> Result<(), AllocError>
    ensures { IfOk result (λ _. text.new ≡ with_head text.old span chart.now) }
{
    text.add(head_text())?;
    text.add(size_line(chart.progress.tasks).bytes())?;
    text.add(name_line(span, u64::from(chart.progress.ticks)).bytes())?;
    text.add(style_text())
}

/// Adds the names of all lanes.
fn add_names(text: &mut Text, chart: &Chart) -> Result<(), AllocError>
    ensures { IfOk result (λ _. text.new ≡ with_names text.old chart.now) }
{
    add_labels(text, chart.tasks.all())?;
    text.add(label_line(b"collector").bytes())?;
    text.add(label_line(b"nobody").bytes())?;
    text.add(b"</text>\n")
}

/// Adds the axis, and the plot with its rules.
fn add_plot(text: &mut Text, span: Span, chart: &Chart) -> Result<(), AllocError>
    requires first { span.first < 2 ^ 32 }
    requires ticks { span.ticks ≤ 2 ^ 32 }
    requires some { 0 < span.ticks }
    ensures { IfOk result (λ _. text.new ≡ with_plot text.old span chart.now) }
{
    add_axis(text, span)?;
    text.add(b"<g clip-path=\"url(#plot)\">\n")?;
    text.add(plot_line(span).bytes())?;
    add_grid(text, span, chart.progress.tasks)
}

/// What stands before the shapes.
pub fn top(alloc: Global, span: Span, chart: &Chart) -> Result<Text, AllocError>
    requires first { span.first < 2 ^ 32 }
    requires ticks { span.ticks ≤ 2 ^ 32 }
    requires some { 0 < span.ticks }
    ensures { IfOk result (λ text. text ≡ top_text span chart.now) }
{
    let mut text = Text::new(alloc);
    add_head(&mut text, span, chart)?;
    add_names(&mut text, chart)?;
    add_plot(&mut text, span, chart)?;
    Ok(text)
}

/// Where the plot of what is owed stands.
fn owed_place() -> &'static [u8]
    ensures value { result.now ≡ owed_place }
    ensures short { length result.now ≤ 88 }
{
    b"<svg x=\"160\" y=\"0\" width=\"1000\" height=\"60\" preserveAspectRatio=\"none\" viewBox=\""
}

/// Where the plot of the ticks so far stands.
fn ticks_place() -> &'static [u8]
    ensures value { result.now ≡ ticks_place }
    ensures short { length result.now ≤ 88 }
{
    b"<svg x=\"160\" y=\"80\" width=\"1000\" height=\"100\" preserveAspectRatio=\"none\" viewBox=\""
}

/// What stands between the shapes and the curve of what is owed.
pub fn owed_start(alloc: Global, span: Span, chart: &Chart) -> Result<Text, AllocError>
    ensures { IfOk result (λ text. text ≡ owed_start_text span chart.now) }
{
    let units = owed_units(&chart.progress);
    let mut text = Text::new(alloc);
    text.add(below_line(chart.progress.tasks).bytes())?;
    text.add(caption_text())?;
    text.add(frame_line(owed_place(), span, units).bytes())?;
    text.add(upright_line(units).bytes())?;
    text.add(curve_start_line(b"<path class=\"owed\" d=\"M", span.first).bytes())?;
    Ok(text)
}

/// What stands between that curve and the collector's.
pub fn middle(alloc: Global, span: Span) -> Result<Text, AllocError>
    requires first { span.first < 2 ^ 32 }
    requires ticks { span.ticks ≤ 2 ^ 32 }
    ensures { IfOk result (λ text. text ≡ middle_text span) }
{
    let mut text = Text::new(alloc);
    text.add(curve_end_line(span).bytes())?;
    text.add(b"</g></svg>\n")?;
    text.add(frame_line(ticks_place(), span, span.ticks).bytes())?;
    text.add(upright_line(span.ticks).bytes())?;
    text.add(curve_start_line(b"<path class=\"collected\" d=\"M", span.first).bytes())?;
    Ok(text)
}

/// What stands between that curve and the one of nobody.
pub fn between(alloc: Global, span: Span) -> Result<Text, AllocError>
    requires first { span.first < 2 ^ 32 }
    requires ticks { span.ticks ≤ 2 ^ 32 }
    ensures { IfOk result (λ text. text ≡ between_text span) }
{
    let mut text = Text::new(alloc);
    text.add(curve_end_line(span).bytes())?;
    text.add(curve_start_line(b"<path class=\"idle\" d=\"M", span.first).bytes())?;
    Ok(text)
}

/// What stands behind the curves.
pub fn bottom(alloc: Global, span: Span, chart: &Chart) -> Result<Text, AllocError>
    requires first { span.first < 2 ^ 32 }
    requires ticks { span.ticks ≤ 2 ^ 32 }
    ensures { IfOk result (λ text. text ≡ bottom_text span chart.now) }
{
    let mut text = Text::new(alloc);
    text.add(curve_end_line(span).bytes())?;
    text.add(counts_line(&chart.progress).bytes())?;
    text.add(legend_text())?;
    Ok(text)
}

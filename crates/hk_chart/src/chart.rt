//! A picture, as far as the lines of a trace have come.
ghost use Rattle.std.specs.Prelude.{◌≡◌, ◌∷◌, ◌++◌, [], length, map, IfOk, slice_index_or};
ghost use Rattle.hk_chart.specs.Words.{words_of};
ghost use Rattle.hk_chart.specs.Trace.{line_of};
ghost use Rattle.hk_chart.specs.Shapes.{with_shape, with_bar, with_task};
ghost use Rattle.hk_chart.specs.Chart.{second_of, opening_chart, Follows};

use crate::lex::words_of;
use crate::progress::Progress;
use crate::reading::trace_line;
use crate::shape::{Bar, Shape, Shapes};
use crate::task::{Name, Task, Tasks};
use crate::trace_line::TraceLine;
use crate::window::{Window, closed_by, open_after};
use std::alloc::{AllocError, Global};

/// A picture so far: how far the trace has come, the tasks, the shapes, and the rectangle that is still open.
#[derive(Drop)]
pub struct Chart {
    pub progress: Progress,
    pub tasks: Tasks,
    pub shapes: Shapes,
    pub current: Option<Bar>,
}

/// The second word of a line.
fn second_of<'a>(words: &[&'a [u8]]) -> &'a [u8]
    ensures { result.now ≡ second_of (map (λ word. word.now) words.now) }
{
    match words {
        [_, name, ..] => name,
        _ => b"",
    }
}

impl Tasks {
    /// Adds a task.
    fn add(&mut self, alloc: Global, name: &[u8], deadline: Option<u32>) -> Result<(), AllocError>
        ensures { IfOk result (λ _. self.new ≡ self.old ++ record { name = name.now; deadline = deadline } ∷ []) }
    {
        let name = Name {
            items: name.to_vec(alloc)?,
        };
        self.items.push(Task { name, deadline })?;
        Ok(())
    }

    /// Adds the task that a line names.
    fn add_of(&mut self, alloc: Global, name: &[u8], line: TraceLine) -> Result<(), AllocError>
        ensures { IfOk result (λ _. self.new ≡ with_task self.old name.now line) }
    {
        match line {
            TraceLine::High { deadline } => self.add(alloc, name, Some(deadline)),
            TraceLine::Low => self.add(alloc, name, None),
            _ => Ok(()),
        }
    }
}

impl Chart {
    /// No line was read.
    pub fn opening(alloc: Global) -> Chart
        ensures { result ≡ opening_chart }
    {
        Chart {
            progress: Progress::opening(),
            tasks: Tasks {
                items: Vec::new(alloc),
            },
            shapes: Shapes::new(alloc),
            current: None,
        }
    }

    /// Takes a line. It answers whether a trace has that line there.
    pub fn take_line(
        &mut self,
        alloc: Global,
        window: Window,
        line: &[u8],
    ) -> Result<bool, AllocError>
        ensures { IfOk result (Follows window self.old (words_of line.now) self.new) }
    {
        let words = words_of(alloc, line)?;
        let Some(said) = trace_line(self.tasks.all(), &words) else {
            return Ok(false);
        };
        let Some(progress) = self.progress.after_line(said) else {
            return Ok(false);
        };
        let bar = window.bar_of(said);
        let deadline = window.deadline_of(self.tasks.all(), said);
        self.tasks.add_of(alloc, second_of(&words), said)?;
        self.shapes.add_bar(closed_by(self.current, bar))?;
        self.shapes.add(window.arrival_of(said))?;
        self.shapes.add(deadline)?;
        self.shapes.add(window.mark_of(said))?;
        self.current = open_after(self.current, bar);
        self.progress = progress;
        Ok(true)
    }
}

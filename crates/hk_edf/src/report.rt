//! The lines of a sheet whose high jobs go by earliest deadlines.
ghost use Rattle.std.specs.Prelude.{◌≡◌};
ghost use Rattle.hk_front.specs.Words.{Puts};
ghost use Rattle.hk_top.specs.Text.{heap_line};
ghost use Rattle.hk_top.specs.Report.{low_lines};
ghost use Rattle.hk_edf.specs.Text.{deadline_lines, analysis_of, edf_line};

use crate::refused::EdfRefused;
use hk_admit::Checked;
use hk_front::{digits, put_line};
use hk_io::{Failed, Sink};
use hk_sheet::{High, Low};
use hk_top::put_refused;

/// Writes the analysis of the heap.
#[tactic(auto, unfolding(hk_top::specs::Text::heap_line))]
fn put_heap<K: Sink>(sink: &mut K, checked: &Checked) -> Result<(), Failed>
    ensures { Puts (K.taken sink.old) (K.taken sink.new) (K.faults sink.old) (K.faults sink.new) (heap_line checked.now.work checked.now.attempt checked.now.busy checked.now.debt) result }
{
    let (work, attempt) = (digits(checked.work), digits(checked.attempt));
    let (busy, debt) = (digits(checked.busy), digits(checked.debt));
    put_line(
        sink,
        &[
            b"heap work",
            work.bytes(),
            b"attempt",
            attempt.bytes(),
            b"busy",
            busy.bytes(),
            b"debt",
            debt.bytes(),
        ],
    )
}

/// Writes the deadline of each high task.
fn put_high_tasks<K: Sink>(sink: &mut K, tasks: &[High]) -> Result<(), Failed>
    ensures { Puts (K.taken sink.old) (K.taken sink.new) (K.faults sink.old) (K.faults sink.new) (deadline_lines tasks.now) result }
{
    for task in tasks {
        let deadline = digits(task.timing.deadline);
        put_line(
            sink,
            &[b"high", &task.name.items, b"deadline", deadline.bytes()],
        )?;
    }
    Ok(())
}

/// Writes the low tasks.
fn put_low_tasks<K: Sink>(sink: &mut K, tasks: &[Low]) -> Result<(), Failed>
    ensures { Puts (K.taken sink.old) (K.taken sink.new) (K.faults sink.old) (K.faults sink.new) (low_lines tasks.now) result }
{
    for task in tasks {
        put_line(sink, &[b"low", &task.name.items])?;
    }
    Ok(())
}

/// Writes the analysis: of the heap, the deadline of each high task, and the low tasks.
pub(crate) fn put_analysis<K: Sink>(sink: &mut K, checked: &Checked) -> Result<(), Failed>
    ensures { Puts (K.taken sink.old) (K.taken sink.new) (K.faults sink.old) (K.faults sink.new) (analysis_of checked.now) result }
{
    put_heap(sink, checked)?;
    put_high_tasks(sink, &checked.sheet.high.items)?;
    put_low_tasks(sink, &checked.sheet.low.items)
}

/// Writes why a sheet isn't admitted.
pub(crate) fn put_edf_refused<K: Sink>(sink: &mut K, refused: &EdfRefused) -> Result<(), Failed>
    ensures { Puts (K.taken sink.old) (K.taken sink.new) (K.faults sink.old) (K.faults sink.new) (edf_line refused.now) result }
{
    match refused {
        EdfRefused::Heap(refused) => put_refused(sink, refused),
        EdfRefused::Jitter(task) => put_line(sink, &[b"refused", b"jitter", &task.items]),
        EdfRefused::Demand(t) => put_line(sink, &[b"refused", b"demand", digits(*t).bytes()]),
        EdfRefused::Memory => put_line(sink, &[b"refused"]),
    }
}

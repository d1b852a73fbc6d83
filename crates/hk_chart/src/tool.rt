//! What the program does for its words.
ghost use Rattle.std.specs.Prelude.{◌≡◌, ◌≢◌, ◌⊎◌, ℕ, ◌≤◌, List, map, string_bytes, None, IfSome};
ghost use Rattle.std.specs.Io.KnownBytes.{IsAtEnd};
ghost use Rattle.hk_io.specs.Faults.{Rose};
ghost use Rattle.hk_chart.specs.Framed.{framed};
ghost use Rattle.hk_chart.specs.Tool.{window_of_two, window_of, usage_line, stop_line, CallsFor, HasText, Writes, WritesPrefix, Ends};

use crate::chart::Chart;
use crate::charted::Charted;
use crate::drawing::{add_number, add_word, end};
use crate::picture::{Frame, frame_of, put_picture};
use crate::progress::MAX_TICKS;
use crate::reader::{ReadFault, Stop, read_chart};
use crate::reading::small;
use crate::span::Span;
use crate::window::Window;
use hk_io::{Failed, Line, Sink, Source, put_all};
use std::alloc::{AllocError, Global};

/// The window of two words: the first and the last tick.
#[tactic(auto, unfolding(crate::specs::Tool::window_of_two))]
fn window_of_two(first: &[u8], last: &[u8]) -> Option<Window>
    ensures { result ≡ window_of_two first.now last.now }
{
    let first = small(first)?;
    let last = small(last)?;
    if first <= last && last < MAX_TICKS {
        Some(Window { first, last })
    } else {
        None
    }
}

/// The window of the words behind the program's name.
#[tactic(auto, unfolding(crate::specs::Tool::window_of))]
fn window_of(words: &[String]) -> Option<Window>
    ensures { result ≡ window_of (map string_bytes words.now) }
{
    match words {
        [] => Some(Window {
            first: 0,
            last: MAX_TICKS - 1,
        }),
        [first, last] => window_of_two(first.as_bytes(), last.as_bytes()),
        _ => None,
    }
}

/// The words that the program takes.
fn usage() -> Line
    ensures { result ≡ usage_line }
{
    let mut line = Line::new();
    add_word(&mut line, b"usage: hk_chart [FIRST LAST]");
    end(&mut line);
    line
}

/// Why there is no picture.
#[tactic(auto, unfolding(crate::specs::Tool::stop_line))]
fn stop_line(stop: Stop) -> Line
    ensures { result ≡ stop_line stop }
{
    let mut line = Line::new();
    match stop {
        Stop::Line(number) => {
            add_word(&mut line, b"line");
            add_number(&mut line, number);
        }
        Stop::Long => add_word(&mut line, b"trace long"),
    }
    end(&mut line);
    line
}

/// Writes a line, and answers how the program ends: as it is to end, or with a write fault.
fn put_line<K: Sink>(sink: &mut K, owed: Charted, line: &[u8]) -> Charted
    requires { HasText owed }
    ensures { Ends owed line.now (K.taken sink.old) (K.taken sink.new) (K.faults sink.old) (K.faults sink.new) result }
{
    match put_all(sink, line) {
        Ok(()) => owed,
        Err(Failed) => Charted::WriteFault,
    }
}

/// Writes a picture with what stands around its shapes.
fn put_framed<K: Sink>(sink: &mut K, frame: &Frame, chart: &Chart) -> Charted
    ensures { Ends Charted.Done (framed frame.now chart.now) (K.taken sink.old) (K.taken sink.new) (K.faults sink.old) (K.faults sink.new) result }
{
    match put_picture(frame, chart, sink) {
        Ok(()) => Charted::Done,
        Err(Failed) => Charted::WriteFault,
    }
}

/// Reads a trace to its end, and writes its picture: all ticks where there are no words, else those from the first word to the
/// second. A line that no trace has there is answered with its number. Wrong words are refused before anything is read; nothing
/// is written before the input was read, and where a read fails nothing is written at all.
pub fn run_chart<S: Source, K: Sink>(
    alloc: Global,
    words: &[String],
    source: &mut S,
    sink: &mut K,
) -> Charted
    // The whole text was written that the words and the input call for; for a picture the whole input was read.
    ensures whole { HasText result → Writes words.now (S.left source.old) (K.taken sink.old) (K.taken sink.new) result }
    ensures whole_input { result ≡ Charted.Done → IsAtEnd (S.left source.new) }

    // Words that the program doesn't take are refused before anything is read.
    ensures wrong_words { window_of (map string_bytes words.now) ≡ None → (result ≡ Charted.Usage) ⊎ (result ≡ Charted.WriteFault) }
    ensures untouched { window_of (map string_bytes words.now) ≡ None → source.new ≡ source.old }

    // What failed. Each other answer comes only where the count of faults stayed as it was.
    ensures read { result ≡ Charted.ReadFault → Rose (S.faults source.old) (S.faults source.new) × (sink.new ≡ sink.old) }
    ensures no_read_failed { result ≢ Charted.ReadFault → S.faults source.new ≡ S.faults source.old }
    ensures write { result ≡ Charted.WriteFault → Rose (K.faults sink.old) (K.faults sink.new) }
    ensures no_write_failed { result ≢ Charted.WriteFault → K.faults sink.new ≡ K.faults sink.old }
    ensures prefix { result ≡ Charted.WriteFault → WritesPrefix words.now (S.left source.old) (K.taken sink.old) (K.taken sink.new) }
    ensures memory { result ≡ Charted.Memory → sink.new ≡ sink.old }

    // Where nothing fails, the words and the input decide.
    ensures complete { ¬ (Rose (S.faults source.old) (S.faults source.new)) → ¬ (Rose (K.faults sink.old) (K.faults sink.new))
        → IfSome (S.left source.old) (λ bytes. (ended : Charted) (text : List ℕ) → CallsFor words.now bytes ended text
        → (result ≡ ended) ⊎ (result ≡ Charted.Memory)) }

    // Counts of faults never fall.
    ensures later { (S.faults source.old ≤ S.faults source.new) × (K.faults sink.old ≤ K.faults sink.new) }
{
    let Some(window) = window_of(words) else {
        return put_line(sink, Charted::Usage, usage().bytes());
    };
    match read_chart(alloc, window, source) {
        Ok(chart) => {
            let span = Span::of(window, chart.progress.ticks);
            match frame_of(alloc, span, &chart) {
                Ok(frame) => put_framed(sink, &frame, &chart),
                Err(AllocError) => Charted::Memory,
            }
        }
        Err(ReadFault::Stop(stop)) => put_line(sink, Charted::Trace, stop_line(stop).bytes()),
        Err(ReadFault::Failed) => Charted::ReadFault,
        Err(ReadFault::Memory) => Charted::Memory,
    }
}

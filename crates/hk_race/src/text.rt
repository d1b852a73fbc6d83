//! The text of a race.
ghost use Rattle.std.specs.Prelude.{◌≡◌, ◌≤◌, ◌+◌, ◌++◌, [], ◌∷◌, length, codes, decimal, OnOk};
ghost use Rattle.hk_io.specs.Line.{with_word, with_number, with_end};
ghost use Rattle.hk_io.specs.declared.line.TheConstants.{LINE_ROOM};
ghost use Rattle.hk_model.specs.Heap.{Heap};
ghost use Rattle.hk_sheet.specs.declared.sheet.TheConstants.{MAX_NAME};
ghost use Rattle.hk_front.specs.Text.{line};
ghost use Rattle.hk_race.specs.Text.{note_line, end_of_task, live_text, told};
ghost use Rattle.hk_race.specs.Goes.{course_of};

use crate::note::Note;
use crate::progress::Progress;
use hk_io::Line;
use std::alloc::AllocError;

fn add_word(line: &mut Line, bytes: &[u8])
    requires { length line.old + 1 + length bytes.now ≤ LINE_ROOM }
    ensures added { line.new ≡ with_word line.old bytes.now }
    ensures room { length line.new ≤ length line.old + 1 + length bytes.now }
{
    line.word(bytes);
}

fn add_number(line: &mut Line, value: u64)
    requires { length line.old + 21 ≤ LINE_ROOM }
    ensures added { line.new ≡ with_number line.old value }
    ensures room { length line.new ≤ length line.old + 21 }
{
    line.number(value);
}

fn end(line: &mut Line)
    requires { length line.old + 1 ≤ LINE_ROOM }
    ensures { line.new ≡ with_end line.old }
{
    line.end();
}

/// The line of a note.
fn note_line(name: &[u8], note: Note) -> Line
    requires { length name.now ≤ MAX_NAME }
    ensures { result ≡ note_line name.now note }
{
    let mut line = Line::new();
    match note {
        Note::Out(value) => {
            add_word(&mut line, b"out");
            add_word(&mut line, name);
            add_number(&mut line, value);
            end(&mut line);
            line
        }
        Note::Nil { job, statement } => {
            add_word(&mut line, b"fault");
            add_word(&mut line, name);
            add_number(&mut line, job);
            add_number(&mut line, u64::from(statement));
            add_word(&mut line, b"nil");
            end(&mut line);
            line
        }
        Note::Field { job, statement } => {
            add_word(&mut line, b"fault");
            add_word(&mut line, name);
            add_number(&mut line, job);
            add_number(&mut line, u64::from(statement));
            add_word(&mut line, b"field");
            end(&mut line);
            line
        }
    }
}

/// The last line of a task.
fn end_of_task(name: &[u8], jobs: u64, full: Option<u64>) -> Line
    requires { length name.now ≤ MAX_NAME }
    ensures { result ≡ end_of_task name.now jobs full }
{
    let mut line = Line::new();
    match full {
        None => {
            add_word(&mut line, b"done");
            add_word(&mut line, name);
            add_word(&mut line, b"jobs");
            add_number(&mut line, jobs);
            end(&mut line);
            line
        }
        Some(words) => {
            add_word(&mut line, b"full");
            add_word(&mut line, name);
            add_number(&mut line, words);
            end(&mut line);
            line
        }
    }
}

/// The line for too many live words.
fn live_line(words: u64, declared: u64) -> Line
    ensures { result ≡ line (codes "live" ∷ decimal words ∷ codes "above" ∷ decimal declared ∷ []) }
{
    let mut line = Line::new();
    add_word(&mut line, b"live");
    add_number(&mut line, words);
    add_word(&mut line, b"above");
    add_number(&mut line, declared);
    end(&mut line);
    line
}

/// Adds what a worker tells of its task.
#[tactic(auto, unfolding(crate::specs::Text::told))]
pub(crate) fn tell(text: &mut Vec<u8>, name: &[u8], own: &Progress) -> Result<(), AllocError>
    requires { length name.now ≤ MAX_NAME }
    ensures { OnOk result ((heap : Heap) → text.new.items ≡ text.old.items ++ told name.now (course_of own.now heap [])) }
{
    for note in own.notes.iter() {
        text.extend_from_slice(note_line(name, *note).bytes())?;
    }
    text.extend_from_slice(end_of_task(name, own.jobs, own.full).bytes())
}

/// Adds the last lines.
pub(crate) fn tell_end(
    text: &mut Vec<u8>,
    declared: u64,
    live: Option<u64>,
) -> Result<(), AllocError>
    ensures { OnOk result (text.new.items ≡ text.old.items ++ (live_text declared live ++ line (codes "end" ∷ []))) }
{
    match live {
        None => text.extend_from_slice(b"end\n"),
        Some(words) => {
            text.extend_from_slice(live_line(words, declared).bytes())?;
            text.extend_from_slice(b"end\n")
        }
    }
}

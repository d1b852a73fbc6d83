//! What the program does for its words.
ghost use Rattle.std.specs.Prelude.{◌≡◌, ◌≢◌, ◌⊎◌, ℕ, ◌≤◌, List, length, map, string_bytes, None, IfOk, IfSome};
ghost use Rattle.std.specs.Io.KnownBytes.{IsAtEnd};
ghost use Rattle.hk_io.specs.Faults.{Rose};
ghost use Rattle.hk_io.specs.Limits.{longest_input};
ghost use Rattle.hk_replay.specs.Tool.{form_of, IsCheck, HasText, HasEnd, IsUsage, IsMade, Tells, TellsCheck, bytes_of, CallsFor, CheckCallsFor, Writes, WritesPrefix, Ends};

use crate::judge::judge;
use crate::lex::is;
use crate::make::make;
use crate::printing::{long_line, usage_line, verdict_line};
use crate::replayed::Replayed;
use hk_core::Memory;
use hk_io::{Failed, Line, Sink, Source, TakeFault, number, put_all, take_all};
use std::alloc::Global;

/// The forms that the words may have.
#[derive(Clone, Copy, Debug, PartialEq, Eq)]
pub enum Form {
    /// `check`: judges the log that is read.
    Check,
    /// `make N`: writes the log for a number.
    Make(u64),
}

/// A text to be written.
#[derive(Drop)]
pub enum Text {
    Line(Line),
    Log(Vec<u8>),
}

/// What the words and the input call for.
#[derive(Drop)]
pub enum Called {
    /// The program ends so, and writes this text.
    Text(Replayed, Text),
    /// There was no memory.
    Memory,
    /// The input could not be read.
    ReadFault,
}

impl Text {
    /// Its bytes.
    fn bytes(&self) -> &[u8]
        ensures { result.now ≡ bytes_of self.now }
    {
        match self {
            Text::Line(line) => line.bytes(),
            Text::Log(log) => log.as_slice(),
        }
    }
}

/// The form of the words behind the program's name.
fn form_of(words: &[String]) -> Option<Form>
    ensures { result ≡ form_of (map string_bytes words.now) }
{
    match words {
        [word] => {
            if is(word.as_bytes(), "check") {
                Some(Form::Check)
            } else {
                None
            }
        }
        [word, n] => {
            if is(word.as_bytes(), "make") {
                Some(Form::Make(number(n.as_bytes())?))
            } else {
                None
            }
        }
        _ => None,
    }
}

/// How `check` ends on these bytes, and the line that it writes.
fn check(alloc: Global, bytes: &[u8]) -> Result<(Replayed, Line), Memory>
    requires { length bytes.now ≤ longest_input }
    ensures { IfOk result (λ called. CheckCallsFor bytes.now called.0 called.1) }
{
    let verdict = judge(alloc, bytes)?;
    Ok((Replayed::by(verdict), verdict_line(verdict)))
}

/// What `check` calls for: it reads the input to its end, and judges it.
fn check_input<S: Source>(alloc: Global, source: &mut S) -> Called
    ensures tells { TellsCheck (S.left source.old) result }
    ensures end { HasEnd result → IsAtEnd (S.left source.new) }
    ensures read { result ≡ Called.ReadFault → Rose (S.faults source.old) (S.faults source.new) }
    ensures kept { result ≢ Called.ReadFault → S.faults source.new ≡ S.faults source.old }
    ensures later { S.faults source.old ≤ S.faults source.new }
{
    match take_all(alloc, source) {
        Ok(bytes) => match check(alloc, bytes.as_slice()) {
            Ok((owed, line)) => Called::Text(owed, Text::Line(line)),
            Err(Memory) => Called::Memory,
        },
        Err(TakeFault::Failed) => Called::ReadFault,
        Err(TakeFault::Long) => Called::Text(Replayed::Log, Text::Line(long_line())),
        Err(TakeFault::Memory) => Called::Memory,
    }
}

/// What `make` calls for: the log for a number.
fn make_log(alloc: Global, number: u64) -> Called
    ensures { IsMade number result }
{
    match make(alloc, number) {
        Ok(log) => Called::Text(Replayed::Done, Text::Log(log)),
        Err(Memory) => Called::Memory,
    }
}

/// What the words and the input call for. Only `check` reads the input.
fn answer_to<S: Source>(alloc: Global, words: &[String], source: &mut S) -> Called
    ensures tells { Tells words.now (S.left source.old) result }
    ensures end { IsCheck words.now → HasEnd result → IsAtEnd (S.left source.new) }
    ensures wrong { form_of (map string_bytes words.now) ≡ None → IsUsage result }
    ensures untouched { ¬ (IsCheck words.now) → source.new ≡ source.old }
    ensures read { result ≡ Called.ReadFault → Rose (S.faults source.old) (S.faults source.new) }
    ensures kept { result ≢ Called.ReadFault → S.faults source.new ≡ S.faults source.old }
    ensures later { S.faults source.old ≤ S.faults source.new }
{
    match form_of(words) {
        Some(Form::Check) => check_input(alloc, source),
        Some(Form::Make(number)) => make_log(alloc, number),
        None => Called::Text(Replayed::Usage, Text::Line(usage_line())),
    }
}

/// Writes a text, and answers how the program ends: as it is to end, or with a write fault.
fn put_text<K: Sink>(sink: &mut K, owed: Replayed, text: &[u8]) -> Replayed
    requires { HasText owed }
    ensures { Ends owed text.now (K.taken sink.old) (K.taken sink.new) (K.faults sink.old) (K.faults sink.new) result }
{
    match put_all(sink, text) {
        Ok(()) => owed,
        Err(Failed) => Replayed::WriteFault,
    }
}

/// Does what the words ask for. For the one word `check` it reads the input to its end, and says whether it is a log whose
/// lines are those for their actions; for `make` and a number it writes the log for the number. Wrong words are refused
/// before anything is read; nothing is written before the input was read, and where a read fails nothing is written at all.
pub fn run_replay<S: Source, K: Sink>(
    alloc: Global,
    words: &[String],
    source: &mut S,
    sink: &mut K,
) -> Replayed
    // The whole text was written that the words and the input call for; where that is the line of a log that is whole, the
    // whole input was read.
    ensures whole { HasText result → Writes words.now (S.left source.old) (K.taken sink.old) (K.taken sink.new) result }
    ensures whole_input { IsCheck words.now → result ≡ Replayed.Done → IsAtEnd (S.left source.new) }

    // Words that the program doesn't take are refused, and only `check` reads.
    ensures wrong_words { form_of (map string_bytes words.now) ≡ None → (result ≡ Replayed.Usage) ⊎ (result ≡ Replayed.WriteFault) }
    ensures untouched { ¬ (IsCheck words.now) → source.new ≡ source.old }

    // What failed. Each other answer comes only where the count of faults stayed as it was.
    ensures read { result ≡ Replayed.ReadFault → Rose (S.faults source.old) (S.faults source.new) × (sink.new ≡ sink.old) }
    ensures no_read_failed { result ≢ Replayed.ReadFault → S.faults source.new ≡ S.faults source.old }
    ensures write { result ≡ Replayed.WriteFault → Rose (K.faults sink.old) (K.faults sink.new) }
    ensures no_write_failed { result ≢ Replayed.WriteFault → K.faults sink.new ≡ K.faults sink.old }
    ensures prefix { result ≡ Replayed.WriteFault → WritesPrefix words.now (S.left source.old) (K.taken sink.old) (K.taken sink.new) }
    ensures memory { result ≡ Replayed.Memory → sink.new ≡ sink.old }

    // Where nothing fails, the words and the input decide.
    ensures complete { ¬ (Rose (S.faults source.old) (S.faults source.new)) → ¬ (Rose (K.faults sink.old) (K.faults sink.new))
        → IfSome (S.left source.old) (λ bytes. (ended : Replayed) (text : List ℕ) → CallsFor words.now bytes ended text
        → (result ≡ ended) ⊎ (result ≡ Replayed.Memory)) }

    // Counts of faults never fall.
    ensures later { (S.faults source.old ≤ S.faults source.new) × (K.faults sink.old ≤ K.faults sink.new) }
{
    match answer_to(alloc, words, source) {
        Called::Text(owed, text) => put_text(sink, owed, text.bytes()),
        Called::Memory => Replayed::Memory,
        Called::ReadFault => Replayed::ReadFault,
    }
}

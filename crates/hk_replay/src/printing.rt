//! The lines that the program writes.
ghost use Rattle.std.specs.Prelude.{◌≡◌, ◌+◌, ◌≤◌, [], map, fold, length};
ghost use Rattle.hk_io.specs.Line.{with_word, with_number, with_end};
ghost use Rattle.hk_io.specs.Limits.{longest_line};
ghost use Rattle.hk_replay.specs.Spelling.{call_pieces, reason_word, ending_pieces, answer_pieces};
ghost use Rattle.hk_replay.specs.Making.{made_heading};
ghost use Rattle.hk_replay.specs.Printing.{word_of, text_of, usage_line, long_line, verdict_line};

use crate::judge::Verdict;
use crate::log_line::{Answer, Ending, LogLine, Reason};
use hk_io::Line;
use hk_words::Call;

/// Adds a word to a line that has room for it and a space.
fn add_word(line: &mut Line, bytes: &[u8])
    requires { length line.old + 1 + length bytes.now ≤ longest_line }
    ensures added { line.new ≡ with_word line.old bytes.now }
    ensures room { length line.new ≤ length line.old + 1 + length bytes.now }
{
    line.word(bytes);
}

/// Adds a number to a line that has room for 20 digits and a space.
fn add_number(line: &mut Line, value: u64)
    requires { length line.old + 21 ≤ longest_line }
    ensures added { line.new ≡ with_number line.old value }
    ensures room { length line.new ≤ length line.old + 21 }
{
    line.number(value);
}

/// Ends a line that has room for the newline.
fn end(line: &mut Line)
    requires { length line.old + 1 ≤ longest_line }
    ensures { line.new ≡ with_end line.old }
{
    line.end();
}

/// Adds a name of up to 8 bytes and a number.
fn add_named(line: &mut Line, name: &[u8], value: u64)
    requires room { length line.old + 30 ≤ longest_line }
    requires short { length name.now ≤ 8 }
    ensures added { line.new ≡ with_number (with_word line.old name.now) value }
    ensures room { length line.new ≤ length line.old + 30 }
{
    add_word(line, name);
    add_number(line, value);
}

/// Adds the words of a call.
fn add_call(line: &mut Line, call: &Call)
    requires { length line.old + 72 ≤ longest_line }
    ensures added { line.new ≡ fold with_word line.old (map word_of (call_pieces call.now)) }
    ensures room { length line.new ≤ length line.old + 72 }
{
    match *call {
        Call::Get { reg, field } => {
            add_named(line, b"get", reg.into());
            add_number(line, field.into());
        }
        Call::Put { reg, field, value } => {
            add_named(line, b"put", reg.into());
            add_number(line, field.into());
            add_number(line, value);
        }
        Call::Load { dest, reg, field } => {
            add_named(line, b"load", dest.into());
            add_number(line, reg.into());
            add_number(line, field.into());
        }
        Call::Store { reg, field, from } => {
            add_named(line, b"store", reg.into());
            add_number(line, field.into());
            add_number(line, from.into());
        }
        Call::Move { dest, from } => {
            add_named(line, b"move", dest.into());
            add_number(line, from.into());
        }
        Call::Clear { dest } => add_named(line, b"clear", dest.into()),
        Call::New { dest, shape } => {
            add_named(line, b"new", dest.into());
            add_number(line, shape.refs().into());
            add_number(line, shape.nums().into());
        }
        Call::Same { .. } | Call::IsNull { .. } => {}
    }
}

/// Adds why a call was refused.
fn add_reason(line: &mut Line, reason: Reason)
    requires { length line.old + 6 ≤ longest_line }
    ensures added { line.new ≡ with_word line.old (reason_word reason) }
    ensures room { length line.new ≤ length line.old + 6 }
{
    match reason {
        Reason::Nil => add_word(line, b"nil"),
        Reason::Field => add_word(line, b"field"),
    }
}

/// Adds how a call ended.
fn add_ending(line: &mut Line, ending: Ending)
    requires { length line.old + 30 ≤ longest_line }
    ensures added { line.new ≡ fold with_word line.old (map word_of (ending_pieces ending)) }
    ensures room { length line.new ≤ length line.old + 30 }
{
    match ending {
        Ending::Unit => add_word(line, b"unit"),
        Ending::Num(number) => add_named(line, b"num", number),
        Ending::Full(words) => add_named(line, b"full", words),
    }
}

/// Adds what an event of the collector did.
fn add_answer(line: &mut Line, answer: Answer)
    requires { length line.old + 30 ≤ longest_line }
    ensures added { line.new ≡ fold with_word line.old (map word_of (answer_pieces answer)) }
    ensures room { length line.new ≤ length line.old + 30 }
{
    match answer {
        Answer::Useful => add_word(line, b"useful"),
        Answer::Flip => add_word(line, b"flip"),
        Answer::Lost(events) => add_named(line, b"lost", events),
        Answer::Frame(seat) => add_named(line, b"frame", seat.into()),
        Answer::Object(number) => add_named(line, b"object", number),
        Answer::Unlinked(place) => add_named(line, b"unlinked", place),
        Answer::Grey(number) => add_named(line, b"grey", number),
        Answer::Live(words) => add_named(line, b"live", words),
        Answer::Worn => add_word(line, b"worn"),
    }
}

/// The text of a line of a log.
#[tactic(auto, unfolding(crate::specs::Printing::text_of))]
pub fn text_of(said: &LogLine) -> Line
    ensures { result ≡ text_of said.now }
{
    let mut line = Line::new();
    match *said {
        LogLine::Begin { seat, ref call } => {
            add_named(&mut line, b"begin", seat.into());
            add_call(&mut line, call);
        }
        LogLine::Fault {
            seat,
            ref call,
            reason,
        } => {
            add_named(&mut line, b"fault", seat.into());
            add_call(&mut line, call);
            add_reason(&mut line, reason);
        }
        LogLine::Step { seat } => add_named(&mut line, b"step", seat.into()),
        LogLine::End { seat, ending } => {
            add_named(&mut line, b"end", seat.into());
            add_ending(&mut line, ending);
        }
        LogLine::Collect { answer } => {
            add_word(&mut line, b"gc");
            add_answer(&mut line, answer);
        }
    }
    end(&mut line);
    line
}

/// A line of a name and a number.
fn named_line(name: &[u8], value: u64) -> Line
    requires { length name.now ≤ 8 }
    ensures { result ≡ with_end (with_number (with_word [] name.now) value) }
{
    let mut line = Line::new();
    add_named(&mut line, name, value);
    end(&mut line);
    line
}

/// What is said of a log.
#[tactic(auto, unfolding(crate::specs::Printing::verdict_line))]
pub fn verdict_line(verdict: Verdict) -> Line
    ensures { result ≡ verdict_line verdict }
{
    match verdict {
        Verdict::Whole(count) => named_line(b"ok", count),
        Verdict::Differs(number) => named_line(b"differs", number),
        Verdict::Log(number) => named_line(b"log", number),
    }
}

/// The words that the program takes.
pub fn usage_line() -> Line
    ensures { result ≡ usage_line }
{
    let mut line = Line::new();
    add_word(&mut line, b"usage: hk_replay check, make N");
    end(&mut line);
    line
}

/// What is said of an input that is too long.
pub fn long_line() -> Line
    ensures { result ≡ long_line }
{
    let mut line = Line::new();
    add_word(&mut line, b"log long");
    end(&mut line);
    line
}

/// The first line of the log that is made.
pub fn heading_line() -> Line
    ensures { result ≡ made_heading }
{
    let mut line = Line::new();
    add_named(&mut line, b"heap", 64);
    add_number(&mut line, 64);
    add_number(&mut line, 16);
    add_number(&mut line, 2);
    add_number(&mut line, 1);
    add_number(&mut line, 2);
    add_number(&mut line, 1);
    end(&mut line);
    line
}

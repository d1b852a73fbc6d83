//! The lines for bytes that are no sheet. A key can be of any length, so that they are written word by word.
ghost use Rattle.std.specs.Prelude.{◌≡◌, decimal, OnOk, OnErr};
ghost use Rattle.std.specs.Io.KnownBytes.{Appends};
ghost use Rattle.hk_io.specs.Bytes.{texts, AppendsPrefix};
ghost use Rattle.hk_io.specs.Faults.{HasCause};
ghost use Rattle.hk_front.specs.Text.{line};
ghost use Rattle.hk_front.specs.Refusals.{geometry_word, fault_line, script_line, sheet_line};
ghost use Rattle.hk_front.specs.Words.{added, Puts};

use hk_io::{Failed, Line, Sink, put_all};
use hk_script::ScriptError;
use hk_sheet::SheetError;
use hk_words::GeoError;

/// Writes a word of a line, behind a space where the line has begun.
fn put_word<K: Sink>(sink: &mut K, begun: bool, word: &[u8]) -> Result<(), Failed>
    ensures ok { OnOk result (Appends (K.taken sink.old) (K.taken sink.new) (added begun word.now)) }
    ensures prefix { OnErr result (AppendsPrefix (K.taken sink.old) (K.taken sink.new) (added begun word.now)) }
    ensures cause { HasCause (K.faults sink.old) (K.faults sink.new) result }
{
    if begun {
        put_all(sink, b" ")?;
        put_all(sink, word)
    } else {
        put_all(sink, word)
    }
}

/// Writes a line of these words, parted by single spaces.
pub fn put_line<K: Sink>(sink: &mut K, words: &[&[u8]]) -> Result<(), Failed>
    ensures ok { OnOk result (Appends (K.taken sink.old) (K.taken sink.new) (line (texts words.now))) }
    ensures prefix { OnErr result (AppendsPrefix (K.taken sink.old) (K.taken sink.new) (line (texts words.now))) }
    ensures cause { HasCause (K.faults sink.old) (K.faults sink.new) result }
{
    let mut begun = false;
    for word in words {
        put_word(sink, begun, word)?;
        begun = begun || !word.is_empty();
    }
    put_all(sink, b"\n")
}

/// The digits of a number.
#[tactic(auto, using(hk_io::proofs::LineLemmas::line_lengths))]
pub fn digits(value: u64) -> Line
    ensures { result ≡ decimal value }
{
    let mut line = Line::new();
    line.number(value);
    line
}

/// What is wrong with a geometry.
fn geometry_word(error: GeoError) -> &'static str
    ensures { result.now ≡ geometry_word error }
{
    match error {
        GeoError::Odd => "odd",
        GeoError::Small => "small",
        GeoError::Large => "large",
        GeoError::Reserve => "reserve",
        GeoError::Tasks => "tasks",
        GeoError::Board => "board",
        GeoError::Registers => "registers",
    }
}

/// Writes why bytes are no sheet.
pub fn put_sheet_error<K: Sink>(sink: &mut K, error: &SheetError) -> Result<(), Failed>
    ensures { Puts (K.taken sink.old) (K.taken sink.new) (K.faults sink.old) (K.faults sink.new) (sheet_line error.now) result }
{
    match error {
        SheetError::Text => put_line(sink, &[b"sheet", b"text"]),
        SheetError::Missing(key) => put_line(sink, &[b"sheet", b"missing", &key.items]),
        SheetError::Unknown(key) => put_line(sink, &[b"sheet", b"unknown", &key.items]),
        SheetError::Kind(key) => put_line(sink, &[b"sheet", b"kind", &key.items]),
        SheetError::Range(key) => put_line(sink, &[b"sheet", b"range", &key.items]),
        SheetError::Name(index) => {
            put_line(
                sink,
                &[b"sheet", b"name", digits(u64::from(*index)).bytes()],
            )
        }
        SheetError::Arrivals {
            task,
            place,
            earlier,
            later,
        } => put_line(
            sink,
            &[
                b"sheet",
                b"arrivals",
                &task.items,
                digits(u64::from(*place)).bytes(),
                digits(*earlier).bytes(),
                digits(*later).bytes(),
            ],
        ),
        SheetError::Script(task, error) => put_script_error(sink, &task.items, *error),
        SheetError::Geometry(error) => {
            put_line(
                sink,
                &[b"sheet", b"geometry", geometry_word(*error).as_bytes()],
            )
        }
        SheetError::Memory => put_line(sink, &[b"sheet"]),
    }
}

/// Writes why a task's script is none.
fn put_script_error<K: Sink>(sink: &mut K, task: &[u8], error: ScriptError) -> Result<(), Failed>
    ensures { Puts (K.taken sink.old) (K.taken sink.new) (K.faults sink.old) (K.faults sink.new) (script_line task.now error) result }
{
    match error {
        ScriptError::Word(line) => put_fault(sink, task, b"word", line),
        ScriptError::Number(line) => put_fault(sink, task, b"number", line),
        ScriptError::Register(line) => put_fault(sink, task, b"register", line),
        ScriptError::Variable(line) => put_fault(sink, task, b"variable", line),
        ScriptError::Shape(line) => put_fault(sink, task, b"shape", line),
        ScriptError::Block(line) => put_fault(sink, task, b"block", line),
        ScriptError::Deep(line) => put_fault(sink, task, b"deep", line),
        ScriptError::Long => put_line(sink, &[b"sheet", b"script", task, b"long"]),
        ScriptError::Empty => put_line(sink, &[b"sheet", b"script", task, b"empty"]),
        ScriptError::Memory => put_line(sink, &[b"sheet", b"script", task]),
    }
}

/// Writes what is wrong with a line of a task's script.
fn put_fault<K: Sink>(sink: &mut K, task: &[u8], what: &[u8], line: u32) -> Result<(), Failed>
    ensures { Puts (K.taken sink.old) (K.taken sink.new) (K.faults sink.old) (K.faults sink.new) (fault_line task.now what.now line) result }
{
    let number = digits(u64::from(line));
    put_line(sink, &[b"sheet", b"script", task, what, number.bytes()])
}

//! What the program does for its words.
ghost use Rattle.std.specs.Prelude.{◌≡◌, ◌≢◌, ◌⊎◌, ℕ, ◌≤◌, List, ◌++◌, length, map, Option, Ok, Some, IfOk, OnErr, IfSome};
ghost use Rattle.std.specs.Io.KnownBytes.{Appends, IsAtEnd};
ghost use Rattle.std.specs.Str.{bytes_eq};
ghost use Rattle.std.specs.String.{string_bytes};
ghost use Rattle.hk_io.specs.Bytes.{AppendsPrefix};
ghost use Rattle.hk_io.specs.Faults.{Rose, HasCause};
ghost use Rattle.hk_io.specs.Limits.{longest_input};
ghost use Rattle.hk_admit.specs.Refusals.{IsRefusal};
ghost use Rattle.hk_plan.specs.AloneBy.{least_task};
ghost use Rattle.hk_gen.specs.Made.{made};
ghost use Rattle.hk_sheet.specs.Answers.{IsRead};
ghost use Rattle.hk_sheet.specs.declared.sheet.Sheet.{Sheet};
ghost use Rattle.hk_front.specs.Input.{IsSheetOf};
ghost use Rattle.hk_front.specs.Endings.{HasText, EndsBy, EndsOn};
ghost use Rattle.hk_top.specs.declared.report.Form.{Form};
ghost use Rattle.hk_top.specs.declared.report.Finish.{Finish};
ghost use Rattle.hk_top.specs.Report.{analysis, IsRunText};
ghost use Rattle.hk_top.specs.Tool.{one_word, two_words, asked, AsksNothing, ReadsInput, IsAnalysis, IsReport, IsSimulation, answer_for, CallsFor, BytesCallFor, Writes, WritesPrefix};

use crate::refusals::put_refused;
use crate::report::{Finish, Form, write_analysis, write_run};
use hk_admit::{Admitted, Refused, admit};
use hk_dispatch::{First, Pick, Session};
use hk_front::{ended, put_line, refuse_sheet};
use hk_gen::sheet;
use hk_io::{Failed, Sink, Source, Status, TakeFault, number, put_all, take_all};
use hk_sheet::{read, text};
use hk_words::Memory;
use std::alloc::Global;

/// What the words of the program ask for.
#[derive(Clone, Copy, Debug, PartialEq, Eq)]
pub enum Command {
    /// The analysis of a sheet.
    Check,
    /// Its run.
    Run(Form),
    /// The sheet that is made for a number.
    Make(u64),
    /// The run of that sheet.
    Simulate(u64),
}

/// Whether a word is this one.
fn is(word: &str, other: &str) -> bool
    ensures { result ≡ bytes_eq word.now other.now }
{
    word.as_bytes() == other.as_bytes()
}

/// What one word asks for.
fn one_word(word: &str) -> Option<Command>
    ensures { result ≡ one_word word.now }
{
    if is(word, "check") {
        Some(Command::Check)
    } else if is(word, "run") {
        Some(Command::Run(Form::Plain))
    } else {
        None
    }
}

/// What two words ask for.
fn two_words(word: &str, other: &str) -> Option<Command>
    ensures { result ≡ two_words word.now other.now }
{
    if is(word, "run") {
        is(other, "--trace").then_some(Command::Run(Form::Trace))
    } else if is(word, "gen") {
        Some(Command::Make(number(other.as_bytes())?))
    } else if is(word, "sim") {
        Some(Command::Simulate(number(other.as_bytes())?))
    } else {
        None
    }
}

/// What the words ask for, if anything.
fn command_of(words: &[String]) -> Option<Command>
    ensures { result ≡ asked (map string_bytes words.now) }
{
    match words {
        [word] => one_word(word.as_str()),
        [word, other] => two_words(word.as_str(), other.as_str()),
        _ => None,
    }
}

/// Writes the analysis of an admitted sheet.
fn check_admitted<K: Sink>(admitted: &Admitted, sink: &mut K) -> Status
    ensures ends { EndsBy (IsAnalysis admitted.now) (K.taken sink.old) (K.taken sink.new) (K.faults sink.old) (K.faults sink.new) result }
    ensures memory { result ≢ Status.Memory }
{
    let written = write_analysis(&admitted.checked, &admitted.responses, sink);
    ended(Status::Done, written)
}

/// Writes the analysis of the sheet of a session that has had no tick, runs it, and writes its report.
fn write_report<K: Sink>(session: &mut Session, form: Form, sink: &mut K) -> Result<Finish, Failed>
    requires start { session.old.by.given ≡ 0 }
    requires whole { length session.old.responses ≡ length session.old.by.sheet.high }
    requires choice { ⟦<First as Pick>⟧.choice session.old.by.pick ≡ least_task }
    ensures ok { IfOk result (λ finish. (run : List ℕ) × IsRunText form session.old.by.geometry least_task session.old.by.sheet finish run × Appends (K.taken sink.old) (K.taken sink.new) (analysis session.old.by.sheet session.old.by.work session.old.by.attempt session.old.by.busy session.old.by.debt session.old.responses ++ run)) }
    ensures prefix { OnErr result ((finish : Finish) × (run : List ℕ) × IsRunText form session.old.by.geometry least_task session.old.by.sheet finish run × AppendsPrefix (K.taken sink.old) (K.taken sink.new) (analysis session.old.by.sheet session.old.by.work session.old.by.attempt session.old.by.busy session.old.by.debt session.old.responses ++ run)) }
    ensures cause { HasCause (K.faults sink.old) (K.faults sink.new) result }
{
    write_analysis(session.by.checked(), &session.responses, sink)?;
    write_run(&mut session.by, form, sink)
}

/// Runs an admitted sheet, and writes its report.
fn run_admitted<K: Sink>(alloc: Global, admitted: Admitted, form: Form, sink: &mut K) -> Status
    ensures ends { EndsBy (IsReport form admitted) (K.taken sink.old) (K.taken sink.new) (K.faults sink.old) (K.faults sink.new) result }
    ensures memory { result ≡ Status.Memory → sink.new ≡ sink.old }
{
    let mut session = match Session::open(alloc, admitted) {
        Ok(session) => session,
        Err(Memory) => return Status::Memory,
    };
    match write_report(&mut session, form, sink) {
        Ok(Finish::AtEnd) => Status::Done,
        Ok(Finish::Live(_)) => Status::Live,
        Err(Failed) => Status::WriteFault,
    }
}

/// Ends the program for a sheet that isn't admitted.
fn refuse_admission<K: Sink>(refused: &Refused, sink: &mut K) -> Status
    ensures ends { (form : Option Form) (bytes : List ℕ) (sheet : Sheet) → IsSheetOf bytes sheet → IsRefusal sheet refused.now
        → EndsBy (BytesCallFor (answer_for form) bytes) (K.taken sink.old) (K.taken sink.new) (K.faults sink.old) (K.faults sink.new) result }
    ensures memory { result ≡ Status.Memory → sink.new ≡ sink.old }
{
    match refused {
        Refused::Memory => Status::Memory,
        _ => ended(Status::NotAdmitted, put_refused(sink, refused)),
    }
}

/// Answers bytes: with the analysis of the sheet that they are, or with the report of its run in a form.
fn answer<K: Sink>(alloc: Global, form: Option<Form>, bytes: &[u8], sink: &mut K) -> Status
    requires { length bytes.now ≤ longest_input }
    ensures ends { EndsBy (BytesCallFor (answer_for form) bytes.now) (K.taken sink.old) (K.taken sink.new) (K.faults sink.old) (K.faults sink.new) result }
    ensures memory { result ≡ Status.Memory → sink.new ≡ sink.old }
{
    let sheet = match read(alloc, bytes) {
        Ok(sheet) => sheet,
        Err(error) => return refuse_sheet(&error, sink),
    };
    let admitted = match admit(alloc, sheet) {
        Ok(admitted) => admitted,
        Err(refused) => return refuse_admission(&refused, sink),
    };
    match form {
        Some(form) => run_admitted(alloc, admitted, form, sink),
        None => check_admitted(&admitted, sink),
    }
}

/// Writes the sheet that is made for a number.
fn write_made<K: Sink>(alloc: Global, number: u64, sink: &mut K) -> Status
    ensures ends { EndsBy (λ ended text. (ended ≡ Status.Done) × IsRead text (Ok (made number))) (K.taken sink.old) (K.taken sink.new) (K.faults sink.old) (K.faults sink.new) result }
    ensures memory { result ≡ Status.Memory → sink.new ≡ sink.old }
{
    let sheet = match sheet(alloc, number) {
        Ok(sheet) => sheet,
        Err(Memory) => return Status::Memory,
    };
    match text(alloc, &sheet) {
        Ok(text) => ended(Status::Done, put_all(sink, text.as_slice())),
        Err(Memory) => Status::Memory,
    }
}

/// Runs the sheet that is made for a number, which is always admitted, and writes its report without outputs and faults.
fn simulate<K: Sink>(alloc: Global, number: u64, sink: &mut K) -> Status
    ensures ends { EndsBy (IsSimulation number) (K.taken sink.old) (K.taken sink.new) (K.faults sink.old) (K.faults sink.new) result }
    ensures memory { result ≡ Status.Memory → sink.new ≡ sink.old }
{
    let sheet = match sheet(alloc, number) {
        Ok(sheet) => sheet,
        Err(Memory) => return Status::Memory,
    };
    match admit(alloc, sheet) {
        Ok(admitted) => run_admitted(alloc, admitted, Form::Quiet, sink),
        Err(Refused::Memory) => Status::Memory,
        Err(_) => unreachable!(),
    }
}

/// Reads the input to its end, and answers it.
fn answer_input<S: Source, K: Sink>(
    alloc: Global,
    form: Option<Form>,
    source: &mut S,
    sink: &mut K,
) -> Status
    ensures ends { result ≢ Status.ReadFault → EndsOn (BytesCallFor (answer_for form)) (S.left source.old) (K.taken sink.old) (K.taken sink.new) (K.faults sink.old) (K.faults sink.new) result }
    ensures input { (result ≡ Status.Done) ⊎ (result ≡ Status.Live) → IsAtEnd (S.left source.new) }
    ensures read { result ≡ Status.ReadFault → Rose (S.faults source.old) (S.faults source.new) × (sink.new ≡ sink.old) }
    ensures kept { result ≢ Status.ReadFault → S.faults source.new ≡ S.faults source.old }
    ensures memory { result ≡ Status.Memory → sink.new ≡ sink.old }
    ensures later { S.faults source.old ≤ S.faults source.new }
{
    match take_all(alloc, source) {
        Ok(bytes) => answer(alloc, form, bytes.as_slice(), sink),
        Err(TakeFault::Failed) => Status::ReadFault,
        Err(TakeFault::Long) => ended(Status::Sheet, put_line(sink, &[b"sheet long"])),
        Err(TakeFault::Memory) => Status::Memory,
    }
}

/// Does what the words ask for. `check` reads the input, a task sheet, to its end, admits it, and writes the analysis. `run`
/// runs it besides, and writes the report; with `--trace` the report says who got each tick. `gen N` writes the sheet that is
/// made for the number N, and `sim N` runs that and writes its report without outputs and faults; these two read nothing.
///
/// What is refused gets one line. Wrong words are refused before anything is read; nothing is written before the input was
/// read, and where a read fails nothing is written at all. Memory is taken for the input, the sheet and the opening of the
/// session, none while that runs.
pub fn run_tool<S: Source, K: Sink>(
    alloc: Global,
    words: &[String],
    source: &mut S,
    sink: &mut K,
) -> Status
    // The whole text was written that the words and the input call for; where a sheet was read and not refused, the whole input
    // was read.
    ensures whole { HasText result → Writes words.now (S.left source.old) (K.taken sink.old) (K.taken sink.new) result }
    ensures whole_input { ReadsInput words.now → (result ≡ Status.Done) ⊎ (result ≡ Status.Live) → IsAtEnd (S.left source.new) }

    // Words that the program doesn't take are refused before anything is read; `gen` and `sim` read nothing.
    ensures wrong_words { AsksNothing words.now → (result ≡ Status.Usage) ⊎ (result ≡ Status.WriteFault) }
    ensures untouched { ¬ (ReadsInput words.now) → source.new ≡ source.old }

    // What failed. Each other answer comes only where the count of faults stayed as it was: a failed read is never taken for
    // the end of the input, and no failed write for a text, also where source and sink don't tell their bytes.
    ensures read { result ≡ Status.ReadFault → Rose (S.faults source.old) (S.faults source.new) × (sink.new ≡ sink.old) }
    ensures no_read_failed { result ≢ Status.ReadFault → S.faults source.new ≡ S.faults source.old }
    ensures write { result ≡ Status.WriteFault → Rose (K.faults sink.old) (K.faults sink.new) }
    ensures no_write_failed { result ≢ Status.WriteFault → K.faults sink.new ≡ K.faults sink.old }
    ensures prefix { result ≡ Status.WriteFault → WritesPrefix words.now (S.left source.old) (K.taken sink.old) (K.taken sink.new) }
    ensures memory { result ≡ Status.Memory → sink.new ≡ sink.old }

    // Where nothing fails, the words and the input decide.
    ensures complete { ¬ (Rose (S.faults source.old) (S.faults source.new)) → ¬ (Rose (K.faults sink.old) (K.faults sink.new))
        → IfSome (S.left source.old) (λ bytes. (status : Status) (text : List ℕ) → CallsFor words.now bytes status text
        → (result ≡ status) ⊎ (result ≡ Status.Memory)) }

    // `gen` has no other end.
    ensures made { (n : ℕ) → asked (map string_bytes words.now) ≡ Some (Command.Make n) → (result ≡ Status.Done) ⊎ ((result ≡ Status.WriteFault) ⊎ (result ≡ Status.Memory)) }

    // Counts of faults never fall.
    ensures later { (S.faults source.old ≤ S.faults source.new) × (K.faults sink.old ≤ K.faults sink.new) }
{
    let Some(command) = command_of(words) else {
        let usage = b"usage: henri check, run [--trace], gen N, sim N";
        return ended(Status::Usage, put_line(sink, &[usage]));
    };
    match command {
        Command::Check => answer_input(alloc, None, source, sink),
        Command::Run(form) => answer_input(alloc, Some(form), source, sink),
        Command::Make(number) => write_made(alloc, number, sink),
        Command::Simulate(number) => simulate(alloc, number, sink),
    }
}

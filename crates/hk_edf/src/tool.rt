//! What the program does.
ghost use Rattle.std.specs.Prelude.{◌≡◌, ◌≢◌, ◌⊎◌, ℕ, ◌++◌, ◌≤◌, List, [], length, OnErr, IfOk, IfSome};
ghost use Rattle.std.specs.Io.KnownBytes.{Appends, IsAtEnd};
ghost use Rattle.hk_io.specs.Bytes.{AppendsPrefix};
ghost use Rattle.hk_io.specs.Faults.{Rose, HasCause};
ghost use Rattle.hk_io.specs.Limits.{longest_input};
ghost use Rattle.hk_sheet.specs.declared.sheet.Sheet.{Sheet};
ghost use Rattle.hk_front.specs.Input.{IsSheetOf};
ghost use Rattle.hk_front.specs.Endings.{HasText, EndsBy};
ghost use Rattle.hk_top.specs.declared.report.Finish.{Finish};
ghost use Rattle.hk_top.specs.declared.report.Form.TheVariants.{Plain};
ghost use Rattle.hk_top.specs.Report.{IsRunText};
ghost use Rattle.hk_edf.specs.Earliest.{earliest_row};
ghost use Rattle.hk_edf.specs.Refusals.{MeetsDemand, IsEdfRefusal};
ghost use Rattle.hk_edf.specs.Text.{edf_analysis};
ghost use Rattle.hk_edf.specs.Tool.{IsReport, BytesCallFor, CallsFor, Writes, WritesPrefix};

use crate::admission::admit_edf;
use crate::choice::Earliest;
use crate::refused::EdfRefused;
use crate::report::{put_analysis, put_edf_refused};
use hk_admit::Checked;
use hk_dispatch::SessionBy;
use hk_front::{ended, put_line, refuse_sheet};
use hk_io::{Failed, Sink, Source, Status, TakeFault, take_all};
use hk_sheet::read;
use hk_top::{Finish, Form, write_run};
use hk_words::Memory;
use std::alloc::Global;

/// Writes the analysis of the sheet of a session that has had no tick, runs the session, and writes its report.
fn write_report<K: Sink>(session: &mut SessionBy<Earliest>, sink: &mut K) -> Result<Finish, Failed>
    requires start { session.old.given ≡ 0 }
    ensures ok { IfOk result (λ finish. (text : List ℕ) × IsRunText Plain session.old.geometry earliest_row session.old.sheet finish text
        × Appends (K.taken sink.old) (K.taken sink.new) (edf_analysis session.old.sheet session.old.work session.old.attempt session.old.busy session.old.debt ++ text)) }
    ensures prefix { OnErr result ((finish : Finish) × (text : List ℕ) × IsRunText Plain session.old.geometry earliest_row session.old.sheet finish text
        × AppendsPrefix (K.taken sink.old) (K.taken sink.new) (edf_analysis session.old.sheet session.old.work session.old.attempt session.old.busy session.old.debt ++ text)) }
    ensures cause { HasCause (K.faults sink.old) (K.faults sink.new) result }
{
    put_analysis(sink, session.checked())?;
    write_run(session, Form::Plain, sink)
}

/// Runs a checked sheet, and writes its report.
fn run_checked<K: Sink>(alloc: Global, checked: Checked, sink: &mut K) -> Status
    requires { MeetsDemand checked.sheet checked.busy }
    ensures ends { EndsBy (IsReport checked) (K.taken sink.old) (K.taken sink.new) (K.faults sink.old) (K.faults sink.new) result }
    ensures memory { result ≡ Status.Memory → sink.new ≡ sink.old }
{
    let mut session = match SessionBy::open(alloc, checked, Earliest) {
        Ok(session) => session,
        Err(Memory) => return Status::Memory,
    };
    match write_report(&mut session, sink) {
        Ok(Finish::AtEnd) => Status::Done,
        Ok(Finish::Live(_)) => Status::Live,
        Err(Failed) => Status::WriteFault,
    }
}

/// Ends the program for a sheet that isn't admitted.
fn refuse_admission<K: Sink>(refused: &EdfRefused, sink: &mut K) -> Status
    ensures ends { (bytes : List ℕ) (sheet : Sheet) → IsSheetOf bytes sheet → IsEdfRefusal sheet refused.now
        → EndsBy (BytesCallFor bytes) (K.taken sink.old) (K.taken sink.new) (K.faults sink.old) (K.faults sink.new) result }
    ensures memory { result ≡ Status.Memory → sink.new ≡ sink.old }
{
    match refused {
        EdfRefused::Memory => Status::Memory,
        _ => ended(Status::NotAdmitted, put_edf_refused(sink, refused)),
    }
}

/// Runs the sheet that an input is.
fn answer<K: Sink>(alloc: Global, bytes: &[u8], sink: &mut K) -> Status
    requires { length bytes.now ≤ longest_input }
    ensures ends { EndsBy (BytesCallFor bytes.now) (K.taken sink.old) (K.taken sink.new) (K.faults sink.old) (K.faults sink.new) result }
    ensures memory { result ≡ Status.Memory → sink.new ≡ sink.old }
{
    let sheet = match read(alloc, bytes) {
        Ok(sheet) => sheet,
        Err(error) => return refuse_sheet(&error, sink),
    };
    match admit_edf(alloc, sheet) {
        Ok(checked) => run_checked(alloc, checked, sink),
        Err(refused) => refuse_admission(&refused, sink),
    }
}

/// Reads the input, a task sheet, to its end, admits it, runs it by earliest deadlines, and writes the analysis and the report.
/// It takes no words; where there are some they are refused before anything is read. What is refused gets one line. Nothing is
/// written before the input was read, and where a read fails nothing is written at all. Memory is taken for the input, the sheet
/// and the opening of the session, none while that runs.
pub fn run_edf<S: Source, K: Sink>(
    alloc: Global,
    words: &[String],
    source: &mut S,
    sink: &mut K,
) -> Status
    // The whole text was written that the words and the input call for; where a sheet was run or not admitted, the whole input
    // was read.
    ensures whole { HasText result → Writes words.now (S.left source.old) (K.taken sink.old) (K.taken sink.new) result }
    ensures whole_input { (result ≡ Status.Done) ⊎ ((result ≡ Status.Live) ⊎ (result ≡ Status.NotAdmitted)) → IsAtEnd (S.left source.new) }

    // Words are refused before anything is read.
    ensures wrong_words { words.now ≢ [] → (result ≡ Status.Usage) ⊎ (result ≡ Status.WriteFault) }
    ensures untouched { words.now ≢ [] → source.new ≡ source.old }

    // What failed. Each other answer comes only where the count of faults stayed as it was: a failed read is never taken for
    // the end of the input, and no failed write for a text, also where source and sink don't tell their bytes.
    ensures read { result ≡ Status.ReadFault → Rose (S.faults source.old) (S.faults source.new) × (sink.new ≡ sink.old) }
    ensures no_read_failed { result ≢ Status.ReadFault → S.faults source.new ≡ S.faults source.old }
    ensures write { result ≡ Status.WriteFault → Rose (K.faults sink.old) (K.faults sink.new) }
    ensures no_write_failed { result ≢ Status.WriteFault → K.faults sink.new ≡ K.faults sink.old }
    ensures prefix { result ≡ Status.WriteFault → WritesPrefix words.now (S.left source.old) (K.taken sink.old) (K.taken sink.new) }
    ensures memory { result ≡ Status.Memory → sink.new ≡ sink.old }

    // Where nothing fails, the words and the input decide.
    ensures complete { ¬ (Rose (S.faults source.old) (S.faults source.new)) → ¬ (Rose (K.faults sink.old) (K.faults sink.new))
        → IfSome (S.left source.old) (λ bytes. (status : Status) (text : List ℕ) → CallsFor words.now bytes status text
        → (result ≡ status) ⊎ (result ≡ Status.Memory)) }

    // Counts of faults never fall.
    ensures later { (S.faults source.old ≤ S.faults source.new) × (K.faults sink.old ≤ K.faults sink.new) }
{
    if !words.is_empty() {
        return ended(Status::Usage, put_line(sink, &[b"usage: hk_edf"]));
    }
    match take_all(alloc, source) {
        Ok(bytes) => answer(alloc, bytes.as_slice(), sink),
        Err(TakeFault::Failed) => Status::ReadFault,
        Err(TakeFault::Long) => ended(Status::Sheet, put_line(sink, &[b"sheet long"])),
        Err(TakeFault::Memory) => Status::Memory,
    }
}

//! What the program does for its words.
ghost use Rattle.std.specs.Prelude.{◌≡◌, ◌≢◌, ◌⊎◌, ℕ, ◌++◌, ◌≤◌, List, length, false, Ok, IfOk, IfSome, OnErr};
ghost use Rattle.std.specs.Io.KnownBytes.{Appends, IsAtEnd};
ghost use Rattle.hk_io.specs.Bytes.{AppendsPrefix};
ghost use Rattle.hk_io.specs.Faults.{HasCause, Rose};
ghost use Rattle.hk_io.specs.Limits.{longest_input};
ghost use Rattle.hk_sheet.specs.declared.sheet.Sheet.{Sheet};
ghost use Rattle.hk_front.specs.Words.{Puts};
ghost use Rattle.hk_front.specs.Input.{IsSheetOf};
ghost use Rattle.hk_front.specs.Endings.{HasText, EndsBy, EndsOn};
ghost use Rattle.hk_top.specs.declared.report.Form.TheVariants.{Plain};
ghost use Rattle.hk_top.specs.Report.{analysis, IsRunText};
ghost use Rattle.hk_ceiling.specs.declared.told.Section.{Section};
ghost use Rattle.hk_ceiling.specs.Admission.{IsCeilRefusal};
ghost use Rattle.hk_ceiling.specs.Choice.{by_ceilings};
ghost use Rattle.hk_ceiling.specs.Words.{are_sections, sections_from};
ghost use Rattle.hk_ceiling.specs.Tool.{ceil_line, IsReport, BytesCallFor, CallsFor, Writes, WritesPrefix};

use crate::admission::admit_ceiling;
use crate::admitted::Held;
use crate::choice::Ceiling;
use crate::refused::CeilRefused;
use crate::told::Sections;
use crate::words::{are_sections, read_sections};
use hk_dispatch::SessionBy;
use hk_front::{digits, ended, put_line, refuse_sheet};
use hk_io::{Failed, Sink, Source, Status, TakeFault, take_all};
use hk_sheet::{Ticks, read};
use hk_top::{Finish, Form, put_refused, write_analysis, write_run};
use hk_words::Memory;
use std::alloc::{AllocError, Global};

/// Writes why a sheet with sections isn't admitted.
fn put_ceil_refused<K: Sink>(sink: &mut K, refused: &CeilRefused) -> Result<(), Failed>
    ensures { Puts (K.taken sink.old) (K.taken sink.new) (K.faults sink.old) (K.faults sink.new) (ceil_line refused.now) result }
{
    match refused {
        CeilRefused::Section(q) => put_line(
            sink,
            &[b"refused", b"section", digits(*q as u64).bytes()],
        ),
        CeilRefused::Heap(refused) => put_refused(sink, refused),
        CeilRefused::Jitter(task) => put_line(sink, &[b"refused", b"jitter", &task.items]),
        CeilRefused::Response(task) => put_line(sink, &[b"refused", b"response", &task.items]),
        CeilRefused::Memory => put_line(sink, &[b"refused"]),
    }
}

/// Ends the program for a sheet that isn't admitted with its sections.
fn refuse_admission<K: Sink>(refused: &CeilRefused, sink: &mut K) -> Status
    ensures ends { (sections : List Section) (bytes : List ℕ) (sheet : Sheet) → IsSheetOf bytes sheet → IsCeilRefusal sheet sections refused.now
        → EndsBy (BytesCallFor sections bytes) (K.taken sink.old) (K.taken sink.new) (K.faults sink.old) (K.faults sink.new) result }
    ensures memory { result ≡ Status.Memory → sink.new ≡ sink.old }
{
    match refused {
        CeilRefused::Memory => Status::Memory,
        _ => ended(Status::NotAdmitted, put_ceil_refused(sink, refused)),
    }
}

/// Writes the analysis of the sheet of a session that has had no tick, runs it, and writes its report.
fn write_report<K: Sink>(
    session: &mut SessionBy<Ceiling>,
    responses: &Ticks,
    sink: &mut K,
) -> Result<Finish, Failed>
    requires start { session.old.given ≡ 0 }
    requires whole { length responses.now ≡ length session.old.sheet.high }
    ensures ok { IfOk result (λ finish. (text : List ℕ) × IsRunText Plain session.old.geometry (by_ceilings session.old.pick) session.old.sheet finish text
        × Appends (K.taken sink.old) (K.taken sink.new) (analysis session.old.sheet session.old.work session.old.attempt session.old.busy session.old.debt responses.now ++ text)) }
    ensures prefix { OnErr result ((finish : Finish) × (text : List ℕ) × IsRunText Plain session.old.geometry (by_ceilings session.old.pick) session.old.sheet finish text
        × AppendsPrefix (K.taken sink.old) (K.taken sink.new) (analysis session.old.sheet session.old.work session.old.attempt session.old.busy session.old.debt responses.now ++ text)) }
    ensures cause { HasCause (K.faults sink.old) (K.faults sink.new) result }
{
    write_analysis(session.checked(), responses, sink)?;
    write_run(session, Form::Plain, sink)
}

/// Runs an admitted sheet, and writes its report.
fn run_held<K: Sink>(alloc: Global, held: Held, sink: &mut K) -> Status
    ensures ends { EndsBy (IsReport held) (K.taken sink.old) (K.taken sink.new) (K.faults sink.old) (K.faults sink.new) result }
    ensures memory { result ≡ Status.Memory → sink.new ≡ sink.old }
{
    let pick = Ceiling::of(&held);
    let mut session = match SessionBy::open(alloc, held.checked, pick) {
        Ok(session) => session,
        Err(Memory) => return Status::Memory,
    };
    match write_report(&mut session, &held.responses, sink) {
        Ok(Finish::AtEnd) => Status::Done,
        Ok(Finish::Live(_)) => Status::Live,
        Err(Failed) => Status::WriteFault,
    }
}

/// Answers bytes: with the report of the run of the sheet that they are.
fn answer<K: Sink>(alloc: Global, sections: &Sections, bytes: &[u8], sink: &mut K) -> Status
    requires short { length bytes.now ≤ longest_input }
    requires few { length sections.now ≤ 64 }
    ensures ends { EndsBy (BytesCallFor sections.now bytes.now) (K.taken sink.old) (K.taken sink.new) (K.faults sink.old) (K.faults sink.new) result }
    ensures memory { result ≡ Status.Memory → sink.new ≡ sink.old }
{
    let sheet = match read(alloc, bytes) {
        Ok(sheet) => sheet,
        Err(error) => return refuse_sheet(&error, sink),
    };
    match admit_ceiling(alloc, sheet, &sections.items) {
        Ok(held) => run_held(alloc, held, sink),
        Err(refused) => refuse_admission(&refused, sink),
    }
}

/// Reads the input to its end, and answers it.
fn answer_input<S: Source, K: Sink>(
    alloc: Global,
    sections: &Sections,
    source: &mut S,
    sink: &mut K,
) -> Status
    requires { length sections.now ≤ 64 }
    ensures ends { result ≢ Status.ReadFault → EndsOn (BytesCallFor sections.now) (S.left source.old) (K.taken sink.old) (K.taken sink.new) (K.faults sink.old) (K.faults sink.new) result }
    ensures input { (result ≡ Status.Done) ⊎ ((result ≡ Status.Live) ⊎ (result ≡ Status.NotAdmitted)) → IsAtEnd (S.left source.new) }
    ensures read { result ≡ Status.ReadFault → Rose (S.faults source.old) (S.faults source.new) × (sink.new ≡ sink.old) }
    ensures kept { result ≢ Status.ReadFault → S.faults source.new ≡ S.faults source.old }
    ensures memory { result ≡ Status.Memory → sink.new ≡ sink.old }
    ensures later { S.faults source.old ≤ S.faults source.new }
{
    match take_all(alloc, source) {
        Ok(bytes) => answer(alloc, sections, bytes.as_slice(), sink),
        Err(TakeFault::Failed) => Status::ReadFault,
        Err(TakeFault::Long) => ended(Status::Sheet, put_line(sink, &[b"sheet long"])),
        Err(TakeFault::Memory) => Status::Memory,
    }
}

/// Runs the sheet that the input is, with the sections that the words tell, and writes its report. What is refused gets one line.
///
/// Wrong words are refused before anything is read; nothing is written before the input was read, and where a read fails nothing
/// is written at all. Memory is taken for the words, the input, the sheet and the opening of the session, none while that runs.
pub fn run_ceiling<S: Source, K: Sink>(
    alloc: Global,
    words: &[String],
    source: &mut S,
    sink: &mut K,
) -> Status
    // The whole text was written that the words and the input call for; where a sheet was run or not admitted, the whole input
    // was read.
    ensures whole { HasText result → Writes words.now (S.left source.old) (K.taken sink.old) (K.taken sink.new) result }
    ensures whole_input { (result ≡ Status.Done) ⊎ ((result ≡ Status.Live) ⊎ (result ≡ Status.NotAdmitted)) → IsAtEnd (S.left source.new) }

    // Words that tell no sections are refused before anything is read.
    ensures wrong_words { are_sections words.now ≡ false → (result ≡ Status.Usage) ⊎ (result ≡ Status.WriteFault) }
    ensures untouched { are_sections words.now ≡ false → source.new ≡ source.old }

    // What failed. Each other answer comes only where the count of faults stayed as it was.
    ensures read { result ≡ Status.ReadFault → Rose (S.faults source.old) (S.faults source.new) × (sink.new ≡ sink.old) }
    ensures no_read_failed { result ≢ Status.ReadFault → S.faults source.new ≡ S.faults source.old }
    ensures write { result ≡ Status.WriteFault → Rose (K.faults sink.old) (K.faults sink.new) }
    ensures no_write_failed { result ≢ Status.WriteFault → K.faults sink.new ≡ K.faults sink.old }
    ensures prefix { result ≡ Status.WriteFault → WritesPrefix words.now (S.left source.old) (K.taken sink.old) (K.taken sink.new) }
    ensures memory { result ≡ Status.Memory → sink.new ≡ sink.old }

    // Where nothing fails, the words and the input decide.
    ensures complete { ¬ (Rose (S.faults source.old) (S.faults source.new)) → ¬ (Rose (K.faults sink.old) (K.faults sink.new))
        → IfSome (S.left source.old) (λ bytes. (status : Status) (text : List ℕ) → CallsFor words.now bytes status text
        → (result ≡ status) ⊎ (result ≡ Status.Memory)) }

    // Counts of faults never fall.
    ensures later { (S.faults source.old ≤ S.faults source.new) × (K.faults sink.old ≤ K.faults sink.new) }
{
    if !are_sections(words) {
        let usage = b"usage: hk_ceiling [NAME:RES:START:LEN]...";
        return ended(Status::Usage, put_line(sink, &[usage]));
    }
    match read_sections(alloc, words) {
        Ok(Some(sections)) => answer_input(alloc, &sections, source, sink),
        Ok(None) => unreachable!(),
        Err(AllocError) => Status::Memory,
    }
}

//! What the program does for its words.
ghost use Rattle.std.specs.Prelude.{◌≡◌, ◌≢◌, ◌⊎◌, ℕ, ◌<◌, ◌≤◌, List, take, length, All, IfOk, IfErr, IfSome};
ghost use Rattle.std.specs.Io.KnownBytes.{IsAtEnd};
ghost use Rattle.hk_io.specs.Faults.{Rose};
ghost use Rattle.hk_io.specs.Limits.{longest_input};
ghost use Rattle.hk_rta.specs.Demand.{IsTimed};
ghost use Rattle.hk_sheet.specs.Valid.{IsSheet};
ghost use Rattle.hk_admit.specs.Analysis.{timings_of};
ghost use Rattle.hk_front.specs.Words.{Puts};
ghost use Rattle.hk_front.specs.Input.{IsSheetOf};
ghost use Rattle.hk_front.specs.Endings.{HasText, EndsBy};
ghost use Rattle.hk_assign.specs.Orders.{IsOrder};
ghost use Rattle.hk_assign.specs.Assignment.{IsStuck};
ghost use Rattle.hk_assign.specs.Sheets.{names_at, in_sheet_order, IsAssigned};
ghost use Rattle.hk_assign.specs.Tool.{IsAsked, order_line, BytesCallFor, CallsFor, Writes, WritesPrefix};

use crate::assignment::assign;
use crate::order::{Order, Stuck};
use crate::placing::NO_TIMING;
use crate::reorder::in_order;
use hk_front::{ended, put_line, refuse_sheet};
use hk_io::{Failed, Sink, Source, Status, TakeFault, put_all, take_all};
use hk_rta::{MAX_TASKS, Timing};
use hk_sheet::{High, Memory, Sheet, read, text};
use std::alloc::Global;

/// The words of a line for tasks that have no order: two, and one for each task.
const MAX_WORDS: usize = 2 + MAX_TASKS;

/// The timings of some tasks.
fn timings(tasks: &[High]) -> [Timing; MAX_TASKS]
    requires { length tasks.now ≤ 31 }
    ensures { take (length tasks.now) result ≡ timings_of tasks.now }
{
    let mut row = [NO_TIMING; MAX_TASKS];
    for (place, task) in tasks.iter().enumerate() {
        row[place] = task.timing;
    }
    row
}

/// The order of some tasks that the rule gives, or the set because of which there is none.
fn order_of(tasks: &[High]) -> Result<Order, Stuck>
    requires few { length tasks.now ≤ 31 }
    requires timed { All IsTimed (timings_of tasks.now) }
    ensures order { IfOk result (λ order. IsAssigned tasks.now order) }
    ensures stuck { IfErr result (λ set. IsStuck (timings_of tasks.now) set) }
{
    let row = timings(tasks);
    assign(&row[..tasks.len()])
}

/// Writes that there is no order because of some tasks, one name after the other.
fn put_no_order<K: Sink>(sink: &mut K, tasks: &[High], set: &Stuck) -> Result<(), Failed>
    requires { All (λ task. task < length tasks.now) set.now }
    ensures { Puts (K.taken sink.old) (K.taken sink.new) (K.faults sink.old) (K.faults sink.new) (order_line (names_at tasks.now set.now)) result }
{
    let mut words: [&[u8]; MAX_WORDS] = [b""; MAX_WORDS];
    words[0] = b"refused";
    words[1] = b"order";
    let mut count = 2;
    for place in 0..set.len() {
        let task = &tasks[usize::from(set.at(place as u8))];
        words[count] = task.name.items.as_slice();
        count += 1;
    }
    put_line(sink, &words[..count])
}

/// Writes a sheet with its high tasks in an order.
fn write_in_order<K: Sink>(alloc: Global, sheet: Sheet, order: &Order, sink: &mut K) -> Status
    requires sheet { IsSheet sheet }
    requires order { IsAssigned sheet.high order.now }
    ensures ends { (bytes : List ℕ) → IsSheetOf bytes sheet
        → EndsBy (BytesCallFor bytes) (K.taken sink.old) (K.taken sink.new) (K.faults sink.old) (K.faults sink.new) result }
    ensures memory { result ≡ Status.Memory → sink.new ≡ sink.old }
{
    let arranged = in_order(sheet, order);
    match text(alloc, &arranged) {
        Ok(bytes) => ended(Status::Done, put_all(sink, bytes.as_slice())),
        Err(Memory) => Status::Memory,
    }
}

/// Ends the program for a sheet whose high tasks have no order.
fn refuse_order<K: Sink>(sheet: &Sheet, set: &Stuck, sink: &mut K) -> Status
    requires { IsStuck (timings_of sheet.now.high) set.now }
    ensures ends { (bytes : List ℕ) → IsSheetOf bytes sheet.now
        → EndsBy (BytesCallFor bytes) (K.taken sink.old) (K.taken sink.new) (K.faults sink.old) (K.faults sink.new) result }
    ensures memory { result ≢ Status.Memory }
{
    ended(
        Status::NotAdmitted,
        put_no_order(sink, &sheet.high.items, set),
    )
}

/// Does what is to be done with the sheet that an input is.
fn answer<K: Sink>(alloc: Global, bytes: &[u8], sink: &mut K) -> Status
    requires { length bytes.now ≤ longest_input }
    ensures ends { EndsBy (BytesCallFor bytes.now) (K.taken sink.old) (K.taken sink.new) (K.faults sink.old) (K.faults sink.new) result }
    ensures memory { result ≡ Status.Memory → sink.new ≡ sink.old }
{
    let sheet = match read(alloc, bytes) {
        Ok(sheet) => sheet,
        Err(error) => return refuse_sheet(&error, sink),
    };
    match order_of(&sheet.high.items) {
        Ok(order) => write_in_order(alloc, sheet, &order, sink),
        Err(set) => refuse_order(&sheet, &set, sink),
    }
}

/// Reads the input, a task sheet, to its end, and writes it with its high tasks in the order that the rule gives. What is
/// refused gets one line: bytes that are no sheet, and tasks that have no order. The other conditions of admission aren't
/// looked at. Any words are refused before anything is read; nothing is written before the input was read, and where a read
/// fails nothing is written at all.
pub fn run_assign<S: Source, K: Sink>(
    alloc: Global,
    words: &[String],
    source: &mut S,
    sink: &mut K,
) -> Status
    // The whole text was written that the words and the input call for; for a sheet that was written or has no order, the
    // whole input was read.
    ensures whole { HasText result → Writes words.now (S.left source.old) (K.taken sink.old) (K.taken sink.new) result }
    ensures whole_input { (result ≡ Status.Done) ⊎ (result ≡ Status.NotAdmitted) → IsAtEnd (S.left source.new) }

    // Words are refused before anything is read.
    ensures wrong_words { ¬ (IsAsked words.now) → (result ≡ Status.Usage) ⊎ (result ≡ Status.WriteFault) }
    ensures untouched { ¬ (IsAsked words.now) → source.new ≡ source.old }

    // What failed. Each other answer comes only where the count of faults stayed as it was: a failed read is never taken for
    // the end of the input, and no failed write for a text, also where source and sink don't tell their bytes.
    ensures read { result ≡ Status.ReadFault → Rose (S.faults source.old) (S.faults source.new) × (sink.new ≡ sink.old) }
    ensures no_read_failed { result ≢ Status.ReadFault → S.faults source.new ≡ S.faults source.old }
    ensures write { result ≡ Status.WriteFault → Rose (K.faults sink.old) (K.faults sink.new) }
    ensures no_write_failed { result ≢ Status.WriteFault → K.faults sink.new ≡ K.faults sink.old }
    ensures prefix { result ≡ Status.WriteFault → WritesPrefix words.now (S.left source.old) (K.taken sink.old) (K.taken sink.new) }
    ensures memory { result ≡ Status.Memory → sink.new ≡ sink.old }

    // Where nothing fails, the words and the input decide.
    ensures complete { ¬ (Rose (S.faults source.old) (S.faults source.new)) → ¬ (Rose (K.faults sink.old) (K.faults sink.new))
        → IfSome (S.left source.old) (λ bytes. (status : Status) (text : List ℕ) → CallsFor words.now bytes status text
        → (result ≡ status) ⊎ (result ≡ Status.Memory)) }

    // Counts of faults never fall.
    ensures later { (S.faults source.old ≤ S.faults source.new) × (K.faults sink.old ≤ K.faults sink.new) }
{
    if !words.is_empty() {
        return ended(Status::Usage, put_line(sink, &[b"usage: hk_assign"]));
    }
    match take_all(alloc, source) {
        Ok(bytes) => answer(alloc, bytes.as_slice(), sink),
        Err(TakeFault::Failed) => Status::ReadFault,
        Err(TakeFault::Long) => ended(Status::Sheet, put_line(sink, &[b"sheet long"])),
        Err(TakeFault::Memory) => Status::Memory,
    }
}

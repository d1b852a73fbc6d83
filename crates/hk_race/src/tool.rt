//! What the program does for its words and its input.
ghost use Rattle.std.specs.Prelude.{◌≡◌, ◌≢◌, ◌⊎◌, ℕ, ◌≤◌, List, [], length, IfOk, IfSome, IsSome, None};
ghost use Rattle.std.specs.Io.KnownBytes.{IsAtEnd};
ghost use Rattle.hk_words.specs.Geometry.{HasSizes};
ghost use Rattle.hk_io.specs.Faults.{Rose};
ghost use Rattle.hk_io.specs.Limits.{longest_input};
ghost use Rattle.hk_sheet.specs.Faults.{sizes_of};
ghost use Rattle.hk_sheet.specs.Valid.{IsSheet};
ghost use Rattle.hk_sheet.specs.declared.sheet.Sheet.{Sheet};
ghost use Rattle.hk_table.specs.Ends.{Opens};
ghost use Rattle.hk_front.specs.Endings.{HasText, EndsBy};
ghost use Rattle.hk_front.specs.Input.{IsSheetOf};
ghost use Rattle.hk_front.specs.Words.{Puts};
ghost use Rattle.hk_race.specs.Race.{status_by, long_task_line, IsRaceOf, BytesCallFor, Writes, WritesPrefix, EndsRace, EndsAsCalled};
ghost use Rattle.hk_race.specs.Tasks.{HasNoLong, IsFirstLong};

use crate::competing::{Raced, compete};
use crate::gate::Gate;
use crate::long::first_long;
use crate::tasks::name_at;
use hk_front::{ended, put_line, refuse_sheet};
use hk_io::{Failed, Sink, Source, Status, TakeFault, put_all, take_all};
use hk_sheet::{Sheet, read};
use hk_table::{Heap, Keeper, Pass};
use hk_words::Memory;
use std::alloc::Global;
use std::sync::Wait;
use std::thread::Threads;

/// How the program ends, and what its race came to, where one was run to its end.
#[derive(Drop)]
pub struct RaceEnd {
    /// How the program ends.
    pub status: Status,
    /// What the race came to.
    pub raced: Option<Raced>,
}

/// How a race ends the program.
fn status_of(raced: &Raced) -> Status
    ensures { result ≡ status_by raced.now.full raced.now.live }
{
    if raced.full {
        Status::Full
    } else if raced.live.is_some() {
        Status::Live
    } else {
        Status::Done
    }
}

/// Writes that a task is long.
fn put_long<K: Sink>(sink: &mut K, name: &[u8]) -> Result<(), Failed>
    ensures { Puts (K.taken sink.old) (K.taken sink.new) (K.faults sink.old) (K.faults sink.new) (long_task_line name.now) result }
{
    put_line(sink, &[b"sheet", b"task", name, b"long"])
}

/// Ends the program for a sheet whose task of this seat is the first long one.
fn refuse_long<K: Sink>(sheet: &Sheet, seat: usize, sink: &mut K) -> Status
    requires { IsFirstLong sheet.now seat }
    ensures ends { (bytes : List ℕ) → IsSheetOf bytes sheet.now → EndsBy (BytesCallFor bytes None) (K.taken sink.old) (K.taken sink.new) (K.faults sink.old) (K.faults sink.new) result }
    ensures memory { result ≢ Status.Memory }
{
    ended(Status::Sheet, put_long(sink, name_at(sheet, seat)))
}

/// The heap of a sheet, with its passes and its keeper.
fn opened(alloc: Global, sheet: &Sheet) -> Result<(Heap, Vec<Pass>, Keeper), Memory>
    requires { IsSheet sheet.now }
    ensures sizes { IfOk result (λ r. HasSizes r.0.geometry (sizes_of sheet.now)) }
    ensures open { IfOk result (λ r. Opens r.0.geometry r.0 r.1.items r.2) }
{
    match Heap::open(alloc, sheet.geometry()) {
        Ok(parts) => Ok(parts),
        Err(Memory) => Err(Memory),
    }
}

/// The race of a sheet, on a heap that is opened for it.
fn race_of<R: Threads + Wait + Sync, G: Gate>(
    rt: &R,
    alloc: Global,
    sheet: &Sheet,
    gate: &G,
) -> Result<Raced, Memory>
    requires sheet { IsSheet sheet.now }
    requires short { HasNoLong sheet.now }
    ensures { IfOk result (IsRaceOf sheet.now) }
{
    let (heap, passes, keeper) = match opened(alloc, sheet) {
        Ok(parts) => parts,
        Err(Memory) => return Err(Memory),
    };
    compete(rt, alloc, sheet, heap, passes, keeper, gate)
}

/// Writes the text of a race.
fn write_race<K: Sink>(raced: Raced, sink: &mut K) -> RaceEnd
    ensures ends { (bytes : List ℕ) (sheet : Sheet) → IsSheetOf bytes sheet → HasNoLong sheet → IsRaceOf sheet raced
        → EndsBy (BytesCallFor bytes result.raced) (K.taken sink.old) (K.taken sink.new) (K.faults sink.old) (K.faults sink.new) result.status }
    ensures race { EndsRace result.status }
{
    let status = ended(status_of(&raced), put_all(sink, raced.text.as_slice()));
    RaceEnd {
        status,
        raced: Some(raced),
    }
}

/// Ends the program for a sheet without a long task: by its race, or for want of memory.
fn run_race<R: Threads + Wait + Sync, K: Sink, G: Gate>(
    rt: &R,
    alloc: Global,
    sheet: &Sheet,
    sink: &mut K,
    gate: &G,
) -> RaceEnd
    requires sheet { IsSheet sheet.now }
    requires short { HasNoLong sheet.now }
    ensures ends { (bytes : List ℕ) → IsSheetOf bytes sheet.now → EndsBy (BytesCallFor bytes result.raced) (K.taken sink.old) (K.taken sink.new) (K.faults sink.old) (K.faults sink.new) result.status }
    ensures race { IsSome result.raced → EndsRace result.status }
    ensures memory { result.status ≡ Status.Memory → sink.new ≡ sink.old }
{
    match race_of(rt, alloc, sheet, gate) {
        Ok(raced) => write_race(raced, sink),
        Err(Memory) => RaceEnd {
            status: Status::Memory,
            raced: None,
        },
    }
}

/// Answers bytes: with the race of the sheet that they are, or with why they are none that can be raced.
fn answer<R: Threads + Wait + Sync, K: Sink, G: Gate>(
    rt: &R,
    alloc: Global,
    bytes: &[u8],
    sink: &mut K,
    gate: &G,
) -> RaceEnd
    requires { length bytes.now ≤ longest_input }
    ensures ends { EndsBy (BytesCallFor bytes.now result.raced) (K.taken sink.old) (K.taken sink.new) (K.faults sink.old) (K.faults sink.new) result.status }
    ensures race { IsSome result.raced → EndsRace result.status }
    ensures memory { result.status ≡ Status.Memory → sink.new ≡ sink.old }
{
    let sheet = match read(alloc, bytes) {
        Ok(sheet) => sheet,
        Err(error) => {
            return RaceEnd {
                status: refuse_sheet(&error, sink),
                raced: None,
            };
        }
    };
    match first_long(&sheet) {
        Some(seat) => RaceEnd {
            status: refuse_long(&sheet, seat, sink),
            raced: None,
        },
        None => run_race(rt, alloc, &sheet, sink, gate),
    }
}

/// Reads a task sheet from the input, does its scripts on threads over a heap of its geometry, and writes what they come to. The
/// sheet isn't admitted: it may be one that can't keep its deadlines, and whose tasks find no room.
///
/// What is refused gets one line. Words are refused before anything is read, since the program takes none; nothing is written
/// before the race has ended, and where a read fails nothing is written at all. The promise is for where the call returns: it waits
/// for its threads.
pub fn race<R: Threads + Wait + Sync, S: Source, K: Sink, G: Gate>(
    rt: &R,
    alloc: Global,
    words: &[String],
    source: &mut S,
    sink: &mut K,
    gate: &G,
) -> RaceEnd
    // The whole text was written that the words, the input and the race call for; where a race was run to its end, the whole input
    // was read.
    ensures whole { HasText result.status → Writes words.now (S.left source.old) (K.taken sink.old) (K.taken sink.new) result }
    ensures whole_input { IsSome result.raced → IsAtEnd (S.left source.new) }

    // A race that was run to its end ends the program by one of these.
    ensures race { IsSome result.raced → EndsRace result.status }

    // Words are refused before anything is read.
    ensures wrong_words { words.now ≢ [] → (result.status ≡ Status.Usage) ⊎ (result.status ≡ Status.WriteFault) }
    ensures untouched { words.now ≢ [] → source.new ≡ source.old }

    // What failed. Each other answer comes only where the count of faults stayed as it was.
    ensures read { result.status ≡ Status.ReadFault → Rose (S.faults source.old) (S.faults source.new) × (sink.new ≡ sink.old) }
    ensures no_read_failed { result.status ≢ Status.ReadFault → S.faults source.new ≡ S.faults source.old }
    ensures write { result.status ≡ Status.WriteFault → Rose (K.faults sink.old) (K.faults sink.new) }
    ensures no_write_failed { result.status ≢ Status.WriteFault → K.faults sink.new ≡ K.faults sink.old }
    ensures prefix { result.status ≡ Status.WriteFault → WritesPrefix words.now (S.left source.old) (K.taken sink.old) (K.taken sink.new) result }
    ensures memory { result.status ≡ Status.Memory → sink.new ≡ sink.old }

    // Where nothing fails, the words and the input decide.
    ensures complete { ¬ (Rose (S.faults source.old) (S.faults source.new)) → ¬ (Rose (K.faults sink.old) (K.faults sink.new))
        → IfSome (S.left source.old) (λ bytes. EndsAsCalled words.now bytes result) }

    // Counts of faults never fall.
    ensures later { (S.faults source.old ≤ S.faults source.new) × (K.faults sink.old ≤ K.faults sink.new) }
{
    if !words.is_empty() {
        return RaceEnd {
            status: ended(Status::Usage, put_line(sink, &[b"usage: henri_race"])),
            raced: None,
        };
    }
    match take_all(alloc, source) {
        Ok(bytes) => answer(rt, alloc, bytes.as_slice(), sink, gate),
        Err(TakeFault::Failed) => RaceEnd {
            status: Status::ReadFault,
            raced: None,
        },
        Err(TakeFault::Long) => RaceEnd {
            status: ended(Status::Sheet, put_line(sink, &[b"sheet long"])),
            raced: None,
        },
        Err(TakeFault::Memory) => RaceEnd {
            status: Status::Memory,
            raced: None,
        },
    }
}

//! How a part of a program ends after it wrote a text.
ghost use Rattle.std.specs.Prelude.{◌≡◌, ◌≢◌, ℕ, ◌≤◌, List, length, Err, MatchResult};
ghost use Rattle.hk_io.specs.Limits.{longest_input};
ghost use Rattle.hk_sheet.specs.Answers.{Answers};
ghost use Rattle.hk_front.specs.Input.{UnreadCallsFor};
ghost use Rattle.hk_front.specs.Endings.{EndsBy};

use crate::refusals::put_sheet_error;
use hk_io::{Failed, Sink, Status};
use hk_sheet::SheetError;

/// How a program ends after it wrote a text: so, or with a write fault.
pub fn ended(status: Status, written: Result<(), Failed>) -> Status
    ensures { MatchResult written (λ _. result ≡ status) (λ _. result ≡ Status.WriteFault) }
{
    match written {
        Ok(()) => status,
        Err(Failed) => Status::WriteFault,
    }
}

/// Ends a program for bytes that are no sheet: by `Sheet` and the line of why, or by `Memory` and with nothing written where
/// reading them found no memory.
pub fn refuse_sheet<K: Sink>(error: &SheetError, sink: &mut K) -> Status
    ensures ends { (bytes : List ℕ) → length bytes ≤ longest_input → Answers bytes (Err error.now)
        → EndsBy (UnreadCallsFor bytes) (K.taken sink.old) (K.taken sink.new) (K.faults sink.old) (K.faults sink.new) result }
    ensures memory { result ≡ Status.Memory → sink.new ≡ sink.old }
    ensures told { error.now ≢ SheetError.Memory → result ≢ Status.Memory }
{
    match error {
        SheetError::Memory => Status::Memory,
        _ => ended(Status::Sheet, put_sheet_error(sink, error)),
    }
}

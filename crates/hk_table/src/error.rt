//! Why a call on the shared heap wasn't done.
ghost use Rattle.std.specs.Prelude.{◌≡◌};
ghost use Rattle.hk_table.specs.Errors.{error_of};

use hk_core::Fault;

/// Why a call on the shared heap wasn't done. The first that holds is told, in the order `Spent`, `Nil`, `Field`, `Full`.
#[derive(Clone, Copy, Debug, PartialEq, Eq)]
pub enum HeapError {
    /// The register that the call goes through is null. Nothing was changed.
    Nil,
    /// The object has no such field. Nothing was changed.
    Field,
    /// The words used in this cycle, as the call found them, left too few for the object. The call stands in the history,
    /// where it changes nothing.
    Full { words: u64 },
    /// The pass has begun as many calls as it can. Nothing was changed.
    Spent,
}

/// The error of a call that wasn't begun.
pub(crate) fn error_of(fault: Fault) -> HeapError
    ensures { result ≡ error_of fault }
{
    match fault {
        Fault::Spent => HeapError::Spent,
        Fault::Nil => HeapError::Nil,
        Fault::Field => HeapError::Field,
    }
}

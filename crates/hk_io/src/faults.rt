//! Why a call fails.
ghost use Rattle.std.specs.Prelude.{◌≡◌};
ghost use Rattle.hk_io.specs.declared.faults.TakeFault.TheVariants.{Failed as took_failed, Memory as took_memory};

use std::alloc::AllocError;

/// A source or a sink failed. Its count of faults rose in this call.
#[derive(Clone, Copy, Debug, PartialEq, Eq)]
pub struct Failed;

/// Why an input was not taken whole.
#[derive(Clone, Copy, Debug, PartialEq, Eq)]
pub enum TakeFault {
    /// A read failed.
    Failed,
    /// The input is longer than [`MAX_INPUT`](crate::MAX_INPUT) bytes.
    Long,
    /// There was no memory for it.
    Memory,
}

impl From<Failed> for TakeFault {
    ghost from_gives = { λ _ fault. fault ≡ took_failed };

    fn from(_: Failed) -> Self {
        TakeFault::Failed
    }
}

impl From<AllocError> for TakeFault {
    ghost from_gives = { λ _ fault. fault ≡ took_memory };

    fn from(_: AllocError) -> Self {
        TakeFault::Memory
    }
}

//! Why a sheet isn't admitted where its high jobs are to go by earliest deadlines.

use hk_admit::Refused;
use hk_sheet::Name;
use std::alloc::AllocError;

/// Why a sheet isn't admitted: the first reason, in this order.
#[derive(Debug, Drop)]
pub enum EdfRefused {
    /// The check of its heap refuses it, for another cause than memory.
    Heap(Refused),
    /// A job of this high task may become ready after its arrival: of such tasks the first, in sheet order.
    Jitter(Name),
    /// More is due within so many ticks than there are: the least such time, up to the length of the busy period.
    Demand(u64),
    /// There was no memory.
    Memory,
}

impl From<AllocError> for EdfRefused {
    ghost use Rattle.std.specs.Prelude.{◌≡◌};
    ghost use Rattle.hk_edf.specs.declared.refused.EdfRefused.TheVariants.{Memory};

    ghost from_gives = { λ _ refused. refused ≡ Memory };

    fn from(_error: AllocError) -> EdfRefused {
        EdfRefused::Memory
    }
}

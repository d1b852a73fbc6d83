//! Why a sheet with sections isn't admitted.

use hk_admit::Refused;
use hk_sheet::Name;
use std::alloc::{AllocError, AllocFailed};

/// Why a sheet with sections isn't admitted: the first reason, in this order.
#[derive(Debug, Drop)]
pub enum CeilRefused {
    /// This section, the first that is wrong, counted from 0: its name is no high task, its resource is above 63, it has no
    /// tick, it ends after its task's cost, or it begins before the end of its task's section before it.
    Section(usize),
    /// The check of the heap refuses.
    Heap(Refused),
    /// This high task, the first of them, has release jitter.
    Jitter(Name),
    /// This high task, the first of them, has no response time within its deadline.
    Response(Name),
    /// There was no memory.
    Memory,
}

impl From<AllocError> for CeilRefused {
    ghost use Rattle.std.specs.Prelude.{◌≡◌};
    ghost use Rattle.hk_ceiling.specs.declared.refused.CeilRefused.TheVariants.{Memory};

    ghost from_gives = { λ _ refused. refused ≡ Memory };

    fn from(_error: AllocError) -> CeilRefused {
        CeilRefused::Memory
    }
}

impl<T: Drop> From<AllocFailed<T>> for CeilRefused {
    ghost use Rattle.std.specs.Prelude.{◌≡◌};
    ghost use Rattle.hk_ceiling.specs.declared.refused.CeilRefused.TheVariants.{Memory};

    ghost from_gives = { λ _ refused. refused ≡ Memory };

    fn from(_error: AllocFailed<T>) -> CeilRefused {
        CeilRefused::Memory
    }
}

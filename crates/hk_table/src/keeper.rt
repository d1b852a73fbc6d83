//! The keeper: the seat of the collector.
ghost use Rattle.std.specs.Prelude.{◌≡◌};
ghost use Rattle.hk_core.specs.State as state;

use crate::heap::Seat;
use hk_core::{Line, Spot};

/// The collector's seat on the shared heap, and where the collector is.
#[derive(Drop)]
pub struct Keeper {
    pub seat: Seat,
    pub spot: Spot,
}

/// Where the collector is at the start.
#[tactic(auto, unfolding(hk_core::specs::State::opening_spot))]
pub(crate) fn first_spot() -> Spot
    ensures { result ≡ state.opening_spot }
{
    Spot {
        line: Line::Rest,
        cycle: 1,
        scan: 0,
        entries: 0,
        first: 0,
        item: 0,
        cell: 0,
        offset: 0,
        spent: 0,
    }
}

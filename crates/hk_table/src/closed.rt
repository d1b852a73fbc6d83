//! What is left of a shared heap that was closed.
ghost use Rattle.std.specs.Prelude.{◌≡◌, slice_index};
ghost use Rattle.hk_core.specs.Run.{run_from_opening};
ghost use Rattle.hk_table.specs.Seats.{the_log};

use crate::heap::Seat;
use hk_words::Geometry;

/// What is left of a shared heap that was closed. Its seat has the log of the heap's whole life, for contracts alone.
#[derive(Drop)]
pub struct Closed {
    pub(crate) reserved: u64,
    pub(crate) geometry: Geometry,
    pub(crate) seat: Seat,
    ghost reserves: { reserved ≡ slice_index (run_from_opening geometry (the_log seat.me.0.knows)).core.row 1 },
}

impl Closed {
    /// The words reserved for evacuation as the heap was closed.
    pub fn reserved(&self) -> u64
        ensures { result ≡ slice_index (run_from_opening self.now.geometry (the_log self.now.seat.me.0.knows)).core.row 1 }
    {
        self.reserved
    }
}

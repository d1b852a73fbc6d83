//! The choice of the least deadline.
ghost use Rattle.hk_edf.specs.Earliest.{earliest_row};

use hk_dispatch::{Pick, Ready};

/// The row with the least deadline, the first of these.
#[derive(Clone, Copy, Debug, PartialEq, Eq)]
pub struct Earliest;

impl Pick for Earliest {
    ghost choice = { λ pick rows. earliest_row rows };

    ghost use Rattle.hk_edf.specs.Chooses.{earliest_chooses};

    ghost chooses = { λ pick. earliest_chooses };

    fn pick(&self, ready: &[Ready]) -> usize {
        let mut best = 0;
        for place in 0..ready.len() {
            if ready[place].deadline < ready[best].deadline {
                best = place;
            }
        }
        best
    }
}

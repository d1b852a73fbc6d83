//! Notes: what a pass has seen, for another pass to learn.
ghost use Rattle.std.specs.Prelude.{◌≡◌};
ghost use Rattle.hk_table.specs.Seats.{Looks};
ghost use Rattle.hk_table.specs.Passes.{IsPassOf, IsNoteOf, known, noted_in};

use crate::cuts::{GiveNote, TakeNote};
use crate::heap::{Heap, Seat};
use crate::pass::Pass;
use crate::rule::Look;

/// A copy of the history that a pass had seen.
#[derive(Drop)]
pub struct Note {
    pub(crate) seat: Seat,
}

impl Heap {
    /// Notes what a pass has seen.
    pub fn note(&self, pass: &mut Pass) -> Note
        requires pass { IsPassOf self.now pass.old }
        ensures pass { IsPassOf self.now pass.new }
        ensures number { pass.new.number ≡ pass.old.number }
        ensures same { known pass.new ≡ known pass.old }
        ensures note { IsNoteOf self.now result × (noted_in result ≡ (known pass.old).seen) }
    {
        Note {
            seat: self.table.shared.split_seat::<TakeNote>(&mut pass.seat),
        }
    }

    /// Gives a note to a pass. Afterwards what the pass has seen begins with all that it had seen before, and with all that
    /// was noted. It has done nothing.
    pub fn learn(&self, pass: &mut Pass, note: Note)
        requires pass { IsPassOf self.now pass.old }
        requires note { IsNoteOf self.now note }
        ensures pass { IsPassOf self.now pass.new }
        ensures number { pass.new.number ≡ pass.old.number }
        ensures learnt { Looks self.now.geometry (known pass.old) (noted_in note) (known pass.new) }
    {
        self.table
            .shared
            .join_seat::<GiveNote>(&mut pass.seat, note.seat);
        self.table.shared.load::<Look>(&mut pass.seat, 0);
    }
}

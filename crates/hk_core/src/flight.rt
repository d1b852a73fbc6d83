ghost use Rattle.std.specs.Prelude.{◌≡◌, ◌+◌, ◌*◌, ◌<◌};
ghost use Rattle.hk_core.specs.Step.{reference_size, reserved_fits};
ghost use Rattle.hk_core.specs.State.{idle};

use hk_words::{Call, Geometry, reference_nums, reference_refs};

/// The call of a seat in flight: its next place, and the values that it has read. A seat that has no call in flight
/// is idle: its flight has place 0, and every other field but the seat says nothing.
#[derive(Clone, Copy, Debug, PartialEq, Eq)]
pub struct Flight {
    pub seat: u8,
    pub call: Call,
    /// The next place of the call, from 1; 0 where the seat is idle.
    pub place: u8,
    /// The reference that the entered register held as the call began; 0 for a call that enters no object.
    pub entered: u64,
    /// The place of the entered object, found on entering.
    pub at: u32,
    /// W0 as the call loaded it, or, once a New has raised it, as the raise found it.
    pub word: u64,
    /// The value or the reference that was read. In Store and Move it is the reference of `from` from the start.
    pub item: u64,
    /// The call was the first to claim the object that `item` names.
    pub claimer: bool,
    /// The offset that the call reserved for that object.
    pub offset: u64,
    /// The number for the new object, from its list entry.
    pub number: u32,
    /// A New that found too few words left.
    pub full: bool,
    /// A New that has raised W0. One that found too few words before it raised W0 changes nothing more; one that
    /// found too few words in the raise has entered its frame and leaves it.
    pub raised: bool,
}

/// The words of the object that a reference names.
pub fn reference_size(reference: u64) -> u32
    ensures { result ≡ reference_size reference }
{
    1 + u32::from(reference_refs(reference)) + u32::from(reference_nums(reference))
}

/// What was reserved at an offset, for the object that a reference names, ends in the area for evacuation.
pub fn reserved_fits(g: &Geometry, offset: u64, reference: u64) -> bool
    ensures { result ≡ reserved_fits g.now offset reference }
{
    match offset.checked_add(u64::from(reference_size(reference))) {
        Some(end) => end <= u64::from(g.live()),
        None => false,
    }
}

impl Flight {
    /// The flight of a seat that has no call in flight.
    #[tactic(auto, unfolding(crate::specs::State::idle))]
    pub fn idle(seat: u8) -> Flight
        ensures { result ≡ idle seat }
    {
        Flight {
            seat,
            call: Call::Clear { dest: 0 },
            place: 0,
            entered: 0,
            at: 0,
            word: 0,
            item: 0,
            claimer: false,
            offset: 0,
            number: 0,
            full: false,
            raised: false,
        }
    }
}

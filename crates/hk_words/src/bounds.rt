//! How long calls, attempts of the collector and collection cycles are: in steps and events, each of one word.
ghost use Rattle.std.specs.Prelude.{◌≡◌, ℕ, ◌≤◌};
ghost use Rattle.hk_words.specs.declared.call.Call.{Call};
ghost use Rattle.hk_words.specs.Bounds.{places_of, most_places, frame_events, object_events, cycle_events};

use crate::Call;

/// The most places that a call has: those of a load of a reference.
pub const MOST_PLACES: u8 = 10;

impl Call {
    /// The places of the call: the steps from its begin to its end. A question has none.
    pub fn places(&self) -> u8
        ensures { result ≡ places_of self.now }
    {
        match *self {
            Call::Get { .. } | Call::Put { .. } | Call::Move { .. } => 3,
            Call::Load { .. } => MOST_PLACES,
            Call::Store { .. } | Call::New { .. } => 7,
            Call::Clear { .. } => 1,
            Call::Same { .. } | Call::IsNull { .. } => 0,
        }
    }
}

/// The most events of an attempt to blacken the frame of a task with so many registers.
pub fn frame_events(registers: u8) -> u32
    ensures { result ≡ frame_events registers }
{
    2 + 4 * u32::from(registers)
}

/// The most events of an attempt to move an object of so many words, of which there is one at least.
pub fn object_events(words: u32) -> u32
    requires some { 1 ≤ words }
    requires few { words ≤ 65536 }
    ensures { result ≡ object_events words }
{
    2 + 5 * (words - 1)
}

/// An upper bound on the useful events of a collection cycle, of a heap with so many registers for each of so many tasks,
/// and so many words for evacuation and for allocation in a space.
pub fn cycle_events(registers: u8, tasks: u8, live: u32, alloc: u32) -> u64
    ensures { result ≡ cycle_events registers tasks live alloc }
{
    3 + u64::from(frame_events(registers)) * u64::from(tasks)
        + 9 * u64::from(live)
        + 7 * u64::from(alloc)
}

/// Every call has at most [`MOST_PLACES`] places.
pub fn most_places_of_calls()
    ensures { (call : Call) → places_of call ≤ most_places }
{}

//! The collector of the heap, one event on one word at a time.
#![tactic(auto)]

mod claims;
mod collector;
mod decide;
mod follow;
mod frames;
mod laws;
mod measure;
mod numbers;
mod objects;
mod owned;
#[cfg(test)]
mod tests;
mod used;
mod words;

pub use collector::{advance, step};
pub use decide::event;
pub use follow::took;
pub use hk_core::Work;
pub use laws::{
    collector_can_go_on, collector_keeps_history, events_are_counted, inside_stays, operations_end,
    runs_are_lawful, runs_give_fresh_numbers,
};
pub use measure::{collector_pays, cycles_take_events, measured_cycle, untouched_attempts};
pub use owned::OwnedHeap;
pub use used::{reserved_is_live, reserved_was_used};
pub use words::{words_reserved, words_taken};

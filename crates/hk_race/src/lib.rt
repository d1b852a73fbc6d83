//! The scripts of a task sheet, each on a thread of its own, over one shared heap.
#![tactic(auto)]

mod collector;
mod competing;
mod desk;
mod gate;
mod long;
mod note;
mod progress;
mod room;
mod shared;
mod tasks;
#[cfg(test)]
mod tests;
mod text;
mod thread;
mod tool;
mod worker;

pub use competing::{Raced, compete};
pub use desk::{Desk, MOST_CALLS, Said};
pub use gate::{Gate, Open};
pub use long::first_long;
pub use note::Note;
pub use progress::Progress;
pub use tool::{RaceEnd, race};

//! The heap that threads share, over one table of atomic words.
#![tactic(auto)]

mod closed;
mod cuts;
mod error;
mod finish;
mod fire;
mod heap;
mod keeper;
mod laws;
mod mirror;
mod note;
mod open;
mod operate;
mod operations;
mod pass;
mod question;
mod rest;
mod rule;
mod steps;
#[cfg(test)]
mod tests;
mod view;

pub use closed::Closed;
pub use error::HeapError;
pub use finish::close;
pub use heap::{Heap, Seat};
pub use keeper::Keeper;
pub use laws::{one_lawful_run, refusals_are_plain};
pub use note::Note;
pub use pass::Pass;
pub use steps::Steps;
pub use view::View;

//! The collector of the heap that threads share: each of its events is one atomic step.
#![tactic(auto)]

mod fire;
mod laws;
#[cfg(test)]
mod tests;
mod turn;

pub use hk_core::Work;
pub use laws::{logs_answer, turns_answer};
pub use turn::collect;

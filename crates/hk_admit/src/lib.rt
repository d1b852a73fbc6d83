//! Admission of a task sheet by analysis, before anything runs: that each high task keeps to what it declares, that its
//! jobs end in time, and that the heap has room for what they make while the collector works.
#![tactic(auto)]

mod admission;
mod checked;
mod declared;
mod laws;
mod numbers;
mod refused;
mod responses;

pub use admission::{admit, check_heap};
pub use checked::{Admitted, Checked};
pub use laws::{no_refusal, one_refusal};
pub use refused::Refused;

#[cfg(test)]
mod tests;

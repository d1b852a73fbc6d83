//! Task sheets that are made from numbers: the same sheet for the same number, and each of them is admitted.
#![tactic(auto)]

mod laws;
mod making;
mod scripts;
mod tasks;

pub use laws::{made_sheets_are_admitted, scripts_as_texts};
pub use making::sheet;

#[cfg(test)]
mod tests;

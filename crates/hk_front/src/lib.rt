//! What the programs over a sheet share: the lines of refusals, what a read input is, and how a part of a program ends.
#![tactic(auto)]

mod ends;
mod refusals;
#[cfg(test)]
mod tests;

pub use ends::{ended, refuse_sheet};
pub use refusals::{digits, put_line, put_sheet_error};

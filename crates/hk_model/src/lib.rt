//! The heap that never collects: a definition of what each call on a heap answers and changes, a heap that does just
//! that, and the histories that such a heap explains.
#![tactic(auto)]

mod laws;
mod object;
mod plain;
mod registers;
#[cfg(test)]
mod tests;

pub use hk_words::Memory;
pub use laws::{
    live_words, numbers_and_bearers, one_change_a_call, one_more_entry, what_calls_keep, what_lasts,
};
pub use plain::Plain;

//! Task sheets: what a control application declares of its heap and its tasks, as a TOML document.
#![tactic(auto)]

mod arrivals;
mod error;
mod keys;
mod laws;
mod paths;
mod printing;
mod raw;
mod reader;
mod sheet;
mod tasks;
mod values;

pub use arrivals::{Arrivals, Ticks};
pub use error::{Key, SheetError};
pub use hk_words::Memory;
pub use laws::text_read_again;
pub use printing::text;
pub use reader::read;
pub use sheet::{
    HeapKeys, High, Highs, Low, Lows, MAX_ARRIVALS, MAX_BOARD, MAX_COUNTED, MAX_KEY, MAX_NAME,
    MAX_RATE, MAX_SIZE, MAX_TICKS, Name, Sheet,
};

#[cfg(test)]
mod tests;

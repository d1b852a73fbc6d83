//! Why bytes are no task sheet.

ghost use Rattle.std.specs.Prelude.{◌≡◌};
ghost use Rattle.hk_sheet.specs.declared.error.SheetError.TheVariants.{Memory};

use crate::Name;
use hk_script::ScriptError;
use hk_words::GeoError;
use std::alloc::{AllocError, AllocFailed};
use std::marker::Model;

/// The path of a key, as an error shows it: `ticks`, `heap.live`, `high[0].cost`. A contract sees the list of the
/// bytes.
#[derive(Debug, Drop)]
pub struct Key {
    pub items: Vec<u8>,
}

impl Model for Key {
    ghost use Rattle.std.specs.Prelude.{List, ℕ};

    ghost Value = { List ℕ };

    ghost view = { λ k. k.items.items };
}

/// Why bytes are no task sheet: the first reason. The tables are looked at one after another, the document's own first,
/// then the heap's, the high tasks' and the low tasks'; in a table first unknown keys, and then key by key. After all
/// tables come the names, then the arrivals, then the scripts of all tasks, and at last the geometry.
#[derive(Debug, Drop)]
pub enum SheetError {
    /// The bytes are no TOML document.
    Text,
    /// A key that is needed isn't there.
    Missing(Key),
    /// A table has a key that is none of its own: the least one, by its bytes. Each character of the path outside `!` to
    /// `~` is shown as `?`, and the path is cut to 80 bytes.
    Unknown(Key),
    /// The value of a key isn't of its kind.
    Kind(Key),
    /// The value of a key is out of its range.
    Range(Key),
    /// The name of this task, counted from 0 over all tasks, the high ones first, is no name or that of an earlier task. A number
    /// past 2^32 - 1 is shown as that one.
    Name(u32),
    /// The arrivals of a task come too close: at this place of its list, counted from 0, after the one before. For a
    /// periodic task it is place 1.
    Arrivals {
        task: Name,
        place: u32,
        earlier: u64,
        later: u64,
    },
    /// The script of a task is none.
    Script(Name, ScriptError),
    /// The sizes of the heap, with these tasks, are no geometry.
    Geometry(GeoError),
    /// There was no memory.
    Memory,
}

impl From<AllocError> for SheetError {
    ghost from_gives = { λ _ e. e ≡ Memory };

    fn from(_error: AllocError) -> SheetError {
        SheetError::Memory
    }
}

impl<T: Drop> From<AllocFailed<T>> for SheetError {
    ghost from_gives = { λ _ e. e ≡ Memory };

    fn from(_error: AllocFailed<T>) -> SheetError {
        SheetError::Memory
    }
}

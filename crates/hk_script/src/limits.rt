//! What a script may name.

/// How many fields an object may have, and how many registers a task has. A script names fields and registers below
/// these numbers.
#[derive(Clone, Copy, Debug, PartialEq, Eq)]
pub(crate) struct Limits {
    pub(crate) fields: u8,
    pub(crate) registers: u8,
}

//! What a worker notes of its task.

/// A value that was put out, or a job that met a fault, with its number, counted from 0, and that of its statement, counted
/// from 1.
#[derive(Clone, Copy, Debug, PartialEq, Eq)]
pub enum Note {
    /// The value was put out.
    Out(u64),
    /// The register that the call went through was null.
    Nil { job: u64, statement: u32 },
    /// The object had no such field.
    Field { job: u64, statement: u32 },
}

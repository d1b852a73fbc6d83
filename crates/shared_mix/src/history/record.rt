//! What is written down of each call.
use super::calls::Answer;
use hk_words::Call;

/// A read or a write of a field of an object. Objects have names, which the objects' first number fields hold.
#[derive(Clone, Copy, Debug, PartialEq, Eq)]
pub struct Access {
    pub object: u64,
    /// The field: a reference field as it is counted, a number field with 256 added.
    pub field: u64,
    /// The number, or the name of the object that is referred to, 0 where it is null.
    pub value: u64,
    pub writes: bool,
}

/// A call with what it was answered. The times are draws of one counter, taken before and after the call.
#[derive(Clone, Copy, Debug, PartialEq, Eq)]
pub struct Record {
    pub seat: u8,
    pub call: Call,
    pub answer: Answer,
    pub before: u64,
    pub after: u64,
    /// What it read or wrote, where that is a field.
    pub access: Option<Access>,
}

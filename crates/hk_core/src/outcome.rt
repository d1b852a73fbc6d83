use hk_words::Reply;

/// What one step of a call did.
#[derive(Clone, Copy, Debug, PartialEq, Eq)]
pub enum Step {
    /// The call has places left.
    Going,
    /// The call is done.
    Ended(Outcome),
}

/// How a call ended.
#[derive(Clone, Copy, Debug, PartialEq, Eq)]
pub enum Outcome {
    /// The call was done, with this reply.
    Done(Reply),
    /// The words used in this cycle, as the call found them, left too few for the object.
    Full { words: u64 },
}

/// Why a call was not begun. Nothing was changed.
#[derive(Clone, Copy, Debug, PartialEq, Eq)]
pub enum Fault {
    /// The seat has begun as many calls as it can.
    Spent,
    /// The register that the call goes through is null.
    Nil,
    /// The object has no such field.
    Field,
}

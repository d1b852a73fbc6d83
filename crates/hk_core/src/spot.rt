/// What of an object, of a register or of a number the collector does next.
#[derive(Clone, Copy, Debug, PartialEq, Eq)]
pub enum Stage {
    /// Load the register, the cell or the mark.
    Read,
    /// Claim the object that the loaded reference names.
    Claim,
    /// Reserve a place for the object that was claimed.
    Reserve,
    /// Write the link word of the place that was reserved.
    Tie,
    /// Write the cell at its new place, or the number on the list of the next cycle.
    Write,
    /// Mark the number for the next cycle.
    Mark,
    /// Empty the header of the number.
    Empty,
}

/// Where the collector is in its cycle: what its next event is about.
#[derive(Clone, Copy, Debug, PartialEq, Eq)]
pub enum Line {
    /// Before the flip.
    Rest,
    /// At the frame of a seat, before an attempt to blacken it.
    Frame(u8),
    /// In an attempt to blacken a frame, at one of its registers.
    Register { seat: u8, reg: u8, stage: Stage },
    /// At the end of an attempt to blacken a frame, before the exchange of its word.
    FrameTrade(u8),
    /// Before the load of the words that are reserved.
    Scan,
    /// Before the load of the link word at the scan offset.
    Link,
    /// At the object that the link word names, before an attempt to move it.
    Look,
    /// In an attempt to move an object, at one of its cells.
    Cell { index: u8, stage: Stage },
    /// At the end of an attempt to move an object, before the exchange of its header.
    ObjectTrade,
    /// In the pass over the marks, at a number.
    Pass(u32),
    /// In the pass over the marks, at the header of a number.
    PassHead(u32),
    /// In the sweep, at a number.
    Sweep { number: u32, stage: Stage },
    /// In the clearing of the old space, at a word.
    Clear(u32),
    /// Before the words that are reserved are set to 0.
    Reset,
}

/// The collector: where it is, and the values that it has read.
#[derive(Clone, Copy, Debug, PartialEq, Eq)]
pub struct Spot {
    pub line: Line,
    /// The cycle.
    pub cycle: u64,
    /// The scan offset: the words of the current space, from its first one, that hold objects which were moved.
    pub scan: u32,
    /// The entries that were written on the list of the next cycle.
    pub entries: u32,
    /// The frame word or the header that the open attempt loaded.
    pub first: u64,
    /// The reference of the object that is moved.
    pub item: u64,
    /// The register or cell that was loaded last.
    pub cell: u64,
    /// The offset that was reserved last.
    pub offset: u64,
    /// The events of the open attempt so far.
    pub spent: u32,
}

/// What an event of the collector did.
#[derive(Clone, Copy, Debug, PartialEq, Eq)]
pub enum Work {
    /// The event was done, and none of the following.
    Useful,
    /// The spaces were flipped.
    Flipped,
    /// The exchange found another word than the attempt's first load, so the attempt of so many events is lost.
    Lost(u32),
    /// A call is inside the frame of this seat.
    BusyFrame(u8),
    /// A call is inside the object of this number.
    BusyObject(u32),
    /// The place was reserved, and its link word isn't written yet.
    Unlinked(u32),
    /// The object of this number was claimed, and isn't moved yet.
    Grey(u32),
    /// More words are reserved than a space has for evacuation: so many.
    LiveOver(u64),
    /// A flip is due, and there are no more cycles. Nothing was done.
    Worn,
}

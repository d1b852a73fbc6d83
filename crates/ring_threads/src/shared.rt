//! What the threads tell one another beside the heap.
use hk_keeper::Work;
use hk_table::HeapError;
use std::sync::atomic::{AtomicBool, AtomicU64, Ordering};
use std::thread;

/// The turns that a thread waits at most.
pub const TURNS: u32 = 100_000_000;

/// What the threads tell one another. A loop that waits looks here and not at the board, so that it is never in the collector's
/// way.
#[derive(Drop)]
pub struct Shared {
    /// The messages that were sent.
    pub sent: AtomicU64,
    /// The messages that were received.
    pub received: AtomicU64,
    /// The fast loop found no room, and the collector hasn't flipped since.
    pub wants_room: AtomicBool,
    /// The loops that have ended.
    pub ended: AtomicU64,
}

impl Shared {
    pub fn new() -> Shared {
        Shared {
            sent: AtomicU64::new(0),
            received: AtomicU64::new(0),
            wants_room: AtomicBool::new(false),
            ended: AtomicU64::new(0),
        }
    }
}

/// Why a thread stopped before its end.
#[derive(Clone, Copy, Debug, PartialEq, Eq)]
pub enum Stopped {
    /// A call was refused.
    Refused(HeapError),
    /// The collector can't go on.
    Collector(Work),
    /// It has waited for as many turns as it may.
    Waited,
}

impl From<HeapError> for Stopped {
    fn from(error: HeapError) -> Stopped {
        Stopped::Refused(error)
    }
}

/// Waits until a count is at least so much, for so many turns at most.
pub fn wait_for(count: &AtomicU64, least: u64) -> Result<(), Stopped> {
    for _turn in 0..TURNS {
        if count.load(Ordering::SeqCst) >= least {
            return Ok(());
        }
        thread::yield_now();
    }
    Err(Stopped::Waited)
}

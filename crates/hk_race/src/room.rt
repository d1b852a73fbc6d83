//! How the workers and the collector wait for one another, each for a bounded number of turns. No contract says what is seen or
//! how long anybody waits.

use hk_table::Heap;
use hk_words::{Call, w0_words};
use std::sync::atomic::{AtomicBool, AtomicU64, Ordering};
use std::thread;

/// The most turns that the collector rests after a flip.
const MOST_RESTS: u32 = 1 << 17;

/// The most turns that a worker waits before one allocation.
const MOST_WAITS: u32 = 1 << 22;

/// Who is at work on a heap.
#[derive(Drop)]
pub(crate) struct AtWork {
    /// The workers that haven't ended.
    pub workers: AtomicU64,
    /// Those of them that wait for room.
    pub waiting: AtomicU64,
    /// The collector hasn't ended.
    pub collecting: AtomicBool,
}

impl AtWork {
    /// So many workers, and the collector.
    pub fn new(workers: u64) -> AtWork {
        AtWork {
            workers: AtomicU64::new(workers),
            waiting: AtomicU64::new(0),
            collecting: AtomicBool::new(true),
        }
    }

    /// No worker is left.
    pub fn is_done(&self) -> bool {
        self.workers.load(Ordering::SeqCst) == 0
    }

    /// A worker has ended.
    pub fn worker_ended(&self) {
        self.workers.fetch_sub(1, Ordering::SeqCst);
    }

    /// All workers have ended.
    pub fn workers_ended(&self) {
        self.workers.store(0, Ordering::SeqCst);
    }

    /// The collector has ended.
    pub fn collector_ended(&self) {
        self.collecting.store(false, Ordering::SeqCst);
    }
}

/// The words used since the last flip, as anybody may look at them without a step.
#[tactic(auto, using(crate::proofs::Rows::first_word))]
fn words_used(heap: &Heap) -> u32 {
    w0_words(heap.table.shared.peek(0))
}

/// A cycle is worth its while, or nobody is there to wait for: more than an eighth of the words for allocation are used, some
/// are and a worker waits for room, or no worker is left. (Where none are used each has room, and waits for its processor alone.)
fn is_wanted(heap: &Heap, at_work: &AtWork) -> bool {
    let used = words_used(heap);
    used > heap.geometry().alloc() / 8
        || (used > 0 && at_work.waiting.load(Ordering::SeqCst) > 0)
        || at_work.is_done()
}

/// Rests the collector after a flip until the next cycle is wanted, but not for ever.
pub(crate) fn rest(heap: &Heap, at_work: &AtWork) {
    for _ in 0..MOST_RESTS {
        if is_wanted(heap, at_work) {
            return;
        }
        thread::yield_now();
    }
}

/// The words that a task may use between two flips.
fn limit(heap: &Heap, high: bool) -> u32 {
    let geometry = heap.geometry();
    if high {
        geometry.alloc()
    } else {
        geometry.alloc().saturating_sub(geometry.reserve())
    }
}

/// There is room for so many words where at most half of a limit is used, and they stay within it.
fn has_room(heap: &Heap, limit: u32, words: u32) -> bool {
    let used = words_used(heap);
    used <= limit / 2 && used.saturating_add(words) <= limit
}

/// Waits for room for so many words while the collector is at work, but not for ever. Answers whether it can go on so: false
/// where it waited in vain.
fn wait(heap: &Heap, at_work: &AtWork, limit: u32, words: u32) -> bool {
    for _ in 0..MOST_WAITS {
        if has_room(heap, limit, words) || !at_work.collecting.load(Ordering::SeqCst) {
            return true;
        }
        thread::yield_now();
    }
    false
}

/// Before a New that would leave little room a worker waits for the collector. Where it once waited in vain it waits no more,
/// nor where no flip can help. Answers whether it waits again.
pub(crate) fn wait_for_room(
    heap: &Heap,
    at_work: &AtWork,
    high: bool,
    patient: bool,
    call: Call,
) -> bool {
    let Call::New { shape, .. } = call else {
        return patient;
    };
    let limit = limit(heap, high);
    let words = shape.words();
    if !patient || words > limit || has_room(heap, limit, words) {
        return patient;
    }
    at_work.waiting.fetch_add(1, Ordering::SeqCst);
    let patient = wait(heap, at_work, limit, words);
    at_work.waiting.fetch_sub(1, Ordering::SeqCst);
    patient
}

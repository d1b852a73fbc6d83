//! A gate at which a pass waits before each step of its call.
use std::sync::atomic::{AtomicU64, Ordering};
use std::thread;

/// So many turns are waited for a number at most. Whoever waited in vain says so, and the test fails.
const TURNS: u32 = 100_000_000;

/// How many steps the pass may do, and how many it has done.
#[derive(Drop)]
pub struct Gate {
    allowed: AtomicU64,
    done: AtomicU64,
}

/// Waits until a word has come to a number; false where it doesn't come there.
pub fn comes_to(word: &AtomicU64, number: u64) -> bool {
    for _ in 0..TURNS {
        if word.load(Ordering::SeqCst) >= number {
            return true;
        }
        thread::yield_now();
    }
    false
}

impl Gate {
    /// A gate that lets nothing through yet.
    pub fn new() -> Gate {
        Gate {
            allowed: AtomicU64::new(0),
            done: AtomicU64::new(0),
        }
    }

    /// The pass waits until it may do the step of this number.
    pub fn opens(&self, step: u64) -> bool {
        comes_to(&self.allowed, step)
    }

    /// The pass has done the step of this number.
    pub fn did(&self, step: u64) {
        self.done.store(step, Ordering::SeqCst);
    }

    /// Lets the pass go on until it has done so many steps in all, and waits for that. There it is held.
    pub fn let_go(&self, steps: u64) -> bool {
        self.allowed.store(steps, Ordering::SeqCst);
        comes_to(&self.done, steps)
    }
}

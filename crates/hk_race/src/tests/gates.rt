//! Races whose threads can't get on alone.
use super::{TEXT_OF_TWO, TWO, expect_at};
use crate::Gate;
use hk_io::Status;
use std::sync::Wait;
use std::sync::atomic::{AtomicU64, Ordering};
use std::test::Fail;
use std::thread;

/// The most turns that a gate waits.
const MOST_TURNS: u32 = 100_000_000;

/// Waits until two counts aren't 0, but not for ever. Answers whether that was in time.
fn wait_for(first: &AtomicU64, second: &AtomicU64) -> bool {
    for _ in 0..MOST_TURNS {
        if first.load(Ordering::SeqCst) > 0 && second.load(Ordering::SeqCst) > 0 {
            return true;
        }
        thread::yield_now();
    }
    false
}

/// The first call of the high task waits for that of the low one and for the collector's first turn, and the second call of the
/// low task for the first of the high one. So these are done beside each other, or somebody waits too long.
#[derive(Drop)]
struct Meeting {
    high: AtomicU64,
    low: AtomicU64,
    collector: AtomicU64,
    late: AtomicU64,
}

impl Gate for Meeting {
    fn before<R: Wait>(&self, _rt: &R, seat: u8, call: u64) {
        let in_time = match (seat, call) {
            (0, 0) => wait_for(&self.low, &self.collector),
            (1, 1) => wait_for(&self.high, &self.high),
            _ => true,
        };
        if !in_time {
            self.late.store(1, Ordering::SeqCst);
        }
    }

    fn after<R: Wait>(&self, _rt: &R, seat: u8, _call: u64) {
        match seat {
            0 => self.high.store(1, Ordering::SeqCst),
            1 => self.low.store(1, Ordering::SeqCst),
            _ => self.collector.store(1, Ordering::SeqCst),
        }
    }
}

#[test]
fn workers_and_the_collector_meet(rt: HostRuntime) -> Result<(), Fail> {
    let gate = Meeting {
        high: AtomicU64::new(0),
        low: AtomicU64::new(0),
        collector: AtomicU64::new(0),
        late: AtomicU64::new(0),
    };
    expect_at(&rt, rt.alloc(), TWO, &gate, Status::Done, TEXT_OF_TWO)?;
    assert_eq!(&rt; gate.late.load(Ordering::SeqCst), 0);
    Ok(())
}

/// No worker's first call is done before the collector's second turn. The first one ends at the first flip, behind which the
/// collector rests.
#[derive(Drop)]
struct Holding {
    collector: AtomicU64,
    late: AtomicU64,
}

impl Gate for Holding {
    fn before<R: Wait>(&self, _rt: &R, seat: u8, call: u64) {
        if seat < 2 && call == 0 && !wait_for(&self.collector, &self.collector) {
            self.late.store(1, Ordering::SeqCst);
        }
    }

    fn after<R: Wait>(&self, _rt: &R, seat: u8, call: u64) {
        if seat == 2 && call == 1 {
            self.collector.store(1, Ordering::SeqCst);
        }
    }
}

#[test]
fn the_collector_rests_for_a_while_only(rt: HostRuntime) -> Result<(), Fail> {
    let gate = Holding {
        collector: AtomicU64::new(0),
        late: AtomicU64::new(0),
    };
    expect_at(&rt, rt.alloc(), TWO, &gate, Status::Done, TEXT_OF_TWO)?;
    assert_eq!(&rt; gate.late.load(Ordering::SeqCst), 0);
    Ok(())
}

/// Two words are declared, the board's. An object is made before the collector's first turn, and stays in its register.
const TOO_MUCH_LIVE: &str = r#"version = 1
ticks = 1
heap = { live = 2, alloc = 16, reserve = 0, rate = 1, board = [1, 0] }

[[low]]
name = "a"
first = 0
every = 1
script = "new r1 1 0"
"#;

/// The collector's first turn waits for the first call of the only task.
#[derive(Drop)]
struct After {
    made: AtomicU64,
}

impl Gate for After {
    fn before<R: Wait>(&self, _rt: &R, seat: u8, call: u64) {
        if seat == 1 && call == 0 {
            wait_for(&self.made, &self.made);
        }
    }

    fn after<R: Wait>(&self, _rt: &R, seat: u8, _call: u64) {
        if seat == 0 {
            self.made.store(1, Ordering::SeqCst);
        }
    }
}

/// The board and the object take two words each.
#[test]
fn too_many_live_words_end_the_collector(rt: HostRuntime) -> Result<(), Fail> {
    let gate = After {
        made: AtomicU64::new(0),
    };
    let text = "done a jobs 1\nlive 4 above 2\nend\n";
    expect_at(&rt, rt.alloc(), TOO_MUCH_LIVE, &gate, Status::Live, text)?;
    Ok(())
}

//! What is counted of a session in tests, and looked at against its bounds at every tick.
use crate::{Chore, Pick, SessionBy};
use hk_script::largest;
use hk_sheet::Sheet;
use std::process::Abort;

/// What is counted of a session while it runs, beside what it counts itself.
#[derive(Clone, Copy)]
pub(crate) struct Counts {
    /// The useful events of the cycle, and the events of the lost attempts so far.
    pub useful: u64,
    pub lost: u64,
    /// The words used, and all words taken so far.
    pub used: u32,
    pub taken: u64,
}

/// The size of the largest object that a low task makes.
fn largest_low(sheet: &Sheet) -> u32 {
    sheet
        .low
        .items
        .iter()
        .map(|task| largest(&task.script))
        .fold(0, |most, size| most.max(size))
}

/// The most words that may be used: they leave room for the largest object of a low task.
pub(crate) fn most_used(sheet: &Sheet) -> u32 {
    sheet.heap.alloc.saturating_sub(largest_low(sheet))
}

impl Counts {
    /// Before the first tick.
    pub fn new() -> Counts {
        Counts {
            useful: 0,
            lost: 0,
            used: 0,
            taken: 0,
        }
    }

    /// Counts an event of the collector.
    pub fn event(&mut self, chore: Chore) {
        self.useful = self.useful.saturating_add(1);
        match chore {
            Chore::Step => {}
            Chore::Flip => self.useful = 1,
            Chore::Lost(events) => {
                self.useful = self.useful.saturating_sub(u64::from(events));
                self.lost = self.lost.saturating_add(u64::from(events));
            }
        }
    }

    /// Looks at the numbers of a session after a tick: the account of the debt, and each number against its bound. So many
    /// words may be used.
    pub fn look<P: Pick>(&mut self, rt: &impl Abort, by: &SessionBy<P>, room: u32, tick: u64) {
        let heap = by.checked().sheet.heap;
        let used = by.used();
        let taken = u64::from(used.saturating_sub(self.used));
        self.taken = self.taken.saturating_add(taken);
        self.used = used;
        let (debt, most) = (by.debt(), by.checked().debt);
        let paid = by.events().saturating_add(debt);
        let owed = heap
            .rate
            .saturating_mul(self.taken)
            .saturating_add(self.lost);
        assert_eq!(rt; paid, owed, "tick {tick}: events and debt");
        assert!(rt; debt <= most, "tick {tick}: debt {debt} above {most}");
        let useful = self.useful;
        assert!(rt; useful <= by.checked().work, "tick {tick}: useful {useful}");
        assert!(rt;
            heap.rate.saturating_mul(u64::from(used)) <= useful.saturating_add(debt),
            "tick {tick}: used {used} useful {useful} debt {debt}"
        );
        assert!(rt; used <= room, "tick {tick}: used {used} above {room}");
    }
}

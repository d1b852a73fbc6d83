use hk_core::Work;

/// What was done: the calls of each kind, how many were refused or found no room, the collector's events, and a digest of
/// the numbers that were read.
#[derive(Clone, Copy, Debug, PartialEq, Eq, Default)]
pub struct Tally {
    pub gets: u64,
    pub puts: u64,
    pub loads: u64,
    pub stores: u64,
    pub moves: u64,
    pub clears: u64,
    pub news: u64,
    pub refused: u64,
    pub full: u64,
    pub events: u64,
    pub flips: u64,
    pub lost: u64,
    pub waits: u64,
    pub digest: u64,
}

impl Tally {
    /// Takes a number that was read into the digest.
    pub fn read(&mut self, number: u64) {
        self.digest = (self.digest ^ number).wrapping_mul(1_099_511_628_211);
    }

    /// Counts an event of the collector.
    pub fn collected(&mut self, work: Work) {
        self.events = self.events.wrapping_add(1);
        match work {
            Work::Useful => {}
            Work::Flipped => self.flips = self.flips.wrapping_add(1),
            Work::Lost(_) => self.lost = self.lost.wrapping_add(1),
            _ => self.waits = self.waits.wrapping_add(1),
        }
    }
}

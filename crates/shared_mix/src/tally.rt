use hk_core::Work;

/// What a pass did: its calls of each kind, how many were refused or found no room, and a digest of the numbers that it read.
#[derive(Clone, Copy, Debug, PartialEq, Eq, Default)]
pub struct Tally {
    pub gets: u64,
    pub puts: u64,
    pub loads: u64,
    pub stores: u64,
    pub moves: u64,
    pub clears: u64,
    pub news: u64,
    pub refused: u64,
    pub full: u64,
    pub digest: u64,
}

impl Tally {
    /// Takes a number that was read into the digest.
    pub fn read(&mut self, number: u64) {
        self.digest = (self.digest ^ number).wrapping_mul(1_099_511_628_211);
    }

    /// Takes in what another pass did.
    pub fn add(&mut self, other: &Tally) {
        self.gets = self.gets.wrapping_add(other.gets);
        self.puts = self.puts.wrapping_add(other.puts);
        self.loads = self.loads.wrapping_add(other.loads);
        self.stores = self.stores.wrapping_add(other.stores);
        self.moves = self.moves.wrapping_add(other.moves);
        self.clears = self.clears.wrapping_add(other.clears);
        self.news = self.news.wrapping_add(other.news);
        self.refused = self.refused.wrapping_add(other.refused);
        self.full = self.full.wrapping_add(other.full);
        self.digest = self.digest.wrapping_add(other.digest);
    }
}

/// What the collector did: its events, the flips and the lost attempts among them, and those that found something in the way.
#[derive(Clone, Copy, Debug, PartialEq, Eq, Default)]
pub struct Events {
    pub all: u64,
    pub flips: u64,
    pub lost: u64,
    pub waits: u64,
}

impl Events {
    /// Counts one event.
    pub fn count(&mut self, work: Work) {
        self.all = self.all.wrapping_add(1);
        match work {
            Work::Useful => {}
            Work::Flipped => self.flips = self.flips.wrapping_add(1),
            Work::Lost(_) => self.lost = self.lost.wrapping_add(1),
            _ => self.waits = self.waits.wrapping_add(1),
        }
    }
}

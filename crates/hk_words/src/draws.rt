//! Numbers that are drawn one after another.
ghost use Rattle.std.specs.Prelude.{◌≡◌, ◌<◌};
ghost use Rattle.hk_words.specs.Draws.{next, drawn, draw};

/// A state from which numbers are drawn: a linear congruential generator modulo 2^64 (D. E. Knuth, MMIX).
#[derive(Clone, Copy, Debug)]
pub struct Draws {
    pub state: u64,
}

impl Draws {
    /// The next number below a limit.
    #[tactic(auto, unfolding(crate::specs::Draws::next))]
    pub fn below(&mut self, limit: u64) -> u64
        requires { 0 < limit }
        ensures state { self.new.state ≡ next self.old.state }
        ensures value { result ≡ draw limit self.old.state }
        ensures given { result ≡ drawn limit self.new.state }
        ensures below { result < limit }
    {
        self.state = self
            .state
            .wrapping_mul(6_364_136_223_846_793_005)
            .wrapping_add(1_442_695_040_888_963_407);
        (self.state >> 33) % limit
    }
}

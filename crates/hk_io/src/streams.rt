//! What gives bytes and what takes them.
ghost use Rattle.std.specs.Prelude.{ℕ, ◌-◌, ◌^◌, ◌<◌, ◌≤◌, List, Option, length, IfOk};
ghost use Rattle.std.specs.Io.KnownBytes.{ReadConsumes, WriteAppends};
ghost use Rattle.hk_io.specs.Faults.{HasCause};

use crate::Failed;

/// Where bytes come from.
pub trait Source {
    /// The bytes still to come, where the source tells them.
    ghost left: { Self → Option (List ℕ) };

    /// How often the source has failed: a count that never falls, and stands at its last value once it is there.
    ghost faults: { Self → ℕ };

    /// Reads the next bytes into the front of `buf`, and answers how many. `Ok(0)` is the end of input. After a
    /// failure no byte is lost. A failure is never answered `Ok`: the count of faults is then as it was.
    fn read(&mut self, buf: &mut [u8]) -> Result<usize, Failed>
        requires { 0 < length buf.old }
        ensures within { IfOk result (λ count. count ≤ length buf.new) }
        ensures bytes { ReadConsumes (left self.old) (left self.new) result buf.new }
        ensures cause { HasCause (faults self.old) (faults self.new) result };

    /// The count of faults has 64 bits.
    ghost faults_fit: { (source : Self) → faults source ≤ 2 ^ 64 - 1 };
}

/// Where bytes go.
pub trait Sink {
    /// The bytes taken so far, where the sink tells them.
    ghost taken: { Self → Option (List ℕ) };

    /// How often the sink has failed: a count that never falls, and stands at its last value once it is there.
    ghost faults: { Self → ℕ };

    /// Takes bytes from the front of `piece`, at least one, and answers how many. After a failure nothing was
    /// taken by this call. A failure is never answered `Ok`: the count of faults is then as it was.
    fn write(&mut self, piece: &[u8]) -> Result<usize, Failed>
        requires { 0 < length piece.now }
        ensures some { IfOk result (λ count. 0 < count) }
        ensures within { IfOk result (λ count. count ≤ length piece.now) }
        ensures bytes { WriteAppends (taken self.old) (taken self.new) result piece.now }
        ensures cause { HasCause (faults self.old) (faults self.new) result };

    /// The count of faults has 64 bits.
    ghost faults_fit: { (sink : Self) → faults sink ≤ 2 ^ 64 - 1 };
}

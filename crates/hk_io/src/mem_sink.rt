//! A sink in memory.
ghost use Rattle.std.specs.Prelude.{◌≡◌, ◌-◌, ◌^◌, ◌<◌, ◌≤◌, ◌⊎◌, ◌↔◌, [], length, min, Some, IfOk, IsErr, Contains, is_ok, if◌then◌else◌};
ghost use Rattle.std.specs.Io.KnownBytes.{WriteAppends};
ghost use Rattle.hk_io.specs.Faults.{risen, HasCause};

use crate::{Failed, Sink};
use std::alloc::{AllocError, Global};
use std::marker::Model;

/// A sink into a `Vec`, with room for so many bytes. Calls are numbered from 0. The number and the count of faults
/// stand at 2^64 - 1 once they are there.
#[derive(Drop)]
pub struct MemSink {
    bytes: Vec<u8>,
    room: usize,
    fails: Vec<u64>,
    calls: u64,
    faults: u64,
}

impl Model for MemSink {
    ghost use Rattle.std.specs.Prelude.{◌≤◌, vec_len, vec_capacity};
    ghost use Rattle.hk_io.specs.InMemory.{Intake};

    ghost Value = { Intake };

    ghost view = { λ sink. record { taken = sink.bytes.items; room = sink.room; fails = sink.fails.items; calls = sink.calls; faults = sink.faults } };

    ghost invariant = { λ sink. (vec_len sink.bytes ≤ sink.room) × (sink.room ≤ vec_capacity sink.bytes) };
}

impl MemSink {
    /// A sink with room for so many bytes, of which the calls with these numbers fail. It takes memory for all its
    /// room at once.
    pub fn new(alloc: Global, room: usize, fails: Vec<u64>) -> Result<MemSink, AllocError>
        ensures taken { IfOk result (λ sink. sink.taken ≡ []) }
        ensures room { IfOk result (λ sink. sink.room ≡ room) }
        ensures fails { IfOk result (λ sink. sink.fails ≡ fails.items) }
        ensures calls { IfOk result (λ sink. sink.calls ≡ 0) }
        ensures faults { IfOk result (λ sink. sink.faults ≡ 0) }
    {
        let bytes = Vec::with_capacity(alloc, room)?;
        Ok(MemSink {
            bytes,
            room,
            fails,
            calls: 0,
            faults: 0,
        })
    }

    /// The bytes taken so far.
    pub fn bytes(&self) -> &[u8]
        ensures { result.now ≡ self.now.taken }
    {
        self.bytes.as_slice()
    }

    /// How many calls were made.
    pub fn calls(&self) -> u64
        ensures { result ≡ self.now.calls }
    {
        self.calls
    }

    /// How many calls failed.
    pub fn faults(&self) -> u64
        ensures { result ≡ self.now.faults }
    {
        self.faults
    }
}

impl Sink for MemSink {
    ghost taken = { λ sink. Some sink.taken };

    // The count has 64 bits, so it is the lesser of the two.
    ghost faults = { λ sink. min sink.faults (2 ^ 64 - 1) };

    ghost use Rattle.std.proofs.Math.Nat.{min-le_right};

    ghost faults_fit = { λ sink. min-le_right sink.faults (2 ^ 64 - 1) };

    fn write(&mut self, piece: &[u8]) -> Result<usize, Failed>
        requires { 0 < length piece.now }

        ensures some { IfOk result (λ count. 0 < count) }
        ensures within { IfOk result (λ count. count ≤ length piece.now) }
        ensures bytes { WriteAppends (Some self.old.taken) (Some self.new.taken) result piece.now }
        ensures cause { HasCause (min self.old.faults (2 ^ 64 - 1)) (min self.new.faults (2 ^ 64 - 1)) result }

        // It fails at the calls of its list and where no room is left alone, and else takes what fits.
        ensures fails { IsErr result ↔ (Contains self.old.fails self.old.calls ⊎ self.old.room ≤ length self.old.taken) }
        ensures takes { IfOk result (λ count. count ≡ min (length piece.now) (self.old.room - length self.old.taken)) }
        ensures calls { self.new.calls ≡ risen self.old.calls }
        ensures faults { self.new.faults ≡ (if is_ok result then self.old.faults else risen self.old.faults) }
        ensures list { self.new.fails ≡ self.old.fails }
        ensures room { self.new.room ≡ self.old.room }
    {
        let fails = self.fails.contains(&self.calls);
        self.calls = self.calls.saturating_add(1);
        let left = self.room - self.bytes.len();
        if fails || left == 0 {
            self.faults = self.faults.saturating_add(1);
            return Err(Failed);
        }
        let count = piece.len().min(left);
        self.bytes.extend_from_slice(&piece[..count]).unwrap();
        Ok(count)
    }
}

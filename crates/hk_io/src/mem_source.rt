//! A source in memory.
ghost use Rattle.std.specs.Prelude.{◌≡◌, ◌-◌, ◌^◌, ◌≤◌, ◌↔◌, length, min, Some, IfOk, IsErr, Contains, is_ok, if◌then◌else◌};
ghost use Rattle.std.specs.Io.KnownBytes.{ReadConsumes};
ghost use Rattle.hk_io.specs.Faults.{risen, HasCause};

use crate::{Failed, Source};
use std::marker::Model;

/// A source of the bytes of a `Vec`. Calls are numbered from 0. The number and the count of faults stand at
/// 2^64 - 1 once they are there.
#[derive(Drop)]
pub struct MemSource {
    bytes: Vec<u8>,
    at: usize,
    fails: Vec<u64>,
    calls: u64,
    faults: u64,
}

impl Model for MemSource {
    ghost use Rattle.std.specs.Prelude.{◌≤◌, drop, vec_len};
    ghost use Rattle.hk_io.specs.InMemory.{Supply};

    ghost Value = { Supply };

    ghost view = { λ source. record { left = drop source.at source.bytes.items; fails = source.fails.items; calls = source.calls; faults = source.faults } };

    ghost invariant = { λ source. source.at ≤ vec_len source.bytes };
}

impl MemSource {
    /// A source of these bytes, of which the calls with these numbers fail.
    pub fn new(bytes: Vec<u8>, fails: Vec<u64>) -> MemSource
        ensures left { result.left ≡ bytes.items }
        ensures fails { result.fails ≡ fails.items }
        ensures calls { result.calls ≡ 0 }
        ensures faults { result.faults ≡ 0 }
    {
        MemSource {
            bytes,
            at: 0,
            fails,
            calls: 0,
            faults: 0,
        }
    }

    /// How many calls were made.
    pub fn calls(&self) -> u64
        ensures { result ≡ self.now.calls }
    {
        self.calls
    }

    /// How many calls failed.
    pub fn faults(&self) -> u64
        ensures { result ≡ self.now.faults }
    {
        self.faults
    }
}

impl Source for MemSource {
    ghost left = { λ source. Some source.left };

    // The count has 64 bits, so it is the lesser of the two.
    ghost faults = { λ source. min source.faults (2 ^ 64 - 1) };

    ghost use Rattle.std.proofs.Math.Nat.{min-le_right};

    ghost faults_fit = { λ source. min-le_right source.faults (2 ^ 64 - 1) };

    fn read(&mut self, buf: &mut [u8]) -> Result<usize, Failed>
        ensures within { IfOk result (λ count. count ≤ length buf.new) }
        ensures bytes { ReadConsumes (Some self.old.left) (Some self.new.left) result buf.new }
        ensures cause { HasCause (min self.old.faults (2 ^ 64 - 1)) (min self.new.faults (2 ^ 64 - 1)) result }

        // It fails at the calls of its list alone, and else gives as many bytes as are there and fit.
        ensures fails { IsErr result ↔ Contains self.old.fails self.old.calls }
        ensures gives { IfOk result (λ count. count ≡ min (length buf.old) (length self.old.left)) }
        ensures calls { self.new.calls ≡ risen self.old.calls }
        ensures faults { self.new.faults ≡ (if is_ok result then self.old.faults else risen self.old.faults) }
        ensures list { self.new.fails ≡ self.old.fails }
    {
        let fails = self.fails.contains(&self.calls);
        self.calls = self.calls.saturating_add(1);
        if fails {
            self.faults = self.faults.saturating_add(1);
            return Err(Failed);
        }
        let count = buf.len().min(self.bytes.len() - self.at);
        buf[..count].copy_from_slice(&self.bytes[self.at..self.at + count]);
        self.at += count;
        Ok(count)
    }
}

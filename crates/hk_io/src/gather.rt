//! Writes in large pieces.
ghost use Rattle.std.specs.Prelude.{◌≡◌, ◌+◌, ◌≤◌, [], ◌++◌, length, OnOk, OnErr};
ghost use Rattle.std.specs.Fmt.{decimal};
ghost use Rattle.std.specs.Io.KnownBytes.{Appends};
ghost use Rattle.hk_io.specs.Bytes.{AppendsPrefix, AppendsFront};
ghost use Rattle.hk_io.specs.Faults.{HasCause};
ghost use Rattle.hk_io.specs.declared.gather.TheConstants.{GATHER_ROOM};

use crate::buffer::Buffer;
use crate::{Failed, Sink, put_all};
use std::marker::Model;

/// How many bytes wait at most.
pub const GATHER_ROOM: usize = 8192;

/// Bytes that wait for a sink, so that it gets them in pieces of up to [`GATHER_ROOM`] bytes. It takes no memory.
/// What waits at the end is written by [`flush`](Gather::flush). After a failure the bytes that wait may have been
/// taken in part.
#[derive(Drop)]
pub struct Gather {
    waiting: Buffer<GATHER_ROOM>,
}

impl Model for Gather {
    ghost use Rattle.std.specs.Prelude.{ℕ, List};

    ghost Value = { List ℕ };

    ghost view = { λ gather. gather.waiting };
}

impl Gather {
    /// Nothing waits.
    pub fn new() -> Gather
        ensures { result ≡ [] }
    {
        Gather {
            waiting: Buffer::new(),
        }
    }

    /// Adds bytes behind those that wait. Where they don't fit, those that wait are written first.
    #[tactic(auto, using(crate::proofs::BytesLemmas::gathered))]
    pub fn push<K: Sink>(&mut self, sink: &mut K, bytes: &[u8]) -> Result<(), Failed>
        requires { length bytes.now ≤ GATHER_ROOM }
        ensures ok { OnOk result (AppendsFront (K.taken sink.old) (K.taken sink.new) (self.old ++ bytes.now) self.new) }
        ensures prefix { OnErr result (AppendsPrefix (K.taken sink.old) (K.taken sink.new) (self.old ++ bytes.now)) }
        ensures kept { OnErr result (self.new ≡ self.old) }
        ensures cause { HasCause (K.faults sink.old) (K.faults sink.new) result }
        ensures waits { length self.old + length bytes.now ≤ GATHER_ROOM → sink.new ≡ sink.old }
    {
        if bytes.len() > GATHER_ROOM - self.waiting.as_slice().len() {
            self.flush(sink)?;
        }
        self.waiting.push(bytes);
        Ok(())
    }

    /// Makes room for this many bytes more. Where there is less, those that wait are written.
    #[tactic(auto, using(crate::proofs::BytesLemmas::gathered))]
    pub fn make_room<K: Sink>(&mut self, sink: &mut K, bytes: usize) -> Result<(), Failed>
        requires { bytes ≤ GATHER_ROOM }
        ensures room { OnOk result (length self.new + bytes ≤ GATHER_ROOM) }
        ensures ok { OnOk result (AppendsFront (K.taken sink.old) (K.taken sink.new) self.old self.new) }
        ensures prefix { OnErr result (AppendsPrefix (K.taken sink.old) (K.taken sink.new) self.old) }
        ensures kept { OnErr result (self.new ≡ self.old) }
        ensures cause { HasCause (K.faults sink.old) (K.faults sink.new) result }
        ensures waits { length self.old + bytes ≤ GATHER_ROOM → (self.new ≡ self.old) × (sink.new ≡ sink.old) }
    {
        if bytes > GATHER_ROOM - self.waiting.as_slice().len() {
            self.flush(sink)?;
        }
        Ok(())
    }

    /// Adds bytes for which there is room.
    pub fn add(&mut self, bytes: &[u8])
        requires { length self.old + length bytes.now ≤ GATHER_ROOM }
        ensures { self.new ≡ self.old ++ bytes.now }
    {
        self.waiting.push(bytes);
    }

    /// Adds the decimal digits of a number, for which there is room.
    pub fn add_number(&mut self, value: u64)
        requires { length self.old + length (decimal value) ≤ GATHER_ROOM }
        ensures { self.new ≡ self.old ++ decimal value }
    {
        self.waiting.push_number(value);
    }

    /// Writes the bytes that wait.
    pub fn flush<K: Sink>(&mut self, sink: &mut K) -> Result<(), Failed>
        ensures empty { OnOk result (self.new ≡ []) }
        ensures ok { OnOk result (Appends (K.taken sink.old) (K.taken sink.new) self.old) }
        ensures prefix { OnErr result (AppendsPrefix (K.taken sink.old) (K.taken sink.new) self.old) }
        ensures kept { OnErr result (self.new ≡ self.old) }
        ensures cause { HasCause (K.faults sink.old) (K.faults sink.new) result }
    {
        put_all(sink, self.waiting.as_slice())?;
        self.waiting.clear();
        Ok(())
    }
}

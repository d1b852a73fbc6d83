//! Whole texts and whole inputs.
ghost use Rattle.std.specs.Prelude.{◌≡◌, ℕ, ◌+◌, ◌<◌, ◌≤◌, length, vec_len, IfOk, OnOk, OnErr, IsErrOf, IfSome};
ghost use Rattle.std.specs.Io.KnownBytes.{Appends, Consumes, IsAtEnd};
ghost use Rattle.hk_io.specs.Bytes.{AppendsPrefix, ConsumesFront};
ghost use Rattle.hk_io.specs.Faults.{Rose, HasCause};
ghost use Rattle.hk_io.specs.Limits.{longest_input};

use crate::{Failed, Sink, Source, TakeFault};
use std::alloc::Global;

/// The most bytes that an input has.
pub const MAX_INPUT: usize = 1_048_576;

/// How many bytes are read at once.
const PIECE: usize = 4096;

/// Writes these bytes whole. After a failure a prefix of them was taken, and the sink's count of faults rose in this
/// call. It takes no memory.
#[tactic(auto, using(crate::proofs::BytesLemmas::written))]
pub fn put_all<K: Sink>(sink: &mut K, bytes: &[u8]) -> Result<(), Failed>
    ensures ok { OnOk result (Appends (K.taken sink.old) (K.taken sink.new) bytes.now) }
    ensures prefix { OnErr result (AppendsPrefix (K.taken sink.old) (K.taken sink.new) bytes.now) }
    ensures cause { HasCause (K.faults sink.old) (K.faults sink.new) result }
{
    let mut rest = bytes;
    while !rest.is_empty() {
        let count = sink.write(rest)?;
        rest = &rest[count..];
    }
    Ok(())
}

/// Reads an input to its end. Where it is longer than [`MAX_INPUT`] bytes, reading stops after one byte more, and the
/// answer is `Long`. `Failed` is answered only where the source's count of faults rose in this call, and every other
/// answer only where it stayed as it was: a failed read is no end of input, also where the source doesn't tell its bytes.
pub fn take_all<S: Source>(alloc: Global, source: &mut S) -> Result<Vec<u8>, TakeFault>
    // The whole input, where it is told.
    ensures whole { IfOk result (λ bytes. IfSome (S.left source.old) (λ left. bytes.items ≡ left)) }
    ensures end { OnOk result (IsAtEnd (S.left source.new)) }
    ensures short { IfOk result (λ bytes. vec_len bytes ≤ longest_input) }

    // More came than an input has.
    ensures long { IsErrOf result TakeFault.Long → ConsumesFront (S.left source.old) (S.left source.new) (λ count. count ≡ longest_input + 1) }

    // Reading stops, whatever the answer.
    ensures stops { ConsumesFront (S.left source.old) (S.left source.new) (λ count. count ≤ longest_input + 1) }

    // A read failed, or the count of faults stayed as it was.
    ensures failed { IsErrOf result TakeFault.Failed → Rose (S.faults source.old) (S.faults source.new) }
    ensures kept { ¬ (IsErrOf result TakeFault.Failed) → S.faults source.new ≡ S.faults source.old }
    ensures later { S.faults source.old ≤ S.faults source.new }
{
    let mut bytes = Vec::new(alloc);
    let mut piece = [0; PIECE];
    while bytes.len() <= MAX_INPUT {
        let room = PIECE.min(MAX_INPUT + 1 - bytes.len());
        match source.read(&mut piece[..room]) {
            Ok(0) => return Ok(bytes),
            Ok(count) => bytes.extend_from_slice(&piece[..count])?,
            Err(Failed) => return Err(TakeFault::Failed),
        }
    }
    Err(TakeFault::Long)
}

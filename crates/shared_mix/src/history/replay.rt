//! A history on the heap that never collects.
ghost use Rattle.std.specs.Prelude.{◌≡◌, ℕ, ◌<◌, length};
ghost use Rattle.hk_model.specs.Heap.{register_count};

use super::calls::Answer;
use super::order::Place;
use super::record::Record;
use hk_model::{Memory, Plain};
use hk_words::{Call, Geometry};
use std::alloc::Global;

/// Makes the calls of the records in the order of their places on the plain heap, and compares each answer. A call that found
/// no room changes nothing; what it found has to leave too few words. The first record that differs.
pub fn replay(
    alloc: Global,
    g: &Geometry,
    plain: Plain,
    records: &[Record],
    places: &[Place],
) -> Result<Option<Record>, Memory>
    requires tasks { length plain.registers ≡ 8 }
    requires registers { (seat : ℕ) → seat < 8 → register_count plain seat ≡ 8 }
{
    let mut plain = plain;
    for place in places {
        let Some(record) = records.get(place.record).copied() else {
            return Ok(None);
        };
        if record.seat >= 8 || !record.call.registers_fit(8) {
            return Ok(Some(record));
        }
        let agrees = match record.answer {
            Answer::Replied(reply) => plain.apply(alloc, record.seat, record.call)? == reply,
            Answer::Full(words) => is_full(g, &record, words),
            Answer::Spent => false,
        };
        if !agrees {
            return Ok(Some(record));
        }
    }
    Ok(None)
}

/// So many words used leave too few for the object of the call, to its seat: a low one leaves the reserve.
fn is_full(g: &Geometry, record: &Record, words: u64) -> bool {
    let Call::New { shape, .. } = record.call else {
        return false;
    };
    let kept = if record.seat < g.high { 0 } else { g.reserve };
    words.saturating_add(u64::from(shape.words())) > u64::from(g.alloc.saturating_sub(kept))
}

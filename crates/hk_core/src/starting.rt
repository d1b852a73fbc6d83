//! The begin of a call, by the numbers that it looks at.
ghost use Rattle.std.specs.Prelude.{◌≡◌, ◌<◌, IfNone};
ghost use Rattle.hk_core.specs.Begin as table;
ghost use Rattle.hk_core.specs.Begin.{most_calls, has_field};

use crate::{Fault, Flight};
use hk_words::{Call, reference_nums, reference_refs};

/// The calls that a seat can begin.
pub const MAX_CALLS: u32 = 1 << 30;

/// The first reason why a call isn't begun, where its seat has begun so many calls and `entered` is the reference in the
/// register that it enters, 0 where that is null or it enters none.
pub fn refusal_by(begun: u32, call: &Call, entered: u64) -> Option<Fault>
    ensures refusal { result ≡ table.refusal_by begun call.now entered }
    ensures room { IfNone result (begun < most_calls) }
{
    if begun >= MAX_CALLS {
        Some(Fault::Spent)
    } else if call.entered().is_some() && entered == 0 {
        Some(Fault::Nil)
    } else if !has_field(call, entered) {
        Some(Fault::Field)
    } else {
        None
    }
}

/// The flight of a call that begins: it has read nothing but the registers that it enters and copies from, whose references
/// these are.
pub fn flight_by(seat: u8, call: Call, entered: u64, copied: u64) -> Flight
    ensures { result ≡ table.flight_by seat call entered copied }
{
    Flight {
        seat,
        call,
        place: 1,
        entered,
        at: 0,
        word: 0,
        item: copied,
        claimer: false,
        offset: 0,
        number: 0,
        full: false,
        raised: false,
    }
}

/// The object that a reference names has the field of the call.
fn has_field(call: &Call, reference: u64) -> bool
    ensures { result ≡ has_field call.now reference }
{
    match *call {
        Call::Get { field, .. } | Call::Put { field, .. } => field < reference_nums(reference),
        Call::Load { field, .. } | Call::Store { field, .. } => field < reference_refs(reference),
        Call::Move { .. }
        | Call::Clear { .. }
        | Call::New { .. }
        | Call::Same { .. }
        | Call::IsNull { .. } => true,
    }
}

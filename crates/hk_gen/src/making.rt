//! The sheet for a number.

ghost use Rattle.std.specs.Prelude.{◌≡◌, IfOk};
ghost use Rattle.hk_admit.specs.declared.refused.Refused.{Refused};
ghost use Rattle.hk_admit.specs.declared.refused.Refused.TheVariants as refusal;
ghost use Rattle.hk_admit.specs.Refusals.{IsRefusal};
ghost use Rattle.hk_sheet.specs.Valid.{IsSheet};
ghost use Rattle.hk_gen.specs.Made.{made};

use crate::tasks::{high_task, low_task};
use hk_sheet::{HeapKeys, Highs, Lows, Sheet};
use hk_words::{Draws, Memory, REGISTERS, USUAL_FIELDS};
use std::alloc::Global;

/// The ticks of a run.
const TICKS: u64 = 200_000;

/// The heap, with a field of the board for each task.
const HEAP: HeapKeys = HeapKeys {
    live: 256,
    alloc: 2_048,
    reserve: 64,
    rate: 9,
    refs: 5,
    nums: 1,
    registers: REGISTERS,
    fields: USUAL_FIELDS,
};

/// The task sheet for a number: three high tasks and two low ones, whose times are drawn. Each sheet that is made can be
/// read, and is admitted.
pub fn sheet(alloc: Global, number: u64) -> Result<Sheet, Memory>
    ensures made { IfOk result (λ sheet. sheet ≡ made number) }
    ensures readable { IfOk result IsSheet }
    // Nothing is wrong with it.
    ensures unrefused { IfOk result (λ sheet. (refused : Refused) → IsRefusal sheet refused → refused ≡ refusal.Memory) }
{
    let mut draws = Draws { state: number };
    let high = vec![in alloc;
        high_task(alloc, &mut draws, 0)?,
        high_task(alloc, &mut draws, 1)?,
        high_task(alloc, &mut draws, 2)?,
    ]?;
    let low = vec![in alloc;
        low_task(alloc, &mut draws, 0)?,
        low_task(alloc, &mut draws, 1)?,
    ]?;
    Ok(Sheet {
        ticks: TICKS,
        heap: HEAP,
        high: Highs { items: high },
        low: Lows { items: low },
    })
}

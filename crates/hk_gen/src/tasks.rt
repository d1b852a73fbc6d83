//! The tasks of a sheet that is made, drawn one after another.

ghost use Rattle.std.specs.Prelude.{◌≡◌, ◌<◌, ◌++◌, decimal, IfOk, OnOk};
ghost use Rattle.hk_gen.specs.Made.{after, high_drawn, low_drawn};

use crate::scripts::{high_script, low_script};
use hk_rta::Timing;
use hk_sheet::{Arrivals, High, Low, Name};
use hk_words::{Draws, Memory};
use std::alloc::{AllocError, Global};

/// The name of a task: the letter of its kind, and its number.
fn name(alloc: Global, kind: &str, index: u8) -> Result<Name, AllocError>
    ensures { IfOk result (λ name. name ≡ kind.now ++ decimal index) }
{
    let text = format!(in alloc; "{kind}{index}")?;
    Ok(Name {
        items: text.into_bytes(),
    })
}

/// The next high task, by its number among them: three draws.
pub(crate) fn high_task(alloc: Global, draws: &mut Draws, index: u8) -> Result<High, Memory>
    requires { index < 3 }
    ensures task { IfOk result (λ task. task ≡ high_drawn index draws.old.state) }
    ensures draws { OnOk result (draws.new.state ≡ after 3 draws.old.state) }
{
    let unit: u64 = 100 << index;
    let work = 1 + draws.below(20);
    let period = 4 * unit + draws.below(unit);
    let first = draws.below(100);
    Ok(High {
        name: name(alloc, "h", index)?,
        timing: Timing {
            cost: 50 + work,
            period,
            deadline: period,
            jitter: 0,
        },
        words: 4,
        lag: 0,
        arrivals: Arrivals::Every {
            first,
            step: period,
        },
        script: high_script(alloc, index, work)?,
    })
}

/// The next low task, by its number among them: two draws.
pub(crate) fn low_task(alloc: Global, draws: &mut Draws, index: u8) -> Result<Low, Memory>
    requires { index < 2 }
    ensures task { IfOk result (λ task. task ≡ low_drawn index draws.old.state) }
    ensures draws { OnOk result (draws.new.state ≡ after 2 draws.old.state) }
{
    let step = 900 + draws.below(300);
    let first = draws.below(100);
    Ok(Low {
        name: name(alloc, "l", index)?,
        arrivals: Arrivals::Every { first, step },
        script: low_script(alloc, 3 + index)?,
    })
}

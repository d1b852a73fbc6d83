//! Whether the high tasks keep to what they declare.

ghost use Rattle.std.specs.Prelude.{◌≡◌, false, IfOk, MatchResult};
ghost use Rattle.std.specs.List.{list_any};
ghost use Rattle.hk_admit.specs.Conditions.{exceeds, is_too_long, is_too_large};
ghost use Rattle.hk_admit.specs.Conditions.{KeepsToDeclared};
ghost use Rattle.hk_admit.specs.Refusals.{first_too_long, first_too_large, too_long, too_large};
ghost use Rattle.hk_admit.specs.Parts.{IsThat, IsDeclaredRefusal};

use crate::refused::Refused;
use hk_script::{cost, words};
use hk_sheet::{High, Name};
use std::alloc::{AllocError, Global};

/// A copy of a name.
pub(crate) fn name_of(alloc: Global, name: &Name) -> Result<Name, AllocError>
    ensures { IfOk result (λ copy. copy ≡ name.now) }
{
    Ok(Name {
        items: Vec::from_slice(alloc, &name.items)?,
    })
}

/// Whether what is needed is above what is declared; None stands for a number that is too large to be told.
fn exceeds(need: Option<u64>, declared: u64) -> bool
    ensures { result ≡ exceeds need declared }
{
    match need {
        None => true,
        Some(need) => need > declared,
    }
}

/// The refusal of a high task that takes more ticks than it declares.
fn too_long(alloc: Global, task: &High) -> Result<Refused, AllocError>
    ensures { IfOk result (λ refused. refused ≡ too_long task.now) }
{
    Ok(Refused::Cost {
        task: name_of(alloc, &task.name)?,
        need: cost(&task.script),
        declared: task.timing.cost,
    })
}

/// The refusal of a high task that takes more words than it declares.
fn too_large(alloc: Global, task: &High) -> Result<Refused, AllocError>
    ensures { IfOk result (λ refused. refused ≡ too_large task.now) }
{
    Ok(Refused::Words {
        task: name_of(alloc, &task.name)?,
        need: words(&task.script),
        declared: task.words,
    })
}

/// Looks for the first high task that takes more ticks than it declares.
fn check_costs(alloc: Global, tasks: &[High]) -> Result<(), Refused>
    ensures { MatchResult result (λ _. list_any is_too_long tasks.now ≡ false) (λ refused. IsThat (first_too_long tasks.now) refused) }
{
    for task in tasks {
        if exceeds(cost(&task.script), task.timing.cost) {
            return Err(too_long(alloc, task)?);
        }
    }
    Ok(())
}

/// Looks for the first high task that takes more words than it declares.
fn check_words(alloc: Global, tasks: &[High]) -> Result<(), Refused>
    ensures { MatchResult result (λ _. list_any is_too_large tasks.now ≡ false) (λ refused. IsThat (first_too_large tasks.now) refused) }
{
    for task in tasks {
        if exceeds(words(&task.script), task.words) {
            return Err(too_large(alloc, task)?);
        }
    }
    Ok(())
}

/// Looks at all costs, and then at all words.
pub(crate) fn check_declared(alloc: Global, tasks: &[High]) -> Result<(), Refused>
    ensures { MatchResult result (λ _. KeepsToDeclared tasks.now) (λ refused. IsDeclaredRefusal tasks.now refused) }
{
    check_costs(alloc, tasks)?;
    check_words(alloc, tasks)
}

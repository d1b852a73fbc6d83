//! The scripts of the tasks of a sheet that is made.

ghost use Rattle.std.specs.Prelude.{◌≡◌, ◌≤◌, List, IfOk, string_bytes};
ghost use Rattle.hk_script.specs.declared.statement.Statement.{Statement};
ghost use Rattle.hk_script.specs.Limits.{usual};
ghost use Rattle.hk_script.specs.Printing.{text_of};
ghost use Rattle.hk_script.specs.Texts.{Spells};
ghost use Rattle.hk_gen.specs.Made.{high_script, low_script};

use hk_script::{Script, ScriptError, parse};
use hk_words::Memory;
use std::alloc::{AllocError, Global};

/// The script that a text spells.
fn script(alloc: Global, text: &str) -> Result<Script, Memory>
    requires { (script : List Statement) × Spells usual text.now script }
    ensures { (script : List Statement) → Spells usual text.now script → IfOk result (λ found. found ≡ script) }
{
    match parse(alloc, text.as_bytes()) {
        Ok(script) => Ok(script),
        Err(ScriptError::Memory) => Err(Memory),
        Err(_) => unreachable!(),
    }
}

/// The text of the script of a high task.
fn high_text(alloc: Global, field: u8, work: u64) -> Result<String, AllocError>
    ensures { IfOk result (λ text. string_bytes text ≡ text_of (high_script field work)) }
{
    format!(in alloc;
        "job v0\nnew r1 1 2\nput r1 0 v0\nload r2 r0 {field}\nif null r2\nelse\nstore r2 0 r3\nget v1 r2 0\nend\nstore r1 0 r2\nstore r0 {field} r1\nadd v0 v1\nout v0\nclear r1\nclear r2\nwork {work}\n"
    )
}

/// The text of the script of a low task.
fn low_text(alloc: Global, field: u8) -> Result<String, AllocError>
    ensures { IfOk result (λ text. string_bytes text ≡ text_of (low_script field)) }
{
    format!(in alloc;
        "job v0\nnew r1 1 3\nput r1 0 v0\nload r2 r0 {field}\nif null r2\nelse\nstore r2 0 r3\nend\nstore r1 0 r2\nstore r0 {field} r1\nclear r1\nclear r2\n"
    )
}

/// The script of a high task, by its field of the board and the ticks of its last statement.
pub(crate) fn high_script(alloc: Global, field: u8, work: u64) -> Result<Script, Memory>
    requires field { field ≤ 4 }
    requires some { 1 ≤ work }
    requires few { work ≤ 20 }
    ensures { IfOk result (λ script. script ≡ high_script field work) }
{
    let text = high_text(alloc, field, work)?;
    script(alloc, text.as_str())
}

/// The script of a low task, by its field of the board.
pub(crate) fn low_script(alloc: Global, field: u8) -> Result<Script, Memory>
    requires { field ≤ 4 }
    ensures { IfOk result (λ script. script ≡ low_script field) }
{
    let text = low_text(alloc, field)?;
    script(alloc, text.as_str())
}

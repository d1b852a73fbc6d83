//! Scripts of larger objects and of other numbers of registers.
ghost use Rattle.std.specs.Prelude.{◌≤◌};

use super::refused;
use crate::{ScriptError, parse_in, print};
use std::alloc::Global;
use std::process::Abort;
use std::test::Fail;

/// The text is refused for this reason, where objects have up to 254 fields and a task has so many registers.
fn refused_in(rt: &impl Abort, alloc: Global, registers: u8, text: &str, want: ScriptError)
    requires few { 2 ≤ registers }
    requires many { registers ≤ 32 }
{
    match parse_in(alloc, text.as_bytes(), 254, registers) {
        Ok(_script) => assert!(rt; false, "{text:?} is parsed"),
        Err(error) => assert_eq!(rt; error, want, "at {text:?}"),
    }
}

/// The text is parsed, where objects have up to 254 fields and a task has so many registers, and printed so.
fn parsed_in(
    rt: &impl Abort,
    alloc: Global,
    registers: u8,
    text: &str,
    canonical: &str,
) -> Result<(), Fail>
    requires few { 2 ≤ registers }
    requires many { registers ≤ 32 }
{
    let script = parse_in(alloc, text.as_bytes(), 254, registers)?;
    let printed = print(alloc, &script)?;
    assert_eq!(rt; printed.as_slice(), canonical.as_bytes(), "at {text:?}");
    let again = parse_in(alloc, printed.as_slice(), 254, registers)?;
    assert_eq!(rt; again.statements(), script.statements(), "at {text:?}");
    Ok(())
}

#[test]
fn larger_objects_and_other_registers(rt: HostRuntime) -> Result<(), Fail> {
    for (text, canonical) in [
        ("new r31 0 254", "new r31 0 254\n"),
        ("new r10 254 0\nclear r9", "new r10 254 0\nclear r9\n"),
        ("new r1 127 127", "new r1 127 127\n"),
        (
            "get v7 r31 253\nput r30 0253 v0",
            "get v7 r31 253\nput r30 253 v0\n",
        ),
        (
            "load r20 r19 253\nstore r0 253 r31",
            "load r20 r19 253\nstore r0 253 r31\n",
        ),
        (
            "move r29 r0\nif null r28\nend\nif same r11 r12\nend",
            "move r29 r0\nif null r28\nend\nif same r11 r12\nend\n",
        ),
    ] {
        parsed_in(&rt, rt.alloc(), 32, text, canonical)?;
    }
    parsed_in(&rt, rt.alloc(), 2, "move r1 r0", "move r1 r0\n")?;
    parsed_in(&rt, rt.alloc(), 11, "clear r10", "clear r10\n")?;
    for (registers, text, want) in [
        (32, "clear r32", ScriptError::Register(1)),
        (32, "clear r00", ScriptError::Register(1)),
        (32, "clear r01", ScriptError::Register(1)),
        (32, "clear r010", ScriptError::Register(1)),
        (32, "clear r100", ScriptError::Register(1)),
        (32, "clear r", ScriptError::Register(1)),
        (32, "clear r1x", ScriptError::Register(1)),
        (32, "clear r-1", ScriptError::Register(1)),
        (32, "move r31 r32", ScriptError::Register(1)),
        (32, "out v8", ScriptError::Variable(1)),
        (32, "out v10", ScriptError::Variable(1)),
        (32, "get v0 r0 254", ScriptError::Number(1)),
        (32, "put r0 254 v0", ScriptError::Number(1)),
        (32, "new r31 255 0", ScriptError::Shape(1)),
        (32, "new r31 0 0", ScriptError::Shape(1)),
        (32, "new r31 127 128", ScriptError::Shape(1)),
        (32, "new r31 256 0", ScriptError::Number(1)),
        (31, "clear r31", ScriptError::Register(1)),
        (10, "clear r10", ScriptError::Register(1)),
        (9, "clear r9", ScriptError::Register(1)),
        (2, "clear r2", ScriptError::Register(1)),
        (2, "if null r2\nend", ScriptError::Register(1)),
    ] {
        refused_in(&rt, rt.alloc(), registers, text, want);
    }
    refused(&rt, rt.alloc(), "new r31 0 254", ScriptError::Register(1));
    refused(&rt, rt.alloc(), "new r1 0 254", ScriptError::Shape(1));
    refused(&rt, rt.alloc(), "new r1 0 63", ScriptError::Shape(1));
    Ok(())
}

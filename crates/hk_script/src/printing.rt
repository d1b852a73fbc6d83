//! The canonical text of a script.

ghost use Rattle.std.specs.Prelude.{◌≡◌, ◌+◌, ◌<◌, ◌≤◌, [], ◌∷◌, ◌++◌, List, map, OnOk, IfOk};
ghost use Rattle.std.specs.List.{flat_map};
ghost use Rattle.std.specs.Fmt.{decimal};
ghost use Rattle.hk_script.specs.Printing.{word_of, spaced, line_of, heap_line, text_of};
ghost use Rattle.hk_script.specs.Arguments.{piece_of};
ghost use Rattle.hk_script.specs.declared.statement.Statement.TheVariants as Statement;
ghost use Rattle.hk_script.specs.declared.limits.Limits.{Limits};
ghost use Rattle.hk_script.specs.Limits.{AreLimits};
ghost use Rattle.hk_script.specs.Blocks.{IsScript};
ghost use Rattle.hk_script.specs.Texts.{Spells};

use crate::script::Script;
use crate::statement::{Statement, Test};
use hk_words::Memory;
use std::alloc::{AllocError, Global};

/// Writes a number behind a space.
fn push_number(alloc: Global, out: &mut Vec<u8>, number: u64) -> Result<(), AllocError>
    ensures { OnOk result (out.new.items ≡ out.old.items ++ 32 ∷ decimal number) }
{
    let digits = format!(in alloc; " {number}")?;
    out.extend_from_slice(digits.as_bytes())
}

/// Writes a name of a letter and a number behind a space.
fn push_name(alloc: Global, out: &mut Vec<u8>, letter: u8, index: u8) -> Result<(), AllocError>
    ensures { OnOk result (out.new.items ≡ out.old.items ++ 32 ∷ letter ∷ decimal index) }
{
    out.push(b' ')?;
    out.push(letter)?;
    let digits = format!(in alloc; "{index}")?;
    out.extend_from_slice(digits.as_bytes())
}

/// What a statement's line has behind its name.
#[derive(Clone, Copy)]
enum Argument {
    Variable(u8),
    Register(u8),
    Number(u64),
    Sign(u8),
}

/// Writes an argument behind a space.
fn push_argument(alloc: Global, out: &mut Vec<u8>, argument: Argument) -> Result<(), AllocError>
    ensures { OnOk result (out.new.items ≡ out.old.items ++ 32 ∷ word_of (piece_of argument)) }
{
    match argument {
        Argument::Variable(index) => push_name(alloc, out, b'v', index),
        Argument::Register(index) => push_name(alloc, out, b'r', index),
        Argument::Number(number) => push_number(alloc, out, number),
        Argument::Sign(sign) => {
            out.push(b' ')?;
            out.push(sign)?;
            Ok(())
        }
    }
}

/// Writes a line.
fn push_line(
    alloc: Global,
    out: &mut Vec<u8>,
    name: &str,
    arguments: &[Argument],
) -> Result<(), AllocError>
    ensures { OnOk result (out.new.items ≡ out.old.items ++ (name.now ++ (spaced (map piece_of arguments.now) ++ 10 ∷ []))) }
{
    out.extend_from_slice(name.as_bytes())?;
    for argument in arguments {
        push_argument(alloc, out, *argument)?;
    }
    out.push(b'\n')?;
    Ok(())
}

/// Writes the line of an `if`.
#[tactic(auto, unfolding(crate::specs::Printing::line_of))]
fn push_test(alloc: Global, out: &mut Vec<u8>, test: Test) -> Result<(), AllocError>
    ensures { OnOk result (out.new.items ≡ out.old.items ++ line_of (Statement.If test)) }
{
    use Argument::{Register, Sign, Variable};
    match test {
        Test::Less { left, right } => {
            let arguments = [Variable(left), Sign(b'<'), Variable(right)];
            push_line(alloc, out, "if", &arguments)
        }
        Test::Equal { left, right } => {
            let arguments = [Variable(left), Sign(b'='), Variable(right)];
            push_line(alloc, out, "if", &arguments)
        }
        Test::Null { reg } => push_line(alloc, out, "if null", &[Register(reg)]),
        Test::Same { left, right } => {
            push_line(alloc, out, "if same", &[Register(left), Register(right)])
        }
    }
}

/// Writes the line of a statement on the heap.
#[tactic(auto, unfolding(crate::specs::Printing::line_of))]
fn push_heap(alloc: Global, out: &mut Vec<u8>, statement: Statement) -> Result<(), AllocError>
    ensures { OnOk result (out.new.items ≡ out.old.items ++ heap_line statement) }
{
    use Argument::{Number, Register, Variable};
    match statement {
        Statement::Get {
            variable,
            reg,
            field,
        } => {
            let arguments = [Variable(variable), Register(reg), Number(field.into())];
            push_line(alloc, out, "get", &arguments)
        }
        Statement::Put {
            reg,
            field,
            variable,
        } => {
            let arguments = [Register(reg), Number(field.into()), Variable(variable)];
            push_line(alloc, out, "put", &arguments)
        }
        Statement::Load { dest, reg, field } => {
            let arguments = [Register(dest), Register(reg), Number(field.into())];
            push_line(alloc, out, "load", &arguments)
        }
        Statement::Store { reg, field, from } => {
            let arguments = [Register(reg), Number(field.into()), Register(from)];
            push_line(alloc, out, "store", &arguments)
        }
        Statement::Move { dest, from } => {
            push_line(alloc, out, "move", &[Register(dest), Register(from)])
        }
        Statement::Clear { dest } => push_line(alloc, out, "clear", &[Register(dest)]),
        Statement::New { dest, shape } => {
            let refs = Number(shape.refs().into());
            let nums = Number(shape.nums().into());
            push_line(alloc, out, "new", &[Register(dest), refs, nums])
        }
        _ => Ok(()),
    }
}

/// Writes the line of a statement.
#[tactic(auto, unfolding(crate::specs::Printing::line_of))]
fn push_statement(alloc: Global, out: &mut Vec<u8>, statement: Statement) -> Result<(), AllocError>
    ensures { OnOk result (out.new.items ≡ out.old.items ++ line_of statement) }
{
    use Argument::{Number, Variable};
    match statement {
        Statement::Work { ticks } => push_line(alloc, out, "work", &[Number(ticks.into())]),
        Statement::Set { variable, value } => {
            push_line(alloc, out, "set", &[Variable(variable), Number(value)])
        }
        Statement::Copy { variable, other } => {
            push_line(alloc, out, "copy", &[Variable(variable), Variable(other)])
        }
        Statement::Add { variable, other } => {
            push_line(alloc, out, "add", &[Variable(variable), Variable(other)])
        }
        Statement::Sub { variable, other } => {
            push_line(alloc, out, "sub", &[Variable(variable), Variable(other)])
        }
        Statement::Job { variable } => push_line(alloc, out, "job", &[Variable(variable)]),
        Statement::Out { variable } => push_line(alloc, out, "out", &[Variable(variable)]),
        Statement::If { test } => push_test(alloc, out, test),
        Statement::Else => push_line(alloc, out, "else", &[]),
        Statement::Repeat { count } => { push_line(alloc, out, "repeat", &[Number(count.into())]) }
        Statement::End => push_line(alloc, out, "end", &[]),
        _ => push_heap(alloc, out, statement),
    }
}

/// The canonical text of a script: one statement per line, its words parted by one space, and numbers without
/// leading zeros. The text spells the script by all limits that it keeps, and so it is parsed as the script again. There is
/// none where memory runs out.
pub fn print(alloc: Global, script: &Script) -> Result<Vec<u8>, Memory>
    ensures text { IfOk result (λ text. text.items ≡ text_of script.now) }
    ensures spelled { (limits : Limits) → AreLimits limits → IsScript limits script.now → IfOk result (λ text. Spells limits text.items script.now) }
{
    let mut out = Vec::new(alloc);
    for statement in script.statements() {
        push_statement(alloc, &mut out, *statement)?;
    }
    Ok(out)
}

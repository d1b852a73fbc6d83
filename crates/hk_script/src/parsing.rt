//! A script from its text.

ghost use Rattle.std.specs.Prelude.{◌≡◌, ◌+◌, ◌<◌, ◌≤◌, Ok, List, IfOk, map, length, take, drop};
ghost use Rattle.hk_script.specs.declared.statement.Statement.{Statement};
ghost use Rattle.hk_script.specs.Limits.{limits_of, usual, AreLimits};
ghost use Rattle.hk_script.specs.Lex.{words, lines};
ghost use Rattle.hk_script.specs.Blocks.{begun, parted, nest};
ghost use Rattle.hk_script.specs.Texts.{Spells, Progress, script_of, Gives, line_read, lines_read, nothing_read, placed, then_at, done};
ghost use Rattle.hk_script.specs.Progress.{progress_of};

use crate::blocks::{Blocks, Open, Part};
use crate::error::ScriptError;
use crate::lex::first_word;
use crate::limits::Limits;
use crate::progress::Reading;
use crate::reading::statement;
use crate::script::Script;
use crate::statement::{MAX_DEPTH, MAX_STATEMENTS, Statement};
use hk_words::{REGISTERS, USUAL_FIELDS};
use memchr::memchr;
use std::alloc::Global;

/// Begins a block.
fn begin(blocks: &mut Blocks, part: Part, line: u32) -> Result<(), ScriptError>
    ensures { Gives (λ _. blocks.new) result (then_at line (begun part line blocks.old) done) }
{
    if blocks.depth() >= MAX_DEPTH {
        return Err(ScriptError::Deep(line));
    }
    blocks.push(part, line)?;
    Ok(())
}

/// Parts the innermost block by an `else`.
fn part(blocks: &mut Blocks, line: u32) -> Result<(), ScriptError>
    ensures { Gives (λ _. blocks.new) result (then_at line (parted blocks.old) done) }
{
    match blocks.pop() {
        Some(
            Open {
                part: Part::Then,
                mark,
            },
        ) => {
            blocks.push(Part::Otherwise, mark)?;
            Ok(())
        }
        _ => Err(ScriptError::Block(line)),
    }
}

/// Begins, parts or ends a block, where a statement does so.
#[tactic(auto, unfolding(crate::specs::Blocks::nest))]
pub(crate) fn nest(blocks: &mut Blocks, line: u32, statement: &Statement) -> Result<(), ScriptError>
    ensures { Gives (λ _. blocks.new) result (then_at line (nest line blocks.old statement.now) done) }
{
    match statement {
        Statement::If { test: _ } => begin(blocks, Part::Then, line),
        Statement::Repeat { count: _ } => begin(blocks, Part::Turns, line),
        Statement::Else => part(blocks, line),
        Statement::End => match blocks.pop() {
            Some(_) => Ok(()),
            None => Err(ScriptError::Block(line)),
        },
        _ => Ok(()),
    }
}

/// Adds the statement of a line.
#[tactic(auto, unfolding(crate::specs::Texts::placed))]
fn add(reading: &mut Reading, line: u32, statement: Statement) -> Result<(), ScriptError>
    ensures { Gives (λ _. progress_of reading.new) result (then_at line (placed line (progress_of reading.old) statement) done) }
{
    nest(&mut reading.blocks, line, &statement)?;
    if reading.statements.len() >= MAX_STATEMENTS {
        return Err(ScriptError::Long);
    }
    reading.statements.push(statement)?;
    Ok(())
}

/// Reads a line.
fn read_line(
    limits: Limits,
    reading: &mut Reading,
    line: u32,
    text: &[u8],
) -> Result<(), ScriptError>
    ensures { Gives (λ _. progress_of reading.new) result (then_at line (line_read limits line (progress_of reading.old) (words text.now)) done) }
{
    let Some((name, rest)) = first_word(text) else {
        return Ok(());
    };
    match statement(limits, name, rest) {
        Ok(statement) => add(reading, line, statement),
        Err(fault) => Err(fault.at(line)),
    }
}

/// What stands before a byte and after it.
fn cut(text: &[u8], place: usize) -> (&[u8], &[u8])
    requires { place < length text.now }
    ensures before { result.0.now ≡ take place text.now }
    ensures after { result.1.now ≡ drop (place + 1) text.now }
{
    (&text[..place], &text[place + 1..])
}

/// Reads the lines of a text.
fn read_lines(alloc: Global, limits: Limits, text: &[u8]) -> Result<Reading, ScriptError>
    ensures { Gives progress_of result (lines_read limits 1 nothing_read (map words (lines text.now))) }
{
    let mut reading = Reading {
        statements: Vec::new(alloc),
        blocks: Blocks::new(alloc),
    };
    let mut line: u32 = 1;
    let mut rest = text;
    while let Some(end) = memchr(b'\n', rest) {
        let (here, after) = cut(rest, end);
        read_line(limits, &mut reading, line, here)?;
        line = line.saturating_add(1);
        rest = after;
    }
    read_line(limits, &mut reading, line, rest)?;
    Ok(reading)
}

/// The statements of a text.
#[tactic(auto, unfolding(crate::specs::Texts::script_of))]
fn statements(alloc: Global, limits: Limits, text: &[u8]) -> Result<Vec<Statement>, ScriptError>
    ensures { Gives (λ v. v.items) result (script_of limits text.now) }
{
    let Reading {
        statements,
        mut blocks,
    } = read_lines(alloc, limits, text)?;
    if let Some(block) = blocks.pop() {
        return Err(ScriptError::Block(block.mark));
    }
    if statements.is_empty() {
        return Err(ScriptError::Empty);
    }
    Ok(statements)
}

/// The script that the text spells, where objects have at most so many fields and a task has so many registers, or the
/// first reason why it spells none. Lines end in a newline, which may be missing at the end; a comment goes from `#` to
/// the end of its line.
pub fn parse_in(
    alloc: Global,
    text: &[u8],
    fields: u8,
    registers: u8,
) -> Result<Script, ScriptError>
    requires { AreLimits (limits_of fields registers) }
    // What is parsed is spelled so.
    ensures spelled { IfOk result (λ script. Spells (limits_of fields registers) text.now script) }
    // What is spelled so is parsed, unless memory runs out.
    ensures only { (script : List Statement) → Spells (limits_of fields registers) text.now script → Gives (λ found. found) result (Ok script) }
    // Which reason it is.
    ensures exact { Gives (λ found. found) result (script_of (limits_of fields registers) text.now) }
{
    let statements = statements(alloc, Limits { fields, registers }, text)?;
    Script::new(alloc, statements)
}

/// The script that the text spells, where objects have at most 62 fields and a task has eight registers, or the first
/// reason why it spells none, as [`parse_in`] answers it.
pub fn parse(alloc: Global, text: &[u8]) -> Result<Script, ScriptError>
    ensures spelled { IfOk result (λ script. Spells usual text.now script) }
    ensures only { (script : List Statement) → Spells usual text.now script → Gives (λ found. found) result (Ok script) }
    ensures exact { Gives (λ found. found) result (script_of usual text.now) }
{
    parse_in(alloc, text, USUAL_FIELDS, REGISTERS)
}

//! One statement from its line.

ghost use Rattle.std.specs.Prelude.{◌≡◌, ℕ, ◌<◌, ◌≤◌, Ok, IfOk, ◌∷◌};
ghost use Rattle.hk_script.specs.Reading.{number_in, variable_of, register_of, target_of, count_of, value_of, field_of, size_of, one_word, two_words, three_words, four_words, new_of, test_of, variables_of, statement_of};
ghost use Rattle.hk_script.specs.Lex.{words};
ghost use Rattle.hk_script.specs.Shapes.{any_shape, shape_of};

use crate::error::Fault;
use crate::lex::{first_word, index, is, number, number_below};
use crate::limits::Limits;
use crate::statement::{MAX_COUNT, Statement, Test, VARIABLES};
use hk_words::Shape;

/// A number of this range.
#[tactic(auto, unfolding(crate::specs::Reading::number_in))]
fn number_in(word: &[u8], low: u64, high: u64) -> Result<u64, Fault>
    ensures value { result ≡ number_in low high word.now }
    ensures range { IfOk result (λ n. (low ≤ n) × (n ≤ high)) }
{
    match number(word) {
        Some(value) if low <= value && value <= high => Ok(value),
        _ => Err(Fault::Number),
    }
}

/// A number of ticks or of turns.
fn count(word: &[u8]) -> Result<u16, Fault>
    ensures { result ≡ count_of word.now }
{
    Ok(number_in(word, 1, u64::from(MAX_COUNT))? as u16)
}

/// Any number.
fn value(word: &[u8]) -> Result<u64, Fault>
    ensures { result ≡ value_of word.now }
{
    number_in(word, 0, u64::MAX)
}

/// The number of a field.
#[tactic(auto, unfolding(crate::specs::Reading::field_of))]
fn field(limits: Limits, word: &[u8]) -> Result<u8, Fault>
    ensures { result ≡ field_of limits word.now }
{
    number_below(word, limits.fields).ok_or(Fault::Number)
}

/// How many fields of a kind an object has.
fn size(word: &[u8]) -> Result<u8, Fault>
    ensures { result ≡ size_of word.now }
{
    Ok(number_in(word, 0, u64::from(u8::MAX))? as u8)
}

/// A variable.
#[tactic(auto, unfolding(crate::specs::Reading::variable_of))]
fn variable(word: &[u8]) -> Result<u8, Fault>
    ensures { result ≡ variable_of word.now }
{
    index(word, b'v', VARIABLES).ok_or(Fault::Variable)
}

/// A register that is read.
#[tactic(auto, unfolding(crate::specs::Reading::register_of))]
fn register(limits: Limits, word: &[u8]) -> Result<u8, Fault>
    ensures { result ≡ register_of limits word.now }
{
    index(word, b'r', limits.registers).ok_or(Fault::Register)
}

/// A register that is written: any but register 0.
#[tactic(auto, unfolding(crate::specs::Reading::target_of))]
fn target(limits: Limits, word: &[u8]) -> Result<u8, Fault>
    ensures { result ≡ target_of limits word.now }
{
    let reg = register(limits, word)?;
    if reg == 0 {
        return Err(Fault::Register);
    }
    Ok(reg)
}

/// The statement of a line of one word.
#[tactic(auto, unfolding(crate::specs::Reading::one_word))]
fn one_word(name: &[u8]) -> Result<Statement, Fault>
    ensures { result ≡ one_word name.now }
{
    if is(name, "else") {
        Ok(Statement::Else)
    } else if is(name, "end") {
        Ok(Statement::End)
    } else {
        Err(Fault::Word)
    }
}

/// The statement of a line of two words.
#[tactic(auto, unfolding(crate::specs::Reading::two_words))]
fn two_words(limits: Limits, name: &[u8], a: &[u8]) -> Result<Statement, Fault>
    ensures { result ≡ two_words limits name.now a.now }
{
    if is(name, "work") {
        Ok(Statement::Work { ticks: count(a)? })
    } else if is(name, "job") {
        Ok(Statement::Job {
            variable: variable(a)?,
        })
    } else if is(name, "out") {
        Ok(Statement::Out {
            variable: variable(a)?,
        })
    } else if is(name, "clear") {
        Ok(Statement::Clear {
            dest: target(limits, a)?,
        })
    } else if is(name, "repeat") {
        Ok(Statement::Repeat { count: count(a)? })
    } else {
        Err(Fault::Word)
    }
}

/// Two variables.
fn variables(a: &[u8], b: &[u8]) -> Result<(u8, u8), Fault>
    ensures { result ≡ variables_of a.now b.now (λ left right. (left, right)) }
{
    Ok((variable(a)?, variable(b)?))
}

/// The statement of a line of three words.
#[tactic(auto, unfolding(crate::specs::Reading::three_words))]
fn three_words(limits: Limits, name: &[u8], a: &[u8], b: &[u8]) -> Result<Statement, Fault>
    ensures { result ≡ three_words limits name.now a.now b.now }
{
    if is(name, "set") {
        Ok(Statement::Set {
            variable: variable(a)?,
            value: value(b)?,
        })
    } else if is(name, "copy") {
        let (variable, other) = variables(a, b)?;
        Ok(Statement::Copy { variable, other })
    } else if is(name, "add") {
        let (variable, other) = variables(a, b)?;
        Ok(Statement::Add { variable, other })
    } else if is(name, "sub") {
        let (variable, other) = variables(a, b)?;
        Ok(Statement::Sub { variable, other })
    } else if is(name, "move") {
        Ok(Statement::Move {
            dest: target(limits, a)?,
            from: register(limits, b)?,
        })
    } else if is(name, "if") && is(a, "null") {
        Ok(Statement::If {
            test: Test::Null {
                reg: register(limits, b)?,
            },
        })
    } else {
        Err(Fault::Word)
    }
}

/// The shape of so many fields, where there is one.
fn any_shape(refs: u8, nums: u8) -> Option<Shape>
    ensures { result ≡ any_shape refs nums }
{
    Shape::new(refs, nums)
}

/// The shape of so many fields, where there is one with no more fields than an object may have.
#[tactic(auto, unfolding(crate::specs::Shapes::shape_of))]
fn shape(limits: Limits, refs: u8, nums: u8) -> Option<Shape>
    ensures { result ≡ shape_of limits.fields refs nums }
{
    if u16::from(refs) + u16::from(nums) <= u16::from(limits.fields) {
        any_shape(refs, nums)
    } else {
        None
    }
}

/// A new object.
#[tactic(auto, unfolding(crate::specs::Reading::new_of))]
fn new_object(limits: Limits, a: &[u8], b: &[u8], c: &[u8]) -> Result<Statement, Fault>
    ensures { result ≡ new_of limits a.now b.now c.now }
{
    let dest = target(limits, a)?;
    let refs = size(b)?;
    let nums = size(c)?;
    let shape = shape(limits, refs, nums).ok_or(Fault::Shape)?;
    Ok(Statement::New { dest, shape })
}

/// The `if` of a line of four words.
#[tactic(auto, unfolding(crate::specs::Reading::test_of))]
fn test(limits: Limits, a: &[u8], b: &[u8], c: &[u8]) -> Result<Statement, Fault>
    ensures { result ≡ test_of limits a.now b.now c.now }
{
    let test = if is(b, "<") {
        let (left, right) = variables(a, c)?;
        Test::Less { left, right }
    } else if is(b, "=") {
        let (left, right) = variables(a, c)?;
        Test::Equal { left, right }
    } else if is(a, "same") {
        let left = register(limits, b)?;
        let right = register(limits, c)?;
        Test::Same { left, right }
    } else {
        return Err(Fault::Word);
    };
    Ok(Statement::If { test })
}

/// The statement of a line of four words.
#[tactic(auto, unfolding(crate::specs::Reading::four_words))]
fn four_words(limits: Limits, name: &[u8], a: &[u8], b: &[u8], c: &[u8]) -> Result<Statement, Fault>
    ensures { result ≡ four_words limits name.now a.now b.now c.now }
{
    if is(name, "get") {
        Ok(Statement::Get {
            variable: variable(a)?,
            reg: register(limits, b)?,
            field: field(limits, c)?,
        })
    } else if is(name, "put") {
        Ok(Statement::Put {
            reg: register(limits, a)?,
            field: field(limits, b)?,
            variable: variable(c)?,
        })
    } else if is(name, "load") {
        Ok(Statement::Load {
            dest: target(limits, a)?,
            reg: register(limits, b)?,
            field: field(limits, c)?,
        })
    } else if is(name, "store") {
        Ok(Statement::Store {
            reg: register(limits, a)?,
            field: field(limits, b)?,
            from: register(limits, c)?,
        })
    } else if is(name, "new") {
        new_object(limits, a, b, c)
    } else if is(name, "if") {
        test(limits, a, b, c)
    } else {
        Err(Fault::Word)
    }
}

/// The statement of a line, from its first word and what comes after that.
#[tactic(auto, unfolding(crate::specs::Reading::statement_of))]
pub(crate) fn statement(limits: Limits, name: &[u8], rest: &[u8]) -> Result<Statement, Fault>
    ensures { result ≡ statement_of limits (name.now ∷ words rest.now) }
{
    let Some((a, rest)) = first_word(rest) else {
        return one_word(name);
    };
    let Some((b, rest)) = first_word(rest) else {
        return two_words(limits, name, a);
    };
    let Some((c, rest)) = first_word(rest) else {
        return three_words(limits, name, a, b);
    };
    match first_word(rest) {
        None => four_words(limits, name, a, b, c),
        Some(_) => Err(Fault::Word),
    }
}

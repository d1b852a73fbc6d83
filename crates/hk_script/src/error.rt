//! Why a text is no script.

ghost use Rattle.std.specs.Prelude.{◌≡◌};
ghost use Rattle.hk_script.specs.declared.error.ScriptError.TheVariants.{Memory};

use std::alloc::{AllocError, AllocFailed};

/// Why a text is no script: the first reason, line by line from the top, and in a line in the order of the
/// variants, where an argument is looked at from the left. Lines count from 1; a line past 4,294,967,295 has
/// that number.
#[derive(Clone, Copy, Debug, PartialEq, Eq)]
pub enum ScriptError {
    /// The first word of the line is no statement's, or the number of words doesn't fit, or an `if` has none of
    /// the four forms.
    Word(u32),
    /// A number is not 1 to 20 decimal digits, or not in its range.
    Number(u32),
    /// A word is no register, or register 0 where one is written.
    Register(u32),
    /// A word is no variable.
    Variable(u32),
    /// A new object would have no field, or too many.
    Shape(u32),
    /// An `else` stands outside an `if` or is its second, an `end` stands outside a block, or the block that
    /// begins in the line isn't ended.
    Block(u32),
    /// A block would be the 17th inside each other.
    Deep(u32),
    /// There are more than [`MAX_STATEMENTS`](crate::MAX_STATEMENTS) statements.
    Long,
    /// There is no statement.
    Empty,
    /// There was no memory.
    Memory,
}

impl From<AllocError> for ScriptError {
    ghost from_gives = { λ _ e. e ≡ Memory };

    fn from(_e: AllocError) -> ScriptError {
        ScriptError::Memory
    }
}

impl<T: Drop> From<AllocFailed<T>> for ScriptError {
    ghost from_gives = { λ _ e. e ≡ Memory };

    fn from(_e: AllocFailed<T>) -> ScriptError {
        ScriptError::Memory
    }
}

/// What is wrong with a statement, without its line.
#[derive(Clone, Copy, Debug, PartialEq, Eq)]
pub(crate) enum Fault {
    Word,
    Number,
    Register,
    Variable,
    Shape,
    Block,
    Deep,
    Long,
}

impl Fault {
    ghost use Rattle.hk_script.specs.Texts.{fault_at};

    /// The fault, in this line.
    pub(crate) fn at(self, line: u32) -> ScriptError
        ensures { result ≡ fault_at line self }
    {
        match self {
            Fault::Word => ScriptError::Word(line),
            Fault::Number => ScriptError::Number(line),
            Fault::Register => ScriptError::Register(line),
            Fault::Variable => ScriptError::Variable(line),
            Fault::Shape => ScriptError::Shape(line),
            Fault::Block => ScriptError::Block(line),
            Fault::Deep => ScriptError::Deep(line),
            Fault::Long => ScriptError::Long,
        }
    }
}

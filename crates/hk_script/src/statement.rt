//! The statements of the script language.

use hk_words::Shape;

/// The variables of a job.
pub const VARIABLES: u8 = 8;

/// The most ticks that one `work` takes, and the most turns of one `repeat`.
pub const MAX_COUNT: u16 = 65_535;

/// The most statements of a script.
pub const MAX_STATEMENTS: usize = 1024;

/// The most blocks inside each other.
pub const MAX_DEPTH: usize = 16;

/// What an `if` tests.
#[derive(Clone, Copy, Debug, PartialEq, Eq)]
pub enum Test {
    /// The first variable is below the second.
    Less { left: u8, right: u8 },
    /// Two variables are equal.
    Equal { left: u8, right: u8 },
    /// A register is null.
    Null { reg: u8 },
    /// Two registers refer to one object, or both are null.
    Same { left: u8, right: u8 },
}

/// One statement of a script, as one line spells it. Variables are 0 to 7. Registers are 0 to 31 and fields 0 to 253, or
/// fewer, by the limits that the script was read with; a register that is written isn't register 0.
#[derive(Clone, Copy, Debug, PartialEq, Eq)]
pub enum Statement {
    /// Takes so many ticks.
    Work { ticks: u16 },
    /// Sets a variable to a number.
    Set { variable: u8, value: u64 },
    /// Sets a variable to another.
    Copy { variable: u8, other: u8 },
    /// Adds another variable, modulo 2^64.
    Add { variable: u8, other: u8 },
    /// Subtracts another variable, modulo 2^64.
    Sub { variable: u8, other: u8 },
    /// Sets a variable to the number of the job.
    Job { variable: u8 },
    /// Puts a variable out.
    Out { variable: u8 },
    /// Sets a variable to a number field of the object in a register.
    Get { variable: u8, reg: u8, field: u8 },
    /// Sets a number field to a variable.
    Put { reg: u8, field: u8, variable: u8 },
    /// Sets a register to a reference field.
    Load { dest: u8, reg: u8, field: u8 },
    /// Sets a reference field to a register.
    Store { reg: u8, field: u8, from: u8 },
    /// Sets a register to another.
    Move { dest: u8, from: u8 },
    /// Sets a register to null.
    Clear { dest: u8 },
    /// Sets a register to a new object.
    New { dest: u8, shape: Shape },
    /// Begins a block that is done where the test holds.
    If { test: Test },
    /// Parts an `if` block: what follows is done where the test doesn't hold.
    Else,
    /// Begins a block that is done so many times.
    Repeat { count: u16 },
    /// Ends the innermost block.
    End,
}

//! Lines of a report.
ghost use Rattle.std.specs.Prelude.{◌≡◌, ◌+◌, ◌≤◌, [], ◌∷◌, ◌++◌, length};
ghost use Rattle.std.specs.Fmt.{decimal};
ghost use Rattle.hk_io.specs.Line.{with_word, with_number, with_end};
ghost use Rattle.hk_io.specs.Limits.{longest_line};

use crate::buffer::Buffer;
use std::marker::Model;

/// The most bytes that a line has, with its newline.
pub const LINE_ROOM: usize = 160;

/// A line of at most [`LINE_ROOM`] bytes. It takes no memory.
#[derive(Drop)]
pub struct Line {
    held: Buffer<LINE_ROOM>,
}

impl Model for Line {
    ghost use Rattle.std.specs.Prelude.{ℕ, List};

    ghost Value = { List ℕ };

    ghost view = { λ line. line.held };
}

impl Line {
    /// The empty line.
    pub fn new() -> Line
        ensures { result ≡ [] }
    {
        Line {
            held: Buffer::new(),
        }
    }

    /// Adds a word, behind a space where the line isn't empty.
    pub fn word(&mut self, bytes: &[u8])
        requires { length (with_word self.old bytes.now) ≤ longest_line }
        ensures { self.new ≡ with_word self.old bytes.now }
    {
        if !self.held.as_slice().is_empty() {
            self.held.push(b" ");
        }
        self.held.push(bytes);
    }

    /// Adds a word, the decimal digits of a number.
    pub fn number(&mut self, value: u64)
        requires { length (with_number self.old value) ≤ longest_line }
        ensures { self.new ≡ with_number self.old value }
    {
        // the space alone
        self.word(b"");
        self.digits(value);
    }

    /// Adds the newline.
    pub fn end(&mut self)
        requires { length (with_end self.old) ≤ longest_line }
        ensures { self.new ≡ with_end self.old }
    {
        self.held.push(b"\n");
    }

    /// The bytes of the line.
    pub fn bytes(&self) -> &[u8]
        ensures value { result.now ≡ self.now }
        ensures room { length self.now ≤ longest_line }
    {
        self.held.as_slice()
    }

    fn digits(&mut self, value: u64)
        requires { length self.old + length (decimal value) ≤ longest_line }
        ensures { self.new ≡ self.old ++ decimal value }
    {
        self.held.push_number(value);
    }
}

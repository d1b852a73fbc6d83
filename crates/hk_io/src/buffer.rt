//! Bytes in a fixed array.
ghost use Rattle.std.specs.Prelude.{◌≡◌, ◌+◌, ◌≤◌, [], ◌++◌, length};
ghost use Rattle.std.specs.Fmt.{decimal};

use crate::spelling::{count_digits, write_digits};
use std::marker::Model;

/// At most `N` bytes, which stand in an array from its front.
#[derive(Drop)]
pub struct Buffer<const N: usize> {
    bytes: [u8; N],
    filled: usize,
}

impl<const N: usize> Model for Buffer<N> {
    ghost use Rattle.std.specs.Prelude.{ℕ, List, take, ◌≤◌};

    ghost Value = { List ℕ };

    ghost view = { λ buffer. take buffer.filled buffer.bytes };

    ghost invariant = { λ buffer. buffer.filled ≤ N };
}

impl<const N: usize> Buffer<N> {
    pub fn new() -> Self
        ensures { result ≡ [] }
    {
        Buffer {
            bytes: [0; N],
            filled: 0,
        }
    }

    pub fn as_slice(&self) -> &[u8]
        ensures value { result.now ≡ self.now }
        ensures room { length self.now ≤ N }
    {
        &self.bytes[..self.filled]
    }

    pub fn push(&mut self, bytes: &[u8])
        requires { length self.old + length bytes.now ≤ N }
        ensures { self.new ≡ self.old ++ bytes.now }
    {
        let end = self.filled + bytes.len();
        let all = &mut self.bytes[..];
        all[self.filled..end].copy_from_slice(bytes);
        self.filled = end;
    }

    pub fn push_number(&mut self, value: u64)
        requires { length self.old + length (decimal value) ≤ N }
        ensures { self.new ≡ self.old ++ decimal value }
    {
        let end = self.filled + count_digits(value);
        let all = &mut self.bytes[..];
        write_digits(value, all, end);
        self.filled = end;
    }

    pub fn clear(&mut self)
        ensures { self.new ≡ [] }
    {
        self.filled = 0;
    }
}

//! What lies beyond the blocks around a place, while the sums of a script are taken.

ghost use Rattle.std.specs.Prelude.{◌≡◌, ◌<◌, [], ◌∷◌, length};
ghost use Rattle.hk_script.specs.Cost.{beyond, nearest, outer_of};

use std::marker::Model;

/// What lies beyond a block: the sum of its `else` part, and of what follows its end.
#[derive(Clone, Copy, Debug, PartialEq, Eq)]
pub(crate) struct Beyond {
    pub(crate) other: u64,
    pub(crate) after: u64,
}

/// What lies beyond at most sixteen blocks, the innermost first.
#[derive(Debug, Drop)]
pub(crate) struct Beyonds {
    items: [Beyond; 16],
    depth: usize,
}

impl Model for Beyonds {
    ghost use Rattle.std.specs.Prelude.{List, reverse, take, ◌≤◌};
    ghost use Rattle.hk_script.specs.declared.beyond.Beyond.{Beyond};

    ghost Value = { List Beyond };

    ghost view = { λ b. reverse (take b.depth b.items) };

    ghost invariant = { λ b. b.depth ≤ 16 };
}

impl Beyonds {
    /// No block.
    pub(crate) fn new() -> Beyonds
        ensures { result ≡ [] }
    {
        Beyonds {
            items: [Beyond { other: 0, after: 0 }; 16],
            depth: 0,
        }
    }

    /// One block more, inside the others.
    pub(crate) fn push(&mut self, other: u64, after: u64)
        requires { length self.old < 16 }
        ensures { self.new ≡ beyond other after ∷ self.old }
    {
        self.items[self.depth] = Beyond { other, after };
        self.depth += 1;
    }

    /// Takes off the innermost block. Beyond none lies nothing.
    pub(crate) fn pop(&mut self) -> Beyond
        ensures value { result ≡ nearest self.old }
        ensures outer { self.new ≡ outer_of self.old }
    {
        if self.depth == 0 {
            return Beyond { other: 0, after: 0 };
        }
        self.depth -= 1;
        self.items[self.depth]
    }

    /// What lies beyond the innermost block. Beyond none lies nothing.
    pub(crate) fn nearest(&self) -> Beyond
        ensures { result ≡ nearest self.now }
    {
        if self.depth == 0 {
            return Beyond { other: 0, after: 0 };
        }
        self.items[self.depth - 1]
    }
}

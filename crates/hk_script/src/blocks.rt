//! The blocks that are open at a place of a script.

ghost use Rattle.std.specs.Prelude.{◌≡◌, [], ◌∷◌, length, OnOk, OnErr, MatchOption};
ghost use Rattle.hk_script.specs.Blocks.{open_block};
ghost use Rattle.hk_script.specs.Again.{again_of};

use std::alloc::{AllocError, Global};
use std::marker::Model;

/// What kind of block is open.
#[derive(Clone, Copy, Debug, PartialEq, Eq)]
pub(crate) enum Part {
    /// An `if`, before its `else`.
    Then,
    /// An `if`, after its `else`.
    Otherwise,
    /// A `repeat`.
    Turns,
}

/// A block that is open, with a mark of where it began: a line, or the place of a statement.
#[derive(Clone, Copy, Debug, PartialEq, Eq)]
pub(crate) struct Open {
    pub part: Part,
    pub mark: u32,
}

/// The open blocks, the innermost first.
#[derive(Debug, Drop)]
pub(crate) struct Blocks {
    items: Vec<Open>,
}

impl Model for Blocks {
    ghost use Rattle.std.specs.Prelude.{List, reverse};
    ghost use Rattle.hk_script.specs.declared.blocks.Open.{Open};

    ghost Value = { List Open };

    ghost view = { λ blocks. reverse blocks.items.items };
}

impl Blocks {
    /// No block.
    pub(crate) fn new(alloc: Global) -> Blocks
        ensures { result ≡ [] }
    {
        Blocks {
            items: Vec::new(alloc),
        }
    }

    /// How many blocks are open.
    pub(crate) fn depth(&self) -> usize
        ensures { result ≡ length self.now }
    {
        self.items.len()
    }

    /// Opens a block.
    pub(crate) fn push(&mut self, part: Part, mark: u32) -> Result<(), AllocError>
        ensures ok { OnOk result (self.new ≡ open_block part mark ∷ self.old) }
        ensures err { OnErr result (self.new ≡ self.old) }
    {
        self.items.push(Open { part, mark })?;
        Ok(())
    }

    /// The innermost block, which is open no longer.
    pub(crate) fn pop(&mut self) -> Option<Open>
        ensures { MatchOption result ((self.old ≡ []) × (self.new ≡ [])) (λ block. self.old ≡ block ∷ self.new) }
    {
        self.items.pop()
    }

    /// The mark of the innermost block, where it is a `repeat`.
    pub(crate) fn again(&self) -> Option<u64>
        ensures { result ≡ again_of self.now }
    {
        match self.items.last() {
            Some(
                Open {
                    part: Part::Turns,
                    mark,
                },
            ) => Some(u64::from(*mark)),
            _ => None,
        }
    }
}

ghost use Rattle.std.specs.Prelude.{◌≡◌, ℕ, ◌<◌, length, Option, None, IfOk, slice_index_or, slice_set};
ghost use Rattle.hk_model.specs.Heap.{first_registers};

use std::alloc::{AllocError, Global};
use std::marker::Model;

/// The registers of a task. Each holds null or a birth.
#[derive(Drop)]
pub struct Registers {
    cells: Vec<Option<usize>>,
}

impl Model for Registers {
    ghost use Rattle.std.specs.Prelude.{ℕ, List, Option};

    ghost Value = { List (Option ℕ) };

    ghost view = { λ r. r.cells.items };
}

impl Registers {
    /// Registers of which the first refers to birth 0, and the others are null.
    #[tactic(auto, using(crate::proofs::Heaps::first_registers_is))]
    pub fn new(alloc: Global, count: u8) -> Result<Registers, AllocError>
        requires { 0 < count }
        ensures { IfOk result (λ r. r ≡ first_registers count) }
    {
        let mut cells = vec![in alloc; None; usize::from(count)]?;
        cells[0] = Some(0);
        Ok(Registers { cells })
    }

    /// What a register holds.
    pub fn get(&self, reg: u8) -> Option<usize>
        requires { reg < length self.now }
        ensures { result ≡ slice_index_or self.now reg None }
    {
        self.cells[usize::from(reg)]
    }

    /// Writes a register.
    pub fn set(&mut self, reg: u8, birth: Option<usize>)
        requires { reg < length self.old }
        ensures { self.new ≡ slice_set self.old reg birth }
    {
        self.cells[usize::from(reg)] = birth;
    }
}

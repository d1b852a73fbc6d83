//! How a shared heap begins.
ghost use Rattle.std.specs.Prelude.{◌≡◌, ℕ, ◌+◌, ◌<◌, length, slice_index_or, IfOk, map};
ghost use Rattle.std.specs.List.{range_with_len};
ghost use Rattle.hk_words.specs.Geometry.{tasks};
ghost use Rattle.hk_core.specs.State as state;
ghost use Rattle.hk_table.specs.Knows.{keeper};
ghost use Rattle.hk_table.specs.Seats.{the_keeper, keeper_from};
ghost use Rattle.hk_table.specs.Rule.{fresh, first_view};
ghost use Rattle.hk_table.specs.Passes.{IsPassOf, known};
ghost use Rattle.hk_table.specs.Ends.{Opens};

use crate::cuts::NextPass;
use crate::heap::{Heap, Seat};
use crate::keeper::{Keeper, first_spot};
use crate::pass::Pass;
use atomic_table::Table;
use hk_core::opening_row;
use hk_words::{Geometry, Memory, pack_reference};
use std::alloc::Global;

/// A register at the start: register 0 holds the board, and the others are null.
#[tactic(auto, unfolding(hk_core::specs::State::opening_register))]
fn first_register(g: &Geometry, reg: u8) -> u64
    ensures { result ≡ state.opening_register g.now reg }
{
    if reg == 0 {
        pack_reference(0, g.board())
    } else {
        0
    }
}

/// The registers of a task at the start.
fn first_registers(alloc: Global, g: &Geometry) -> Result<Vec<u64>, Memory>
    ensures { IfOk result (λ registers. registers.items ≡ map (state.opening_register g.now) (range_with_len 0 g.now.registers)) }
{
    let mut registers = Vec::with_capacity(alloc, g.registers() as usize)?;
    for reg in 0..g.registers() {
        registers.push(first_register(g, reg))?;
    }
    Ok(registers)
}

impl Heap {
    /// The heap at the start, with one pass for each task, in the order of their seats, and the collector's keeper. Only
    /// this call takes memory; where it finds too little, nothing is left behind.
    pub fn open(alloc: Global, g: Geometry) -> Result<(Heap, Vec<Pass>, Keeper), Memory>
        ensures { IfOk result (λ r. Opens g r.0 r.1.items r.2) }
    {
        let row = opening_row(alloc, &g)?;
        let (table, mut seat) = Table::of_words(alloc, row.as_slice(), &g)?;
        let heap = Heap { table, geometry: g };
        let passes = heap.first_passes(alloc, &mut seat)?;
        let keeper = Keeper {
            seat,
            spot: first_spot(),
        };
        Ok((heap, passes, keeper))
    }

    /// The passes of all seats, cut off from the keeper's seat.
    fn first_passes(&self, alloc: Global, source: &mut Seat) -> Result<Vec<Pass>, Memory>
        requires table { source.old.table_id ≡ self.now.table.shared.table_id }
        requires keeper { source.old.me.0 ≡ first_view self.now.geometry }
        ensures table { source.new.table_id ≡ source.old.table_id }
        ensures mine { source.new.me.1 ≡ source.old.me.1 }
        ensures keeper { IfOk result (λ _. source.new.me.0.knows ≡ keeper self.now.geometry (keeper_from (tasks self.now.geometry))) }
        ensures count { IfOk result (λ passes. length passes.items ≡ tasks self.now.geometry) }
        ensures passes { IfOk result (λ passes. (seat : ℕ) (d : Pass) → seat < tasks self.now.geometry
            → IsPassOf self.now (slice_index_or passes.items seat d) × (known (slice_index_or passes.items seat d) ≡ fresh self.now.geometry seat)) }
    {
        let count = self.geometry.tasks();
        let mut passes = Vec::with_capacity(alloc, count as usize)?;
        for number in 0..count {
            let registers = first_registers(alloc, &self.geometry)?;
            let pass = self.next_pass(source, number, registers);
            passes.push(pass)?;
        }
        Ok(passes)
    }

    /// The pass of the next seat, cut off from the keeper's seat.
    fn next_pass(&self, source: &mut Seat, number: u8, registers: Vec<u64>) -> Pass
        requires table { source.old.table_id ≡ self.now.table.shared.table_id }
        requires keeper { source.old.me.0.knows ≡ keeper self.now.geometry (keeper_from number) }
        requires some { number < tasks self.now.geometry }
        requires registers { registers.items ≡ (fresh self.now.geometry number).registers }
        ensures pass { IsPassOf self.now result × (known result ≡ fresh self.now.geometry number) }
        ensures table { source.new.table_id ≡ source.old.table_id }
        ensures mine { source.new.me.1 ≡ source.old.me.1 }
        ensures keeper { source.new.me.0.knows ≡ keeper self.now.geometry (keeper_from (number + 1)) }
    {
        let seat = self.table.shared.split_seat::<NextPass>(source);
        Pass {
            seat,
            number,
            high: number < self.geometry.high(),
            registers,
            begun: 0,
        }
    }
}

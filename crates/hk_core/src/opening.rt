//! The state of the machine at the start.
ghost use Rattle.std.specs.Prelude.{◌≡◌, ◌+◌, ◌*◌, ◌<◌, IfOk, map, replicate};
ghost use Rattle.std.specs.List.{range_with_len};
ghost use Rattle.hk_words.specs.Geometry.{tasks, numbers, list_length, row_length};
ghost use Rattle.hk_words.specs.Row.{slot_at};
ghost use Rattle.hk_core.specs.State as state;
ghost use Rattle.hk_core.specs.State.{idle, opening_row, opening_spot, opening_header, opening_mark, opening_entry, opening_register};

use crate::{Flight, Line, Spot};
use hk_model::Memory;
use hk_words::{Geometry, pack_header, pack_reference, pack_w0};
use std::alloc::{AllocError, Global};

/// The row of words at the start: cycle 1, no word used, and the board alone at the first word of space 1.
///
/// [`Memory`] where there is no memory for it.
#[tactic(auto, unfolding(crate::specs::State::opening_row))]
pub fn opening_row(alloc: Global, g: &Geometry) -> Result<Vec<u64>, Memory>
    ensures { IfOk result (λ row. row.items ≡ state.opening_row g.now) }
{
    let mut row = Vec::with_capacity(alloc, g.words() as usize)?;
    for index in 0..g.words() {
        row.push(opening_word(g, index))?;
    }
    Ok(row)
}

/// The flights at the start: every seat is idle.
pub fn opening_flights(alloc: Global, g: &Geometry) -> Result<Vec<Flight>, AllocError>
    ensures { IfOk result (λ flights. flights.items ≡ map idle (range_with_len 0 (tasks g.now))) }
{
    let mut flights = Vec::with_capacity(alloc, g.tasks() as usize)?;
    for seat in 0..g.tasks() {
        flights.push(Flight::idle(seat))?;
    }
    Ok(flights)
}

/// The begun calls of each seat at the start: none.
pub fn opening_begun(alloc: Global, g: &Geometry) -> Result<Vec<u32>, AllocError>
    ensures { IfOk result (λ begun. begun.items ≡ replicate (tasks g.now) 0) }
{
    vec![in alloc; 0; g.tasks() as usize]
}

/// The collector at the start.
#[tactic(auto, unfolding(crate::specs::State::opening_spot))]
pub fn opening_spot() -> Spot
    ensures { result ≡ state.opening_spot }
{
    Spot {
        line: Line::Rest,
        cycle: 1,
        scan: 0,
        entries: 0,
        first: 0,
        item: 0,
        cell: 0,
        offset: 0,
        spent: 0,
    }
}

/// A word of the row at the start, by its index.
#[tactic(auto, unfolding(crate::specs::State::opening_word, hk_words::specs::Row::slot_at))]
fn opening_word(g: &Geometry, index: u32) -> u64
    requires { index < row_length g.now }
    ensures { result ≡ state.opening_word g.now (slot_at g.now index) }
{
    if index == g.w0_at() {
        pack_w0(0, 0, 1)
    } else if index == g.w1_at() {
        0
    } else if index < g.mark_at(0) {
        opening_header(g, index - g.header_at(0))
    } else if index < g.frame_at(0) {
        opening_mark(g, index - g.mark_at(0))
    } else if index < g.register_at(0, 0) {
        0
    } else if index < g.entry_at(0, 0) {
        opening_register(g, (index - g.register_at(0, 0)) % u32::from(g.registers()))
    } else if index < g.space_at(1) {
        let entry = index - g.entry_at(0, 0);
        let length = g.alloc() / 2;
        opening_entry(g, entry / length, entry % length)
    } else {
        0
    }
}

/// The board stands at the first word of space 1, and the other numbers have no place.
#[tactic(auto, unfolding(crate::specs::State::opening_header))]
fn opening_header(g: &Geometry, number: u32) -> u64
    ensures { result ≡ opening_header g.now number }
{
    if number == 0 {
        pack_header(0, g.place_at(1, 0), 0)
    } else {
        0
    }
}

/// The board is marked for cycle 1, as are the numbers of its list; those of list 0 are marked for cycle 2.
#[tactic(auto, unfolding(crate::specs::State::opening_mark))]
fn opening_mark(g: &Geometry, number: u32) -> u64
    ensures { result ≡ opening_mark g.now number }
{
    let length = g.alloc() / 2;
    if number < length + 1 {
        1
    } else if number < 2 * length + 1 {
        2
    } else {
        0
    }
}

/// Register 0 of each task holds the board, and the others are null.
#[tactic(auto, unfolding(crate::specs::State::opening_register))]
fn opening_register(g: &Geometry, reg: u32) -> u64
    ensures { result ≡ opening_register g.now reg }
{
    if reg == 0 {
        pack_reference(0, g.board())
    } else {
        0
    }
}

/// List 1 has the numbers after the board, and list 0 those after them.
#[tactic(auto, unfolding(crate::specs::State::opening_entry))]
fn opening_entry(g: &Geometry, list: u32, entry: u32) -> u64
    requires { entry < list_length g.now }
    ensures { result ≡ opening_entry g.now list entry }
{
    let number = if list == 1 {
        entry + 1
    } else {
        g.alloc() / 2 + entry + 1
    };
    u64::from(number)
}

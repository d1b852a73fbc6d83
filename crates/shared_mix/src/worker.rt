//! A pass at work: rounds of a fixed mixture of calls, drawn one after another.
ghost use Rattle.std.specs.Prelude.{◌≡◌, ◌<◌};
ghost use Rattle.hk_table.specs.Passes.{IsPassOf};

use crate::draws::draws_of_seat;
use crate::tally::Tally;
use hk_table::{Heap, HeapError, Pass, Steps};
use hk_words::{Draws, Shape};
use std::sync::atomic::{AtomicBool, Ordering};
use std::sync::ledger::Ledger;

/// An object like the board: eight reference fields and four number fields.
const HOME: Shape = Shape { refs: 8, nums: 4 };

/// A leaf: two numbers.
const LEAF: Shape = Shape { refs: 0, nums: 2 };

/// The register of the board.
const BOARD: u8 = 0;

/// The register of the pass's own object.
const OWN: u8 = 1;

/// The register of a leaf.
const FIRST: u8 = 2;

/// The register of another leaf.
const SECOND: u8 = 3;

/// The register of what was loaded last.
const LOADED: u8 = 4;

/// The register of a copy.
const COPY: u8 = 5;

/// Which object the calls go through.
#[derive(Clone, Copy, Debug, PartialEq, Eq)]
pub enum Home {
    /// The board, which all passes share.
    Board,
    /// An object of the pass's own.
    Own,
}

/// A pass with its draws and its tally.
#[derive(Drop)]
pub struct Worker {
    pub pass: Pass,
    home: u8,
    makes: bool,
    draws: Draws,
    tally: Tally,
}

impl Worker {
    /// A pass that hasn't begun. One that makes leaves needs the collector beside it.
    pub fn new(pass: Pass, home: Home, makes: bool) -> Worker
        ensures pass { result.pass ≡ pass }
        ensures home { result.home < 8 }
    {
        let draws = draws_of_seat(pass.seat());
        let home = match home {
            Home::Board => BOARD,
            Home::Own => OWN,
        };
        Worker {
            pass,
            home,
            makes,
            draws,
            tally: Tally::default(),
        }
    }

    pub fn tally(&self) -> Tally {
        self.tally
    }

    /// Makes the pass's own object and two leaves, and lets each reference field that the calls go through refer to one.
    pub fn prepare<L: Ledger>(&mut self, heap: &Heap, steps: &mut Steps<L>)
        requires pass { IsPassOf heap.now self.old.pass }
        requires registers { heap.now.geometry.registers ≡ 8 }
        requires home { self.old.home < 8 }
        ensures pass { IsPassOf heap.now self.new.pass }
        ensures home { self.new.home < 8 }
    {
        self.make(heap, OWN, HOME, steps);
        self.make(heap, FIRST, LEAF, steps);
        self.make(heap, SECOND, LEAF, steps);
        for field in 0..8 {
            self.store(heap, field, FIRST, steps);
        }
    }

    /// So many rounds, or fewer where it is told to stop.
    pub fn run<L: Ledger>(
        &mut self,
        heap: &Heap,
        rounds: u64,
        stop: &AtomicBool,
        steps: &mut Steps<L>,
    )
        requires pass { IsPassOf heap.now self.old.pass }
        requires registers { heap.now.geometry.registers ≡ 8 }
        requires home { self.old.home < 8 }
        ensures pass { IsPassOf heap.now self.new.pass }
    {
        for _ in 0..rounds {
            if stop.load(Ordering::SeqCst) {
                return;
            }
            self.round(heap, steps);
        }
    }

    /// One round: of 100 draws 35 read a number, 20 write one, 15 load a leaf and read a number of it, 10 store a leaf, 10
    /// copy a register, and 10 clear one; where leaves are made, 5 of these 10 make one and store it.
    fn round<L: Ledger>(&mut self, heap: &Heap, steps: &mut Steps<L>)
        requires pass { IsPassOf heap.now self.old.pass }
        requires registers { heap.now.geometry.registers ≡ 8 }
        requires home { self.old.home < 8 }
        ensures pass { IsPassOf heap.now self.new.pass }
        ensures home { self.new.home < 8 }
    {
        match self.draws.below(100) {
            0..35 => {
                let field = self.draws.below(4) as u8;
                self.get(heap, self.home, field, steps);
            }
            35..55 => {
                let field = self.draws.below(4) as u8;
                let value = self.draws.below(1000);
                self.put(heap, field, value, steps);
            }
            55..70 => {
                let field = self.draws.below(8) as u8;
                self.load(heap, field, steps);
                self.get(heap, LOADED, 0, steps);
            }
            70..80 => {
                let field = self.draws.below(8) as u8;
                let from = if self.draws.below(2) == 0 {
                    FIRST
                } else {
                    SECOND
                };
                self.store(heap, field, from, steps);
            }
            80..90 => self.copy(heap, steps),
            90..95 if self.makes => {
                let field = self.draws.below(8) as u8;
                self.make(heap, FIRST, LEAF, steps);
                self.store(heap, field, FIRST, steps);
            }
            _ => self.clear(heap, steps),
        }
    }

    fn get<L: Ledger>(&mut self, heap: &Heap, reg: u8, field: u8, steps: &mut Steps<L>)
        requires pass { IsPassOf heap.now self.old.pass }
        requires registers { heap.now.geometry.registers ≡ 8 }
        requires reg { reg < 8 }
        ensures pass { IsPassOf heap.now self.new.pass }
        ensures home { self.new.home ≡ self.old.home }
    {
        self.tally.gets = self.tally.gets.wrapping_add(1);
        match heap.get(&mut self.pass, reg, field, steps) {
            Ok(number) => self.tally.read(number),
            Err(error) => self.failed(error),
        }
    }

    fn put<L: Ledger>(&mut self, heap: &Heap, field: u8, value: u64, steps: &mut Steps<L>)
        requires pass { IsPassOf heap.now self.old.pass }
        requires registers { heap.now.geometry.registers ≡ 8 }
        requires home { self.old.home < 8 }
        ensures pass { IsPassOf heap.now self.new.pass }
        ensures home { self.new.home ≡ self.old.home }
    {
        self.tally.puts = self.tally.puts.wrapping_add(1);
        let done = heap.put(&mut self.pass, self.home, field, value, steps);
        self.ended(done);
    }

    fn load<L: Ledger>(&mut self, heap: &Heap, field: u8, steps: &mut Steps<L>)
        requires pass { IsPassOf heap.now self.old.pass }
        requires registers { heap.now.geometry.registers ≡ 8 }
        requires home { self.old.home < 8 }
        ensures pass { IsPassOf heap.now self.new.pass }
        ensures home { self.new.home ≡ self.old.home }
    {
        self.tally.loads = self.tally.loads.wrapping_add(1);
        let done = heap.load(&mut self.pass, LOADED, self.home, field, steps);
        self.ended(done);
    }

    fn store<L: Ledger>(&mut self, heap: &Heap, field: u8, from: u8, steps: &mut Steps<L>)
        requires pass { IsPassOf heap.now self.old.pass }
        requires registers { heap.now.geometry.registers ≡ 8 }
        requires home { self.old.home < 8 }
        requires from { from < 8 }
        ensures pass { IsPassOf heap.now self.new.pass }
        ensures home { self.new.home ≡ self.old.home }
    {
        self.tally.stores = self.tally.stores.wrapping_add(1);
        let done = heap.store(&mut self.pass, self.home, field, from, steps);
        self.ended(done);
    }

    fn copy<L: Ledger>(&mut self, heap: &Heap, steps: &mut Steps<L>)
        requires pass { IsPassOf heap.now self.old.pass }
        requires registers { heap.now.geometry.registers ≡ 8 }
        ensures pass { IsPassOf heap.now self.new.pass }
        ensures home { self.new.home ≡ self.old.home }
    {
        self.tally.moves = self.tally.moves.wrapping_add(1);
        let done = heap.shift(&mut self.pass, COPY, LOADED, steps);
        self.ended(done);
    }

    fn clear<L: Ledger>(&mut self, heap: &Heap, steps: &mut Steps<L>)
        requires pass { IsPassOf heap.now self.old.pass }
        requires registers { heap.now.geometry.registers ≡ 8 }
        ensures pass { IsPassOf heap.now self.new.pass }
        ensures home { self.new.home ≡ self.old.home }
    {
        self.tally.clears = self.tally.clears.wrapping_add(1);
        let done = heap.clear(&mut self.pass, COPY, steps);
        self.ended(done);
    }

    fn make<L: Ledger>(&mut self, heap: &Heap, dest: u8, shape: Shape, steps: &mut Steps<L>)
        requires pass { IsPassOf heap.now self.old.pass }
        requires registers { heap.now.geometry.registers ≡ 8 }
        requires dest { (0 < dest) × (dest < 8) }
        ensures pass { IsPassOf heap.now self.new.pass }
        ensures home { self.new.home ≡ self.old.home }
    {
        self.tally.news = self.tally.news.wrapping_add(1);
        let done = heap.make(&mut self.pass, dest, shape, steps);
        self.ended(done);
    }

    /// Counts how a call ended.
    fn ended(&mut self, done: Result<(), HeapError>)
        ensures pass { self.new.pass ≡ self.old.pass }
        ensures home { self.new.home ≡ self.old.home }
    {
        if let Err(error) = done {
            self.failed(error);
        }
    }

    /// Counts a call that wasn't done.
    fn failed(&mut self, error: HeapError)
        ensures pass { self.new.pass ≡ self.old.pass }
        ensures home { self.new.home ≡ self.old.home }
    {
        match error {
            HeapError::Full { .. } => self.tally.full = self.tally.full.wrapping_add(1),
            HeapError::Nil | HeapError::Field | HeapError::Spent => {
                self.tally.refused = self.tally.refused.wrapping_add(1);
            }
        }
    }
}

//! Calls on the heap of one owner, one after another: in one piece each, or begun and stepped to their ends.
use crate::tally::Tally;
use hk_collect::OwnedHeap;
use hk_core::{Fault, Outcome, Step};
use hk_words::{Call, Geometry, MOST_PLACES, Reply, Shape};
use std::alloc::Global;

/// The seat whose calls are run, a low one.
const SEAT: u8 = 1;

/// How a call ended.
#[derive(Clone, Copy, Debug, PartialEq, Eq)]
pub enum End {
    /// The call was done, with this reply.
    Done(Reply),
    /// There was no room for the new object.
    Full,
    /// The call was not begun.
    Refused,
}

/// The heap of a high and a low task, whose board has eight reference fields and four numbers. None where there is no memory
/// for it.
pub fn open(alloc: Global) -> Option<OwnedHeap> {
    let g = Geometry::new(1024, 2048, 256, 1, 1, 8, 4).ok()?;
    OwnedHeap::open(alloc, g).ok()
}

impl End {
    /// How a call in one piece ended that replies no value.
    fn of(ended: Result<(), Fault>) -> End {
        match ended {
            Ok(()) => End::Done(Reply::Unit),
            Err(_) => End::Refused,
        }
    }
}

/// The calls of the seat, and the events of the collector.
pub trait Calls {
    /// The register of the seat is null.
    fn is_null(&self, reg: u8) -> bool;

    fn get(&mut self, reg: u8, field: u8) -> End;

    fn put(&mut self, reg: u8, field: u8, value: u64) -> End;

    fn load(&mut self, dest: u8, reg: u8, field: u8) -> End;

    fn store(&mut self, reg: u8, field: u8, from: u8) -> End;

    fn shift(&mut self, dest: u8, from: u8) -> End;

    fn clear(&mut self, dest: u8) -> End;

    fn make(&mut self, dest: u8, shape: Shape) -> End;

    /// So many events of the collector, each counted.
    fn collect(&mut self, events: u32, tally: &mut Tally);
}

/// The heap, each call in one piece.
#[derive(Drop)]
pub struct Pieces {
    pub heap: OwnedHeap,
}

impl Calls for Pieces {
    fn is_null(&self, reg: u8) -> bool {
        is_null(&self.heap, reg)
    }

    fn get(&mut self, reg: u8, field: u8) -> End {
        let g = self.heap.geometry();
        if SEAT >= g.tasks() || self.heap.flight(SEAT).place != 0 || reg >= g.registers() {
            return End::Refused;
        }
        match self.heap.get(SEAT, reg, field) {
            Ok(number) => End::Done(Reply::Num(number)),
            Err(_) => End::Refused,
        }
    }

    fn put(&mut self, reg: u8, field: u8, value: u64) -> End {
        let g = self.heap.geometry();
        if SEAT >= g.tasks() || self.heap.flight(SEAT).place != 0 || reg >= g.registers() {
            return End::Refused;
        }
        End::of(self.heap.put(SEAT, reg, field, value))
    }

    fn load(&mut self, dest: u8, reg: u8, field: u8) -> End {
        let g = self.heap.geometry();
        if SEAT >= g.tasks() || self.heap.flight(SEAT).place != 0 {
            return End::Refused;
        }
        if dest == 0 || dest >= g.registers() || reg >= g.registers() {
            return End::Refused;
        }
        End::of(self.heap.load(SEAT, dest, reg, field))
    }

    fn store(&mut self, reg: u8, field: u8, from: u8) -> End {
        let g = self.heap.geometry();
        if SEAT >= g.tasks() || self.heap.flight(SEAT).place != 0 {
            return End::Refused;
        }
        if reg >= g.registers() || from >= g.registers() {
            return End::Refused;
        }
        End::of(self.heap.store(SEAT, reg, field, from))
    }

    fn shift(&mut self, dest: u8, from: u8) -> End {
        let g = self.heap.geometry();
        if SEAT >= g.tasks() || self.heap.flight(SEAT).place != 0 {
            return End::Refused;
        }
        if dest == 0 || dest >= g.registers() || from >= g.registers() {
            return End::Refused;
        }
        End::of(self.heap.shift(SEAT, dest, from))
    }

    fn clear(&mut self, dest: u8) -> End {
        let g = self.heap.geometry();
        if SEAT >= g.tasks() || self.heap.flight(SEAT).place != 0 {
            return End::Refused;
        }
        if dest == 0 || dest >= g.registers() {
            return End::Refused;
        }
        End::of(self.heap.clear(SEAT, dest))
    }

    fn make(&mut self, dest: u8, shape: Shape) -> End {
        let g = self.heap.geometry();
        if SEAT >= g.tasks() || self.heap.flight(SEAT).place != 0 {
            return End::Refused;
        }
        if dest == 0 || dest >= g.registers() {
            return End::Refused;
        }
        match self.heap.make(SEAT, dest, shape) {
            Ok(Outcome::Done(reply)) => End::Done(reply),
            Ok(Outcome::Full { .. }) => End::Full,
            Err(_) => End::Refused,
        }
    }

    fn collect(&mut self, events: u32, tally: &mut Tally) {
        collect(&mut self.heap, events, tally);
    }
}

/// The heap, each call begun, and then step by step.
#[derive(Drop)]
pub struct Steps {
    pub heap: OwnedHeap,
}

impl Calls for Steps {
    fn is_null(&self, reg: u8) -> bool {
        is_null(&self.heap, reg)
    }

    fn get(&mut self, reg: u8, field: u8) -> End {
        run(&mut self.heap, Call::Get { reg, field })
    }

    fn put(&mut self, reg: u8, field: u8, value: u64) -> End {
        run(&mut self.heap, Call::Put { reg, field, value })
    }

    fn load(&mut self, dest: u8, reg: u8, field: u8) -> End {
        run(&mut self.heap, Call::Load { dest, reg, field })
    }

    fn store(&mut self, reg: u8, field: u8, from: u8) -> End {
        run(&mut self.heap, Call::Store { reg, field, from })
    }

    fn shift(&mut self, dest: u8, from: u8) -> End {
        run(&mut self.heap, Call::Move { dest, from })
    }

    fn clear(&mut self, dest: u8) -> End {
        run(&mut self.heap, Call::Clear { dest })
    }

    fn make(&mut self, dest: u8, shape: Shape) -> End {
        run(&mut self.heap, Call::New { dest, shape })
    }

    fn collect(&mut self, events: u32, tally: &mut Tally) {
        collect(&mut self.heap, events, tally);
    }
}

/// The register of the seat is null.
fn is_null(heap: &OwnedHeap, reg: u8) -> bool {
    let g = heap.geometry();
    if SEAT >= g.tasks() || reg >= g.registers() {
        return true;
    }
    heap.is_null(SEAT, reg)
}

/// So many events of the collector, each counted.
fn collect(heap: &mut OwnedHeap, events: u32, tally: &mut Tally) {
    for _event in 0..events {
        let work = heap.collect();
        tally.collected(work);
    }
}

/// A call of the seat, begun and stepped to its end.
fn run(heap: &mut OwnedHeap, call: Call) -> End {
    if !begin(heap, call) {
        return End::Refused;
    }
    for _place in 0..MOST_PLACES {
        match step(heap) {
            Some(Step::Going) => {}
            Some(Step::Ended(Outcome::Done(reply))) => return End::Done(reply),
            Some(Step::Ended(Outcome::Full { .. })) => return End::Full,
            None => return End::Refused,
        }
    }
    End::Refused
}

/// The begin of a call; whether it was begun.
fn begin(heap: &mut OwnedHeap, call: Call) -> bool {
    let g = heap.geometry();
    if SEAT >= g.tasks() || heap.flight(SEAT).place != 0 || !call.registers_fit(g.registers()) {
        return false;
    }
    match call {
        Call::Same { .. } | Call::IsNull { .. } => false,
        _ => heap.begin(SEAT, call).is_ok(),
    }
}

/// One step of the seat, where a call is in flight.
fn step(heap: &mut OwnedHeap) -> Option<Step> {
    if SEAT >= heap.geometry().tasks() || heap.flight(SEAT).place == 0 {
        return None;
    }
    Some(heap.step(SEAT))
}

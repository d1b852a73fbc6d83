//! The ring, with the turns of its two loops and of the collector.
use crate::calls::{is_null, run};
use hk_collect::OwnedHeap;
use hk_core::{Outcome, Work};
use hk_words::{Call, Geometry, Reply, Shape};
use std::alloc::Global;

/// The places of the ring: the reference fields of the board, each null or a message that waits.
pub const PLACES: u8 = 4;

/// A message: one number.
const MESSAGE: Shape = Shape { refs: 0, nums: 1 };

/// The words for new messages from one flip of the collector to the next.
const ALLOC: u32 = 64;

/// The events that the collector owes for each word of a new message.
const RATE: u32 = 11;

/// More events than a cycle of this heap has.
const CYCLE: u32 = 1000;

/// The seat of the fast loop, a high one.
const FAST: u8 = 0;

/// The seat of the slow loop, a low one.
const SLOW: u8 = 1;

/// The register of the board.
const BOARD: u8 = 0;

/// The register of a message in hand.
const HELD: u8 = 1;

/// A register that is never written, and so is null.
const NOTHING: u8 = 2;

/// What came of a message.
#[derive(Clone, Copy, Debug, PartialEq, Eq)]
pub enum Sent {
    /// It waits in the ring.
    Placed,
    /// Each place has a message that waits.
    RingFull,
    /// So many words were used, which left too few for it.
    NoRoom { words: u64 },
}

/// The ring on its heap.
#[derive(Drop)]
pub struct Ring {
    heap: OwnedHeap,
    send_at: u8,
    receive_at: u8,
}

impl Ring {
    /// An empty ring. None where there is no memory for its heap.
    pub fn open(alloc: Global) -> Option<Ring> {
        let geometry = Geometry::new(16, ALLOC, 16, 1, 1, PLACES, 0).ok()?;
        let heap = OwnedHeap::open(alloc, geometry).ok()?;
        Some(Ring {
            heap,
            send_at: 0,
            receive_at: 0,
        })
    }

    /// The fast loop's turn: a new message goes to the next place, where that is free, and the collector does what it owes
    /// for the words. None where a call was not begun.
    pub fn send(&mut self, number: u64) -> Option<Sent> {
        let field = self.send_at;
        self.load(FAST, field)?;
        if !is_null(&self.heap, FAST, HELD) {
            self.clear(FAST)?;
            return Some(Sent::RingFull);
        }
        if let Outcome::Full { words } = self.make()? {
            return Some(Sent::NoRoom { words });
        }
        let put = Call::Put {
            reg: HELD,
            field: 0,
            value: number,
        };
        run(&mut self.heap, FAST, put)?;
        self.store(FAST, field, HELD)?;
        self.clear(FAST)?;
        self.send_at = field.wrapping_add(1) % PLACES;
        self.collect(RATE * MESSAGE.words());
        Some(Sent::Placed)
    }

    /// The slow loop's turn: takes out the message that waits longest. None where none waits.
    pub fn receive(&mut self) -> Option<u64> {
        let field = self.receive_at;
        self.load(SLOW, field)?;
        if is_null(&self.heap, SLOW, HELD) {
            return None;
        }
        let got = run(
            &mut self.heap,
            SLOW,
            Call::Get {
                reg: HELD,
                field: 0,
            },
        )?;
        self.store(SLOW, field, NOTHING)?;
        self.clear(SLOW)?;
        self.receive_at = field.wrapping_add(1) % PLACES;
        match got {
            Outcome::Done(Reply::Num(number)) => Some(number),
            _ => None,
        }
    }

    /// New messages without the collector, each let go at once: the words used when one finds no room. None where all find room.
    pub fn flood(&mut self) -> Option<u64> {
        for _message in 0..ALLOC {
            let made = self.make()?;
            self.clear(FAST)?;
            if let Outcome::Full { words } = made {
                return Some(words);
            }
        }
        None
    }

    /// The collector goes on to its next flip, from which on no word is used. Whether it came there.
    pub fn recover(&mut self) -> bool {
        for _event in 0..CYCLE {
            match self.heap.collect() {
                Work::Flipped => return true,
                Work::LiveOver(_) | Work::Worn => return false,
                _ => {}
            }
        }
        false
    }

    /// So many events of the collector. Those of an attempt that a call has spoilt were in vain, and are done again.
    fn collect(&mut self, events: u32) {
        for _event in 0..events {
            if let Work::Lost(again) = self.heap.collect() {
                for _attempt in 0..again {
                    let _work = self.heap.collect();
                }
            }
        }
    }

    /// A new message in hand.
    fn make(&mut self) -> Option<Outcome> {
        let call = Call::New {
            dest: HELD,
            shape: MESSAGE,
        };
        run(&mut self.heap, FAST, call)
    }

    /// What a place has, in hand.
    fn load(&mut self, seat: u8, field: u8) -> Option<Outcome> {
        let call = Call::Load {
            dest: HELD,
            reg: BOARD,
            field,
        };
        run(&mut self.heap, seat, call)
    }

    /// A register's reference into a place.
    fn store(&mut self, seat: u8, field: u8, from: u8) -> Option<Outcome> {
        let call = Call::Store {
            reg: BOARD,
            field,
            from,
        };
        run(&mut self.heap, seat, call)
    }

    /// Nothing in hand.
    fn clear(&mut self, seat: u8) -> Option<Outcome> {
        run(&mut self.heap, seat, Call::Clear { dest: HELD })
    }
}

//! The mixture. Each field of the board holds a chain of links; a link has the next one in its first reference field and a
//! leaf in its second. The registers have parts of their own: the cursor is at a link of a chain, the mark at one that the
//! cursor was at.
use crate::calls::{Calls, End};
use crate::tally::Tally;
use hk_words::{Draws, Reply, Shape};

/// A link of a chain: the next one and a leaf, and two numbers.
const LINK: Shape = Shape { refs: 2, nums: 2 };

/// A small leaf: two numbers.
const SMALL: Shape = Shape { refs: 0, nums: 2 };

/// A large leaf: six numbers.
const LARGE: Shape = Shape { refs: 0, nums: 6 };

/// The chains, one for each reference field of the board.
const CHAINS: u8 = 8;

/// The links of each chain.
const LINKS: u8 = 6;

/// The events that the collector owes for a word of a new object.
const RATE: u32 = 11;

/// The register of the board.
const BOARD: u8 = 0;

/// The register of the link that the rounds are about.
const CURSOR: u8 = 1;

/// The register of a leaf in use.
const LEAF: u8 = 2;

/// The register of a link that the cursor was at.
const MARK: u8 = 3;

/// The register of a new link.
const FRESH: u8 = 4;

/// The register of the link after another one.
const NEXT: u8 = 5;

/// The register of what a copied link refers to.
const BEYOND: u8 = 6;

/// The reference field of a link for the next one.
const NEXT_FIELD: u8 = 0;

/// The reference field of a link for its leaf.
const LEAF_FIELD: u8 = 1;

/// The heap, the draws and the tally of a run.
#[derive(Drop)]
pub struct Mixture<C> {
    heap: C,
    draws: Draws,
    tally: Tally,
}

impl<C: Calls> Mixture<C> {
    pub fn new(heap: C) -> Mixture<C> {
        Mixture {
            heap,
            draws: Draws { state: 1 },
            tally: Tally::default(),
        }
    }

    pub fn tally(&self) -> Tally {
        self.tally
    }

    /// Builds the chains, each from its end on, with a small and a large leaf in turns.
    pub fn build(&mut self) {
        for chain in 0..CHAINS {
            for place in 0..LINKS {
                let leaf = if place % 2 == 0 { SMALL } else { LARGE };
                self.make(FRESH, LINK);
                self.load(NEXT, BOARD, chain);
                self.store(FRESH, NEXT_FIELD, NEXT);
                self.make(LEAF, leaf);
                self.put(LEAF, 0, u64::from(place));
                self.store(FRESH, LEAF_FIELD, LEAF);
                self.put(FRESH, 0, u64::from(chain));
                self.store(BOARD, chain, FRESH);
            }
        }
        self.clear(LEAF);
        self.clear(FRESH);
        self.clear(NEXT);
        self.load(CURSOR, BOARD, 0);
    }

    /// So many rounds.
    pub fn run(&mut self, rounds: u64) {
        for _round in 0..rounds {
            self.round();
        }
    }

    /// One round: of 100 draws 40 read a number, 15 write one, 25 walk, 5 read a leaf, 4 set the mark, 3 go back to it, 6
    /// make a leaf, and 2 copy a link.
    fn round(&mut self) {
        match self.draws.below(100) {
            0..40 => self.read_number(),
            40..55 => self.write_number(),
            55..80 => self.walk(),
            80..85 => self.read_leaf(),
            85..89 => self.copy(MARK, CURSOR),
            89..92 => self.go_back(),
            92..98 => self.make_leaf(),
            _ => self.copy_link(),
        }
    }

    /// Reads a number of the link at the cursor.
    fn read_number(&mut self) {
        let field = self.draws.below(2) as u8;
        self.get(CURSOR, field);
    }

    /// Writes a number of the link at the cursor.
    fn write_number(&mut self) {
        let field = self.draws.below(2) as u8;
        let value = self.draws.below(1000);
        self.put(CURSOR, field, value);
    }

    /// The cursor goes on to the next link, and after the last one to the first of some chain.
    fn walk(&mut self) {
        self.load(CURSOR, CURSOR, NEXT_FIELD);
        if self.heap.is_null(CURSOR) {
            let chain = self.draws.below(u64::from(CHAINS)) as u8;
            self.load(CURSOR, BOARD, chain);
        }
    }

    /// Reads a number of the leaf at the cursor.
    fn read_leaf(&mut self) {
        let field = self.draws.below(2) as u8;
        self.load(LEAF, CURSOR, LEAF_FIELD);
        self.get(LEAF, field);
    }

    /// The cursor goes back to the mark, which is then gone.
    fn go_back(&mut self) {
        if !self.heap.is_null(MARK) {
            self.copy(CURSOR, MARK);
            self.clear(MARK);
        }
    }

    /// The link at the cursor gets a new leaf.
    fn make_leaf(&mut self) {
        let leaf = if self.draws.below(2) == 0 {
            SMALL
        } else {
            LARGE
        };
        let value = self.draws.below(1000);
        self.make(LEAF, leaf);
        self.put(LEAF, 0, value);
        self.store(CURSOR, LEAF_FIELD, LEAF);
        self.clear(LEAF);
    }

    /// The link after the one at the cursor, if there is one, is replaced by a copy with the same leaf.
    fn copy_link(&mut self) {
        self.load(NEXT, CURSOR, NEXT_FIELD);
        if self.heap.is_null(NEXT) {
            return;
        }
        self.make(FRESH, LINK);
        let number = self.get(NEXT, 0);
        self.put(FRESH, 0, number);
        self.load(BEYOND, NEXT, LEAF_FIELD);
        self.store(FRESH, LEAF_FIELD, BEYOND);
        self.load(BEYOND, NEXT, NEXT_FIELD);
        self.store(FRESH, NEXT_FIELD, BEYOND);
        self.store(CURSOR, NEXT_FIELD, FRESH);
        self.clear(FRESH);
        self.clear(NEXT);
        self.clear(BEYOND);
    }

    fn get(&mut self, reg: u8, field: u8) -> u64 {
        self.tally.gets = self.tally.gets.wrapping_add(1);
        let end = self.heap.get(reg, field);
        match self.ended(end) {
            Some(Reply::Num(number)) => {
                self.tally.read(number);
                number
            }
            _ => 0,
        }
    }

    fn put(&mut self, reg: u8, field: u8, value: u64) {
        self.tally.puts = self.tally.puts.wrapping_add(1);
        let end = self.heap.put(reg, field, value);
        self.ended(end);
    }

    fn load(&mut self, dest: u8, reg: u8, field: u8) {
        self.tally.loads = self.tally.loads.wrapping_add(1);
        let end = self.heap.load(dest, reg, field);
        self.ended(end);
    }

    fn store(&mut self, reg: u8, field: u8, from: u8) {
        self.tally.stores = self.tally.stores.wrapping_add(1);
        let end = self.heap.store(reg, field, from);
        self.ended(end);
    }

    fn copy(&mut self, dest: u8, from: u8) {
        self.tally.moves = self.tally.moves.wrapping_add(1);
        let end = self.heap.shift(dest, from);
        self.ended(end);
    }

    fn clear(&mut self, dest: u8) {
        self.tally.clears = self.tally.clears.wrapping_add(1);
        let end = self.heap.clear(dest);
        self.ended(end);
    }

    /// Makes an object, and has the collector do the events that it owes for it.
    fn make(&mut self, dest: u8, shape: Shape) {
        self.tally.news = self.tally.news.wrapping_add(1);
        let end = self.heap.make(dest, shape);
        if self.ended(end).is_some() {
            self.heap.collect(RATE * shape.words(), &mut self.tally);
        }
    }

    /// Counts the end of a call: its reply, and None where it was refused or found no room.
    fn ended(&mut self, end: End) -> Option<Reply> {
        match end {
            End::Done(reply) => Some(reply),
            End::Full => {
                self.tally.full = self.tally.full.wrapping_add(1);
                None
            }
            End::Refused => {
                self.tally.refused = self.tally.refused.wrapping_add(1);
                None
            }
        }
    }
}

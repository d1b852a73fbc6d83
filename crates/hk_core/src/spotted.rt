//! What an event of the collector changes of its spot, value by value.
ghost use Rattle.std.specs.Prelude.{◌≡◌};

use crate::{Core, Line};

/// Setters for the collector alone: an event writes what it changes, and nothing else of the spot.
impl Core {
    /// Sets the line that the collector is at.
    pub fn set_line(&mut self, line: Line)
        ensures { self.new ≡ record self.old { spot = record self.old.spot { line = line } } }
    {
        self.spot.line = line;
    }

    /// Sets the scan offset.
    pub fn set_scan(&mut self, scan: u32)
        ensures { self.new ≡ record self.old { spot = record self.old.spot { scan = scan } } }
    {
        self.spot.scan = scan;
    }

    /// Sets the entries that were written on the list of the next cycle.
    pub fn set_entries(&mut self, entries: u32)
        ensures { self.new ≡ record self.old { spot = record self.old.spot { entries = entries } } }
    {
        self.spot.entries = entries;
    }

    /// Sets the frame word or the header that the open attempt loaded.
    pub fn set_first(&mut self, first: u64)
        ensures { self.new ≡ record self.old { spot = record self.old.spot { first = first } } }
    {
        self.spot.first = first;
    }

    /// Sets the reference of the object that is moved.
    pub fn set_item(&mut self, item: u64)
        ensures { self.new ≡ record self.old { spot = record self.old.spot { item = item } } }
    {
        self.spot.item = item;
    }

    /// Sets the register or cell that was loaded last.
    pub fn set_cell(&mut self, cell: u64)
        ensures { self.new ≡ record self.old { spot = record self.old.spot { cell = cell } } }
    {
        self.spot.cell = cell;
    }

    /// Sets the offset that was reserved last.
    pub fn set_offset(&mut self, offset: u64)
        ensures { self.new ≡ record self.old { spot = record self.old.spot { offset = offset } } }
    {
        self.spot.offset = offset;
    }

    /// Sets the events of the open attempt so far.
    pub fn set_spent(&mut self, spent: u32)
        ensures { self.new ≡ record self.old { spot = record self.old.spot { spent = spent } } }
    {
        self.spot.spent = spent;
    }
}

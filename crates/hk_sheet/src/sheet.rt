ghost use Rattle.std.specs.Prelude.{◌≡◌, min, MatchResult};

use crate::Arrivals;
use hk_rta::Timing;
use hk_script::Script;
use hk_words::{GeoError, Geometry, MAX_FIELDS, Shape};
use std::marker::Model;

/// The most ticks of a run, and the greatest period, deadline, cost, first arrival and step.
pub const MAX_TICKS: u64 = 16_777_216;

/// The greatest number that a sheet can give for a size of the heap, in words.
pub const MAX_SIZE: u64 = 1_000_000;

/// The greatest rate.
pub const MAX_RATE: u64 = 4_096;

/// The greatest number that a sheet can give for the fields of the board of one kind.
pub const MAX_BOARD: u64 = 255;

/// The most bytes of a name.
pub const MAX_NAME: usize = 16;

/// The most arrivals of a list.
pub const MAX_ARRIVALS: usize = 4_096;

/// The most bytes of a key that an error shows.
pub const MAX_KEY: usize = 80;

/// More tasks of a kind count as so many in the geometry, which has room for fewer.
pub const MAX_COUNTED: u64 = 255;

/// The name of a task: 1 to 16 bytes of `a` to `z`, `0` to `9` and `_`, a letter first. A contract sees the list of
/// the bytes.
#[derive(Debug, Drop)]
pub struct Name {
    pub items: Vec<u8>,
}

impl Model for Name {
    ghost use Rattle.std.specs.Prelude.{List, ℕ};

    ghost Value = { List ℕ };

    ghost view = { λ n. n.items.items };
}

/// The heap that a sheet asks for. Sizes are in words; a space has `live` words for evacuation and `alloc` words for
/// allocation, of which `reserve` are kept for the high tasks. Each word that is taken makes the collector owe `rate`
/// events. The board has `refs` reference fields and `nums` number fields. Each task has so many `registers`, and an
/// object at most so many `fields`: 8 and 62 in a sheet of version 1, and 2 to 32 and 254 in one of version 2.
#[derive(Clone, Copy, Debug, PartialEq, Eq)]
pub struct HeapKeys {
    pub live: u32,
    pub alloc: u32,
    pub reserve: u32,
    pub rate: u64,
    pub refs: u8,
    pub nums: u8,
    pub registers: u8,
    pub fields: u8,
}

/// A high task: its times in ticks, the most words that one of its jobs takes, how many ticks longer each job is delayed
/// than the one before, when its jobs arrive, and what each does.
#[derive(Debug, Drop)]
pub struct High {
    pub name: Name,
    pub timing: Timing,
    pub words: u64,
    pub lag: u64,
    pub arrivals: Arrivals,
    pub script: Script,
}

/// The high tasks, the most urgent first. A contract sees the list.
#[derive(Debug, Drop)]
pub struct Highs {
    pub items: Vec<High>,
}

impl Model for Highs {
    ghost use Rattle.std.specs.Prelude.{List};
    ghost use Rattle.hk_sheet.specs.declared.sheet.High.{High};

    ghost Value = { List High };

    ghost view = { λ h. h.items.items };
}

/// A low task: when its jobs arrive, and what each does.
#[derive(Debug, Drop)]
pub struct Low {
    pub name: Name,
    pub arrivals: Arrivals,
    pub script: Script,
}

/// The low tasks, the most urgent first. A contract sees the list.
#[derive(Debug, Drop)]
pub struct Lows {
    pub items: Vec<Low>,
}

impl Model for Lows {
    ghost use Rattle.std.specs.Prelude.{List};
    ghost use Rattle.hk_sheet.specs.declared.sheet.Low.{Low};

    ghost Value = { List Low };

    ghost view = { λ l. l.items.items };
}

/// A task sheet: a run's length in ticks, the heap, and the tasks.
#[derive(Debug, Drop)]
pub struct Sheet {
    pub ticks: u64,
    pub heap: HeapKeys,
    pub high: Highs,
    pub low: Lows,
}

/// How many tasks of a kind count in the geometry.
fn counted(tasks: usize) -> u8
    ensures { result ≡ min tasks 255 }
{
    (tasks as u64).min(MAX_COUNTED) as u8
}

impl Sheet {
    ghost use Rattle.hk_words.specs.Geometry.{first_error, HasSizes};
    ghost use Rattle.hk_sheet.specs.Faults.{sizes_of};
    ghost use Rattle.hk_sheet.specs.Valid.{IsHeap, IsSheet};

    /// The geometry of the sizes of the heap and of the tasks that use it, or the first reason why there is none.
    pub(crate) fn try_geometry(&self) -> Result<Geometry, GeoError>
        requires { IsHeap self.now.heap }
        ensures { MatchResult result (λ g. (first_error self.now.heap.fields (sizes_of self.now) ≡ None) × HasSizes g (sizes_of self.now)) (λ e. first_error self.now.heap.fields (sizes_of self.now) ≡ Some e) }
    {
        let heap = self.heap;
        let high = counted(self.high.items.len());
        let low = counted(self.low.items.len());
        if heap.fields == MAX_FIELDS {
            return Geometry::wide(
                heap.registers,
                heap.live,
                heap.alloc,
                heap.reserve,
                high,
                low,
                heap.refs,
                heap.nums,
            );
        }
        Geometry::new(
            heap.live,
            heap.alloc,
            heap.reserve,
            high,
            low,
            heap.refs,
            heap.nums,
        )
    }

    /// The geometry of the sizes of the heap and of the tasks that use it.
    pub fn geometry(&self) -> Geometry
        requires { IsSheet self.now }
        ensures { HasSizes result (sizes_of self.now) }
    {
        let heap = self.heap;
        Geometry::laid_out(
            (heap.live, heap.alloc, heap.reserve),
            (
                counted(self.high.items.len()),
                counted(self.low.items.len()),
            ),
            heap.registers,
            Shape {
                refs: heap.refs,
                nums: heap.nums,
            },
        )
    }
}

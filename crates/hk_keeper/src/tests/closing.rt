//! Heaps that are closed after some cycles, with the collector at any spot.
ghost use Rattle.std.specs.Prelude.{◌≡◌, ◌<◌, ◌≤◌};
ghost use Rattle.hk_table.specs.Passes.{IsKeeperOf};

use super::{close_all, open_two, until_flipped, useful};
use hk_table::{Heap, Keeper, Steps};
use hk_words::{Geometry, Shape};
use std::marker::Brand;
use std::process::Abort;
use std::sync::ledger::{Blank, Ledger};
use std::test::Fail;

/// Events after a flip, and the words that are reserved then. Of the high pass's frame 4 events come to the place for the
/// board's two words: the frame word, the board's register, its claim and its place; 9 more end the frame. Of the low pass's
/// frame 6 come to the place for the object's two: the frame word, the board's register in two, since it is claimed already,
/// the object's register, its claim and its place. With the link word, six null registers and the exchange that frame is done
/// after 27 events.
const CASES: [(u32, u64); 6] = [(1, 0), (3, 0), (4, 2), (18, 2), (19, 4), (27, 4)];

/// Three flips lead from cycle 1 to cycle 4, and so many events more stay in that.
fn collect_in_cycle_4<L: Ledger>(
    rt: &impl Abort,
    heap: &Heap,
    keeper: &mut Keeper,
    events: u32,
    steps: &mut Steps<L>,
)
    requires keeper { IsKeeperOf heap.now keeper.old }
    requires events { 1 ≤ events }
    ensures { IsKeeperOf heap.now keeper.new }
{
    let first = keeper.spot.cycle;
    until_flipped(rt, heap, keeper, 64, steps);
    until_flipped(rt, heap, keeper, 64, steps);
    until_flipped(rt, heap, keeper, 64, steps);
    let flipped = keeper.spot.cycle;
    useful(rt, heap, keeper, events, steps);
    assert_eq!(rt; [first, flipped, keeper.spot.cycle], [1, 4, 4]);
}

/// The low pass has an object of two words, like the board. After three flips and so many events more the heap is closed. Answers
/// the words that were reserved.
fn reserved_after<L: Ledger>(
    rt: &(impl Abort + AllocGlobal),
    events: u32,
    blank: Blank,
) -> Result<u64, Fail>
    requires events { 1 ≤ events }
    requires name { blank.name ≡ L.name }
    requires parts { blank.parts ≡ L.parts }
    requires some { 0 < L.parts }
{
    let g = Geometry::new(8, 16, 8, 1, 1, 1, 0)?;
    let shape = Shape::new(1, 0).ok_or("no shape")?;
    let (heap, high, mut low, mut keeper) = open_two(rt, g)?;
    let mut steps = Steps::<L>::new(blank);
    assert!(rt; heap.make(&mut low, 1, shape, &mut steps).is_ok());
    collect_in_cycle_4(rt, &heap, &mut keeper, events, &mut steps);
    let closed = close_all(rt, heap, vec![in rt.alloc(); high, low]?, keeper);
    Ok(closed.reserved())
}

#[test]
fn closed_in_a_cycle(rt: HostRuntime) -> Result<(), Fail> {
    for (events, reserved) in CASES {
        assert!(&rt; events > 0);
        assert_eq!(&rt;
            reserved_after::<Brand>(&rt, events, Blank::new(1))?,
            reserved,
            "after {events} events"
        );
    }
    Ok(())
}

//! Walks of the heap beside the measure of a cycle: each call runs whole, between two events of the collector.
use super::aids::{drawn_call, whole};
use crate::{OwnedHeap, Work};
use hk_core::{Line, Memory, Spot, Stage, reference_size};
use hk_words::{Draws, Geometry, frame_events, object_events};
use std::alloc::Global;
use std::process::Abort;
use std::test::Fail;

/// The most useful events of a cycle up to a spot.
fn most_useful(g: &Geometry, spot: &Spot) -> u64 {
    let live = u64::from(g.live());
    let alloc = u64::from(g.alloc());
    let numbers = u64::from(g.numbers());
    let frame = u64::from(frame_events(g.registers()));
    let frames = 1 + frame * u64::from(g.tasks());
    let spent = u64::from(spot.spent);
    let scan = frames + 5 * u64::from(spot.scan);
    let pass = 1 + frames + 5 * live;
    let sweep = pass + 2 * numbers;
    let clear = sweep + numbers + 3 * (alloc / 2);
    match spot.line {
        Line::Frame(seat) => 1 + frame * u64::from(seat),
        Line::Register { seat, .. } | Line::FrameTrade(seat) => 1 + frame * u64::from(seat) + spent,
        Line::Scan => scan,
        Line::Link => scan + 1,
        Line::Look => scan + 2,
        Line::Cell { .. } | Line::ObjectTrade => scan + 2 + spent,
        Line::Pass(number) => pass + 2 * u64::from(number),
        Line::PassHead(number) => pass + 2 * u64::from(number) + 1,
        Line::Sweep { number, stage } => {
            let at = sweep + u64::from(number) + 3 * u64::from(spot.entries);
            match stage {
                Stage::Write => at + 1,
                Stage::Mark => at - 1,
                _ => at,
            }
        }
        Line::Clear(word) => clear + u64::from(word),
        Line::Reset => clear + live + alloc,
        Line::Rest => clear + live + alloc + 1,
    }
}

/// The most events of an attempt at a spot.
fn most_lost(g: &Geometry, spot: &Spot) -> u32 {
    match spot.line {
        Line::FrameTrade(_) => frame_events(g.registers()),
        _ => object_events(reference_size(spot.item)),
    }
}

/// A heap, the useful events of its cycle so far, and how often the spaces were flipped and an attempt was lost.
#[derive(Drop)]
struct Walk {
    geometry: Geometry,
    heap: OwnedHeap,
    useful: u64,
    flips: u32,
    lost: u32,
}

impl Walk {
    fn open(alloc: Global, geometry: Geometry) -> Result<Walk, Memory> {
        Ok(Walk {
            geometry,
            heap: OwnedHeap::open(alloc, geometry)?,
            useful: 0,
            flips: 0,
            lost: 0,
        })
    }
}

/// One event of the collector. It waits for nobody, and keeps to the measure.
fn collect(rt: &impl Abort, walk: &mut Walk) {
    let before = walk.heap.spot();
    match walk.heap.collect() {
        Work::Useful => walk.useful = walk.useful.wrapping_add(1),
        Work::Flipped => {
            walk.useful = 1;
            walk.flips = walk.flips.wrapping_add(1);
        }
        Work::Lost(events) => {
            assert!(rt;
                events <= most_lost(&walk.geometry, &before),
                "a long attempt is lost"
            );
            assert!(rt; u64::from(events) <= walk.useful.wrapping_add(1));
            walk.useful = walk.useful.wrapping_add(1).wrapping_sub(u64::from(events));
            walk.lost = walk.lost.wrapping_add(1);
        }
        Work::LiveOver(_) | Work::Worn => {}
        Work::BusyFrame(_) | Work::BusyObject(_) | Work::Unlinked(_) | Work::Grey(_) => {
            panic!(rt; "an event waits for somebody")
        }
    }
    assert!(rt;
        walk.useful <= most_useful(&walk.geometry, &walk.heap.spot()),
        "more useful events than the bound of the spot"
    );
}

/// One collection with no call at all, counted by hand. The flip; the frame with its board, 1 + 4 + 7 + 1; the scan of the
/// board, 1 + 1 + 1 + 2 + 1; the scan that finds its end; the pass over 20 numbers, of which the board and the 8 of the
/// current list are marked for the cycle, 20 + 9; the sweep, which goes past the board and takes the next 8 numbers,
/// 1 + 4 * 8; the 24 words of the old space; and the reset.
#[test]
fn one_cycle(rt: HostRuntime) -> Result<(), Fail> {
    let g = Geometry::new(8, 16, 0, 1, 0, 1, 0)?;
    let mut walk = Walk::open(rt.alloc(), g)?;
    for _ in 0..108 {
        collect(&rt, &mut walk);
    }
    assert_eq!(rt; walk.heap.spot().line, Line::Rest);
    assert_eq!(rt; (walk.useful, walk.flips, walk.lost), (108, 1, 0));
    assert_eq!(rt; most_useful(&g, &walk.heap.spot()), 185);
    Ok(())
}

#[test]
fn whole_calls(rt: HostRuntime) -> Result<(), Fail> {
    for number in 1..4 {
        let g = Geometry::new(64, 64, 16, 2, 1, 2, 1)?;
        let mut walk = Walk::open(rt.alloc(), g)?;
        let mut draws = Draws { state: number };
        for _ in 0..20_000 {
            let seat = draws.below(24) as u8;
            if seat < 3 {
                let call = drawn_call(&mut draws, 7);
                whole(&rt, &mut walk.heap, seat, call);
            } else {
                collect(&rt, &mut walk);
            }
        }
        assert!(rt; walk.flips > 5 && walk.lost > 5, "in walk {number}");
    }
    Ok(())
}

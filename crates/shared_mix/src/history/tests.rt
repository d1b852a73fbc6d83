//! Histories of eight passes on threads, and the checker of histories on rows that were worked out by hand.
ghost use Rattle.std.specs.Prelude.{◌≡◌, IfOk};
ghost use Rattle.hk_words.specs.Geometry.{tasks};

use super::calls::Answer;
use super::order::order;
use super::record::{Access, Record};
use super::replay::replay;
use super::{Seen, shake};
use hk_model::Plain;
use hk_words::{Call, GeoError, Geometry, Reply, Shape};
use std::process::Abort;
use std::test::Fail;

/// The heap of four high tasks and four low ones.
fn geometry(live: u32, alloc: u32, reserve: u32) -> Result<Geometry, GeoError>
    ensures registers { IfOk result (λ g. g.registers ≡ 8) }
    ensures tasks { IfOk result (λ g. tasks g ≡ 8) }
{
    Geometry::new(live, alloc, reserve, 4, 4, 4, 4)
}

/// Each of 100,000 calls of each pass, and the one that named the board, was explained, and the heap was closed.
fn is_explained(rt: &impl Abort, seen: &Seen) {
    assert_eq!(rt; seen.calls, 800_001);
    assert!(rt; seen.ordered, "no order");
    assert_eq!(rt; seen.differs, None);
    assert!(rt; seen.refused > 0 && seen.reserved.is_some(), "{seen:?}");
}

#[test]
fn eight_passes_with_much_room(rt: HostRuntime) -> Result<(), Fail> {
    let g = geometry(4096, 4096, 512)?;
    let seen = shake(&rt, rt.alloc(), g, 10, 10_000)?;
    is_explained(&rt, &seen);
    assert!(&rt; seen.flips >= 2, "{seen:?}");
    Ok(())
}

#[test]
fn eight_passes_with_little_room(rt: HostRuntime) -> Result<(), Fail> {
    let g = geometry(2048, 128, 64)?;
    let seen = shake(&rt, rt.alloc(), g, 100, 1000)?;
    is_explained(&rt, &seen);
    assert!(&rt; seen.flips >= 2 && seen.full > 0, "{seen:?}");
    Ok(())
}

/// A read or a write of one field, by a seat, between two times.
fn on_field(seat: u8, writes: bool, value: u64, before: u64, after: u64) -> Record {
    Record {
        seat,
        call: Call::Clear { dest: 1 },
        answer: Answer::Replied(Reply::Unit),
        before,
        after,
        access: Some(Access {
            object: 1,
            field: 0,
            value,
            writes,
        }),
    }
}

#[test]
fn orders_of_reads_and_writes(rt: HostRuntime) -> Result<(), Fail> {
    let write = on_field(0, true, 1, 0, 1);
    let long_write = on_field(0, true, 1, 0, 9);
    let other_write = on_field(1, true, 2, 2, 8);
    let histories: [(&str, &[Record], bool); 7] = [
        (
            "read after the write",
            &[write, on_field(1, false, 1, 2, 3)],
            true,
        ),
        ("stale read", &[write, on_field(1, false, 0, 2, 3)], false),
        (
            "read of what nobody wrote",
            &[write, on_field(1, false, 7, 2, 3)],
            false,
        ),
        (
            "read beside the write",
            &[long_write, on_field(1, false, 0, 2, 3)],
            true,
        ),
        (
            "new, then old",
            &[
                long_write,
                on_field(1, false, 1, 2, 3),
                on_field(2, false, 0, 4, 5),
            ],
            false,
        ),
        (
            "two writes in the other order",
            &[
                long_write,
                other_write,
                on_field(2, false, 2, 4, 5),
                on_field(2, false, 1, 10, 11),
            ],
            true,
        ),
        (
            "first one write last, then the other",
            &[
                long_write,
                other_write,
                on_field(2, false, 1, 10, 11),
                on_field(3, false, 2, 12, 13),
            ],
            false,
        ),
    ];
    for (name, records, has) in histories {
        let places = order(rt.alloc(), records)?;
        assert_eq!(&rt;
            places.map(|places| places.len()),
            has.then_some(records.len()),
            "{name}"
        );
    }
    Ok(())
}

/// A number of the board that the plain heap hasn't, and a New that would have found room.
#[test]
fn answers_that_the_plain_heap_does_not_give(rt: HostRuntime) -> Result<(), Fail> {
    let g = geometry(4096, 128, 64)?;
    let get = Call::Get { reg: 0, field: 0 };
    let new = Call::New {
        dest: 1,
        shape: Shape::new(0, 1).ok_or("no shape")?,
    };
    for (seat, call, answer, agrees) in [
        (0, get, Answer::Replied(Reply::Num(0)), true),
        (0, get, Answer::Replied(Reply::Num(5)), false),
        (0, new, Answer::Full(127), true),
        (0, new, Answer::Full(126), false),
        (4, new, Answer::Full(63), true),
        (4, new, Answer::Full(62), false),
    ] {
        let record = Record {
            seat,
            call,
            answer,
            before: 0,
            after: 1,
            access: None,
        };
        let places = order(rt.alloc(), &[record])?.ok_or("no order")?;
        let plain = Plain::open(rt.alloc(), 8, g.board)?;
        let differs = replay(rt.alloc(), &g, plain, &[record], places.as_slice())?;
        assert_eq!(&rt; differs.is_none(), agrees, "{answer:?}");
    }
    Ok(())
}

//! Whole calls.
use super::{DONE, Row, play};
use crate::{Fault, Outcome};
use hk_words::{Call, Geometry, Reply, Shape};
use std::test::Fail;

const GET: Call = Call::Get { reg: 0, field: 0 };

const PUT: Call = Call::Put {
    reg: 0,
    field: 0,
    value: 7,
};

const LOAD: Call = Call::Load {
    dest: 1,
    reg: 0,
    field: 0,
};

fn store(from: u8) -> Call {
    Call::Store {
        reg: 0,
        field: 0,
        from,
    }
}

fn whole(seat: u8, call: Call, steps: u8, outcome: Outcome) -> Row {
    Row::Whole {
        seat,
        call,
        steps,
        outcome,
    }
}

#[test]
fn calls_end_at_the_last_places_of_their_rows(rt: HostRuntime) -> Result<(), Fail> {
    let g = Geometry::new(8, 16, 0, 1, 1, 0, 1)?;
    let rows = [
        whole(0, PUT, 3, DONE),
        whole(0, GET, 3, Outcome::Done(Reply::Num(7))),
        whole(0, Call::Move { dest: 1, from: 0 }, 3, DONE),
        Row::Same {
            seat: 0,
            regs: (0, 1),
        },
        whole(0, Call::Clear { dest: 1 }, 1, DONE),
        Row::IsNull { seat: 0, reg: 1 },
    ];
    play(&rt, rt.alloc(), g, &rows)?;
    Ok(())
}

/// Register 1 is null, and the board has one number field.
#[test]
fn refused_in_order(rt: HostRuntime) -> Result<(), Fail> {
    let g = Geometry::new(8, 16, 0, 1, 0, 0, 1)?;
    let rows = [
        Row::Refused {
            seat: 0,
            call: Call::Get { reg: 1, field: 5 },
            fault: Fault::Nil,
        },
        Row::Refused {
            seat: 0,
            call: Call::Get { reg: 0, field: 1 },
            fault: Fault::Field,
        },
        Row::Begun { seat: 0, call: GET },
    ];
    play(&rt, rt.alloc(), g, &rows)?;
    Ok(())
}

/// A Store of null and a Load of it, and a Store and a Load of the board: each goes through all places of its row.
#[test]
fn references_in_the_board(rt: HostRuntime) -> Result<(), Fail> {
    let g = Geometry::new(8, 16, 0, 1, 0, 1, 0)?;
    let rows = [
        whole(0, store(2), 7, DONE),
        whole(0, LOAD, 10, DONE),
        Row::IsNull { seat: 0, reg: 1 },
        Row::Differ {
            seat: 0,
            regs: (0, 1),
        },
        whole(0, store(0), 7, DONE),
        whole(0, LOAD, 10, DONE),
        Row::Same {
            seat: 0,
            regs: (0, 1),
        },
    ];
    play(&rt, rt.alloc(), g, &rows)?;
    Ok(())
}

/// Objects of two words: the low seat may use 8 of the 16 words, and leaves the reserve, and the high one takes it.
#[test]
fn full_by_seats(rt: HostRuntime) -> Result<(), Fail> {
    let g = Geometry::new(8, 16, 8, 1, 1, 1, 0)?;
    let shape = Shape::new(1, 0).ok_or("a shape")?;
    let make = Call::New { dest: 1, shape };
    let low = whole(1, make, 7, DONE);
    let high = whole(0, make, 7, DONE);
    let rows = [
        low,
        low,
        low,
        low,
        whole(1, make, 7, Outcome::Full { words: 8 }),
        high,
        high,
        high,
        high,
        whole(0, make, 7, Outcome::Full { words: 16 }),
    ];
    play(&rt, rt.alloc(), g, &rows)?;
    Ok(())
}

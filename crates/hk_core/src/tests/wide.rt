//! Machines with other numbers of registers than 8, and with large objects.
use super::{DONE, Row, play};
use crate::{Fault, Outcome};
use hk_words::{Call, Geometry, Reply, Shape};
use std::test::Fail;

fn num(value: u64) -> Outcome {
    Outcome::Done(Reply::Num(value))
}

fn whole(call: Call, steps: u8, outcome: Outcome) -> Row {
    Row::Whole {
        seat: 0,
        call,
        steps,
        outcome,
    }
}

fn get(reg: u8, field: u8) -> Call {
    Call::Get { reg, field }
}

fn put(reg: u8, field: u8, value: u64) -> Call {
    Call::Put { reg, field, value }
}

#[test]
fn two_registers(rt: HostRuntime) -> Result<(), Fail> {
    let g = Geometry::wide(2, 8, 16, 0, 1, 0, 1, 1)?;
    let load = Call::Load {
        dest: 1,
        reg: 0,
        field: 0,
    };
    let rows = [
        whole(put(0, 0, 9), 3, DONE),
        whole(get(0, 0), 3, num(9)),
        whole(load, 10, DONE),
        Row::IsNull { seat: 0, reg: 1 },
        whole(Call::Move { dest: 1, from: 0 }, 3, DONE),
        whole(get(1, 0), 3, num(9)),
    ];
    play(&rt, rt.alloc(), g, &rows)?;
    Ok(())
}

/// The board goes from the first register of a seat to its last, which lies beside the first one of the next seat.
#[test]
fn thirty_two_registers(rt: HostRuntime) -> Result<(), Fail> {
    let g = Geometry::wide(32, 8, 16, 0, 1, 1, 0, 1)?;
    let rows = [
        Row::IsNull { seat: 0, reg: 31 },
        whole(Call::Move { dest: 31, from: 0 }, 3, DONE),
        Row::Same {
            seat: 0,
            regs: (0, 31),
        },
        whole(put(31, 0, 4), 3, DONE),
        whole(get(0, 0), 3, num(4)),
        whole(Call::Clear { dest: 31 }, 1, DONE),
        Row::IsNull { seat: 0, reg: 31 },
        Row::Differ {
            seat: 1,
            regs: (0, 1),
        },
    ];
    play(&rt, rt.alloc(), g, &rows)?;
    Ok(())
}

/// An object of 100 reference fields and 154 number fields has 255 words, so two of them fit into 512 words.
#[test]
fn objects_of_254_fields(rt: HostRuntime) -> Result<(), Fail> {
    let g = Geometry::wide(32, 256, 512, 0, 1, 0, 1, 1)?;
    let shape = Shape::new(100, 154).ok_or("a shape")?;
    let make = |dest: u8| Call::New { dest, shape };
    let store = Call::Store {
        reg: 2,
        field: 99,
        from: 1,
    };
    let load = Call::Load {
        dest: 3,
        reg: 2,
        field: 99,
    };
    let rows = [
        whole(make(1), 7, DONE),
        whole(make(2), 7, DONE),
        whole(put(1, 153, 7), 3, DONE),
        whole(put(2, 0, 8), 3, DONE),
        whole(store, 7, DONE),
        whole(load, 10, DONE),
        Row::Same {
            seat: 0,
            regs: (1, 3),
        },
        whole(get(3, 153), 3, num(7)),
        whole(get(2, 153), 3, num(0)),
        Row::Refused {
            seat: 0,
            call: get(2, 154),
            fault: Fault::Field,
        },
        whole(make(4), 7, Outcome::Full { words: 510 }),
        Row::IsNull { seat: 0, reg: 4 },
    ];
    play(&rt, rt.alloc(), g, &rows)?;
    Ok(())
}

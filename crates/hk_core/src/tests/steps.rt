//! Steps of two seats in turn: a Put of the one between the places of a Get of the other. The Get reads at its second
//! place, so it answers the Put where that came before.
use super::{DONE, Row, play};
use crate::Outcome;
use hk_words::{Call, Geometry, Reply};
use std::test::Fail;

const BEGUN: Row = Row::Begun {
    seat: 0,
    call: Call::Get { reg: 0, field: 0 },
};

const GOING: Row = Row::Going { seat: 0 };

fn ended(value: u64) -> Row {
    Row::Ended {
        seat: 0,
        outcome: Outcome::Done(Reply::Num(value)),
    }
}

fn put(seat: u8, value: u64) -> Row {
    Row::Whole {
        seat,
        call: Call::Put {
            reg: 0,
            field: 0,
            value,
        },
        steps: 3,
        outcome: DONE,
    }
}

#[test]
fn put_before_the_first_place_of_a_get(rt: HostRuntime) -> Result<(), Fail> {
    let g = Geometry::new(8, 16, 0, 1, 1, 0, 1)?;
    let rows = [put(0, 5), BEGUN, put(1, 9), GOING, GOING, ended(9)];
    play(&rt, rt.alloc(), g, &rows)?;
    Ok(())
}

#[test]
fn put_before_the_second_place_of_a_get(rt: HostRuntime) -> Result<(), Fail> {
    let g = Geometry::new(8, 16, 0, 1, 1, 0, 1)?;
    let rows = [put(0, 5), BEGUN, GOING, put(1, 9), GOING, ended(9)];
    play(&rt, rt.alloc(), g, &rows)?;
    Ok(())
}

#[test]
fn put_before_the_last_place_of_a_get(rt: HostRuntime) -> Result<(), Fail> {
    let g = Geometry::new(8, 16, 0, 1, 1, 0, 1)?;
    let rows = [put(0, 5), BEGUN, GOING, GOING, put(1, 9), ended(5)];
    play(&rt, rt.alloc(), g, &rows)?;
    Ok(())
}

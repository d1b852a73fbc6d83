//! The begin of a call by the numbers that it looks at, and the row at the start.
use crate::{Fault, flight_by, opening_row, refusal_by};
use hk_words::{
    Call, Geometry, Shape, header_place, pack_reference, w0_cycle, w0_objects, w0_words,
};
use std::test::Fail;

const GET: Call = Call::Get { reg: 0, field: 0 };

const BEYOND: Call = Call::Get { reg: 0, field: 1 };

const CLEAR: Call = Call::Clear { dest: 1 };

/// On an object of one number field: want of calls goes before null, and null before a missing field.
#[test]
fn refused_by_numbers(rt: HostRuntime) -> Result<(), Fail> {
    let word = pack_reference(0, Shape::new(1, 1).ok_or("a shape")?);
    let rows = [
        (0, GET, word, None),
        (0, BEYOND, word, Some(Fault::Field)),
        (0, GET, 0, Some(Fault::Nil)),
        (0, BEYOND, 0, Some(Fault::Nil)),
        (0, CLEAR, 0, None),
        (1_073_741_823, GET, word, None),
        (1_073_741_824, GET, word, Some(Fault::Spent)),
        (1_073_741_824, GET, 0, Some(Fault::Spent)),
    ];
    for (begun, call, entered, want) in &rows {
        assert_eq!(rt;
            refusal_by(*begun, call, *entered),
            *want,
            "{begun} {call:?} {entered}"
        );
    }
    Ok(())
}

#[test]
fn begins_at_its_first_place(rt: HostRuntime) -> Result<(), Fail> {
    let store = Call::Store {
        reg: 0,
        field: 0,
        from: 1,
    };
    let flight = flight_by(3, store, 7, 9);
    assert_eq!(rt; (flight.seat, flight.call, flight.place), (3, store, 1));
    assert_eq!(rt; (flight.entered, flight.item), (7, 9));
    assert!(rt; !flight.claimer && !flight.full && !flight.raised);
    Ok(())
}

/// Cycle 1, no word used, and the board alone, at the first word of space 1; register 0 holds it.
#[test]
fn row_at_the_start(rt: HostRuntime) -> Result<(), Fail> {
    let g = Geometry::new(8, 16, 0, 1, 0, 1, 1)?;
    let row = opening_row(rt.alloc(), &g)?;
    let w0 = row.get(g.w0_at() as usize).ok_or("W0")?;
    assert_eq!(rt; (w0_words(*w0), w0_objects(*w0), w0_cycle(*w0)), (0, 0, 1));
    assert_eq!(rt; row.get(g.w1_at() as usize), Some(&0));
    let board = row.get(g.header_at(0) as usize).ok_or("header 0")?;
    assert_eq!(rt; header_place(*board), g.place_at(1, 0));
    assert_eq!(rt; row.get(g.header_at(1) as usize), Some(&0));
    assert_eq!(rt; row.get(g.mark_at(0) as usize), Some(&1));
    let reference = pack_reference(0, g.board());
    assert_eq!(rt; row.get(g.register_at(0, 0) as usize), Some(&reference));
    assert_eq!(rt; row.get(g.register_at(0, 1) as usize), Some(&0));
    assert_eq!(rt; row.len(), g.words() as usize);
    Ok(())
}

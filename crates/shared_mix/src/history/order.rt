//! An order of calls that overlapped, in which each read finds what was written last before it.
//!
//! It is sought field by field. At the end of each call the calls that are under way may have been done in any order; what
//! could have been done is kept as a list of states, each with the calls that have been done in it, one after another.
use super::record::{Access, Record};
use std::alloc::{AllocError, Global};

/// A place in the order, for a record. Calls on several fields, and those on none, have different times.
#[derive(Clone, Copy, Debug, PartialEq, Eq)]
pub struct Place {
    pub time: u64,
    pub rank: usize,
    pub record: usize,
}

/// The begin or the end of a call on a field.
#[derive(Clone, Copy, Debug, PartialEq, Eq)]
struct Mark {
    object: u64,
    field: u64,
    time: u64,
    ends: bool,
    record: usize,
}

/// What a field may hold now: the value, which seats' calls under way have been done, and the last of all that were.
#[derive(Clone, Copy, Debug, PartialEq, Eq)]
struct Possible {
    value: u64,
    done: u64,
    last: Option<usize>,
}

/// A call that has been done, before the end of another, after one that was done before.
#[derive(Clone, Copy, Debug, PartialEq, Eq)]
struct Doing {
    record: usize,
    time: u64,
    previous: Option<usize>,
}

/// The most states that are kept at once.
const MOST_STATES: usize = 65_536;

/// The search in one field after another.
#[derive(Drop)]
struct Search {
    under_way: Vec<usize>,
    possible: Vec<Possible>,
    doings: Vec<Doing>,
    places: Vec<Place>,
}

/// The places of all records in such an order, and None where there is none.
pub fn order(alloc: Global, records: &[Record]) -> Result<Option<Vec<Place>>, AllocError> {
    let mut search = Search {
        under_way: Vec::new(alloc),
        possible: Vec::new(alloc),
        doings: Vec::new(alloc),
        places: Vec::new(alloc),
    };
    let mut at = None;
    for mark in marks(alloc, records)?.iter() {
        if at != Some((mark.object, mark.field)) {
            search.leave_field()?;
            search.enter_field()?;
            at = Some((mark.object, mark.field));
        }
        if !mark.ends {
            search.under_way.push(mark.record)?;
        } else if !search.end(alloc, records, mark.record, mark.time)? {
            return Ok(None);
        }
    }
    search.leave_field()?;
    search.place_others(records)?;
    let mut places = search.places;
    places.sort_unstable_by_key(|place| (place.time, place.rank));
    Ok(Some(places))
}

/// The begins and ends of the calls on fields, field by field, and then by their times.
fn marks(alloc: Global, records: &[Record]) -> Result<Vec<Mark>, AllocError> {
    let mut marks = Vec::new(alloc);
    for (number, record) in records.iter().enumerate() {
        if let Some(access) = record.access {
            for (time, ends) in [(record.before, false), (record.after, true)] {
                marks.push(Mark {
                    object: access.object,
                    field: access.field,
                    time,
                    ends,
                    record: number,
                })?;
            }
        }
    }
    marks.sort_unstable_by_key(|mark| (mark.object, mark.field, mark.time));
    Ok(marks)
}

/// The bit of a seat.
fn bit(seat: u8) -> u64 {
    1_u64.wrapping_shl(u32::from(seat))
}

/// The state after a call under way, where it may be done in this one.
fn done_in(state: Possible, seat: u8, access: Access) -> Option<Possible> {
    if state.done & bit(seat) != 0 || (!access.writes && access.value != state.value) {
        return None;
    }
    Some(Possible {
        value: access.value,
        done: state.done | bit(seat),
        last: None,
    })
}

impl Search {
    /// A field holds null or 0 at the start.
    fn enter_field(&mut self) -> Result<(), AllocError> {
        self.under_way.clear();
        self.doings.clear();
        self.possible.clear();
        self.possible.push(Possible {
            value: 0,
            done: 0,
            last: None,
        })?;
        Ok(())
    }

    /// Places the calls on the field, in an order that was found.
    fn leave_field(&mut self) -> Result<(), AllocError> {
        let mut at = self.possible.first().and_then(|state| state.last);
        for _ in 0..self.doings.len() {
            let Some(rank) = at else {
                return Ok(());
            };
            let Some(doing) = self.doings.get(rank) else {
                return Ok(());
            };
            at = doing.previous;
            let place = Place {
                time: doing.time,
                rank,
                record: doing.record,
            };
            self.places.push(place)?;
        }
        Ok(())
    }

    /// Places what goes through no field, or was refused: where it began.
    fn place_others(&mut self, records: &[Record]) -> Result<(), AllocError> {
        for (number, record) in records.iter().enumerate() {
            if record.access.is_none() {
                self.places.push(Place {
                    time: record.before,
                    rank: 0,
                    record: number,
                })?;
            }
        }
        Ok(())
    }

    /// A call ends, so that it must have been done. Whether it can have been.
    fn end(
        &mut self,
        alloc: Global,
        records: &[Record],
        ended: usize,
        time: u64,
    ) -> Result<bool, AllocError> {
        let Some(record) = records.get(ended) else {
            return Ok(false);
        };
        let own = bit(record.seat);
        let mut kept = Vec::new(alloc);
        for number in 0..MOST_STATES {
            let Some(state) = self.possible.get(number).copied() else {
                break;
            };
            if state.done & own != 0 {
                kept.push(Possible {
                    done: state.done & !own,
                    ..state
                })?;
            } else {
                self.do_any(records, state, time)?;
            }
        }
        self.possible = kept;
        self.under_way.retain(|other| *other != ended);
        Ok(!self.possible.is_empty())
    }

    /// Adds the states after each call that may be done in this one.
    fn do_any(&mut self, records: &[Record], state: Possible, time: u64) -> Result<(), AllocError> {
        for place in 0..self.under_way.len() {
            let Some(number) = self.under_way.get(place).copied() else {
                return Ok(());
            };
            let Some(record) = records.get(number) else {
                return Ok(());
            };
            let Some(access) = record.access else {
                return Ok(());
            };
            if let Some(after) = done_in(state, record.seat, access) {
                self.add(after, number, time, state.last)?;
            }
        }
        Ok(())
    }

    /// Adds a state, where there is none like it.
    fn add(
        &mut self,
        state: Possible,
        record: usize,
        time: u64,
        previous: Option<usize>,
    ) -> Result<(), AllocError> {
        let known = self.possible.iter().any(|other| other.value == state.value
            && other.done == state.done);
        if known {
            return Ok(());
        }
        let last = Some(self.doings.len());
        self.doings.push(Doing {
            record,
            time,
            previous,
        })?;
        self.possible.push(Possible { last, ..state })?;
        Ok(())
    }
}

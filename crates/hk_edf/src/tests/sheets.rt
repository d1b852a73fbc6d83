//! What sheets are answered.
use crate::admission::admit_edf;
use crate::refused::EdfRefused;
use hk_admit::Refused;
use hk_sheet::{Name, read};
use std::alloc::{AllocError, Global};
use std::test::Fail;

/// A sheet of two high tasks: `a` has cost 2, period and deadline 5, and `b` the period 7.
#[derive(Clone, Copy)]
pub(crate) struct Case {
    pub(crate) cost: u64,
    pub(crate) deadline: u64,
    pub(crate) jitter_a: u64,
    pub(crate) jitter_b: u64,
    pub(crate) told: Told,
}

/// What a sheet is answered: where it is admitted the numbers of its analysis, `work`, `attempt`, `busy` and `debt`. A name is
/// told by its first byte.
#[derive(Clone, Copy, Debug, PartialEq, Eq)]
pub(crate) enum Told {
    Fits(u64, u64, u64, u64),
    Busy,
    Jitter(u8),
    Over(u64),
    Other,
}

pub(crate) fn sheet_text(alloc: Global, case: &Case) -> Result<String, AllocError> {
    let (cost, deadline) = (case.cost, case.deadline);
    let (a, b) = (case.jitter_a, case.jitter_b);
    format!(in alloc;
        "version = 1\nticks = 14\n[heap]\nlive = 62\nalloc = 512\nreserve = 129\nrate = 11\nboard = [2, 2]\n[[high]]\nname = 'a'\nperiod = 5\ndeadline = 5\ncost = 2\nwords = 0\njitter = {a}\nfirst = 0\nevery = 5\nscript = 'work 2'\n[[high]]\nname = 'b'\nperiod = 7\ndeadline = {deadline}\ncost = {cost}\nwords = 0\njitter = {b}\nfirst = 0\nevery = 7\nscript = 'work 4'\n"
    )
}

fn first_byte(name: &Name) -> u8 {
    name.items.first().copied().unwrap_or(0)
}

fn told_of(refused: &EdfRefused) -> Told {
    match refused {
        EdfRefused::Demand(t) => Told::Over(*t),
        EdfRefused::Jitter(name) => Told::Jitter(first_byte(name)),
        EdfRefused::Heap(Refused::Busy) => Told::Busy,
        _ => Told::Other,
    }
}

fn answer(alloc: Global, case: &Case) -> Result<Told, AllocError> {
    let text = sheet_text(alloc, case)?;
    let Ok(sheet) = read(alloc, text.as_bytes()) else {
        return Ok(Told::Other);
    };
    match admit_edf(alloc, sheet) {
        Ok(c) => Ok(Told::Fits(c.work, c.attempt, c.busy, c.debt)),
        Err(refused) => Ok(told_of(&refused)),
    }
}

pub(crate) const FITS: Case = Case {
    cost: 4,
    deadline: 7,
    jitter_a: 0,
    jitter_b: 0,
    told: Told::Fits(4213, 0, 14, 0),
};

const CASES: &[Case] = &[
    FITS,
    Case {
        deadline: 5,
        told: Told::Over(5),
        ..FITS
    },
    Case {
        cost: 5,
        told: Told::Busy,
        ..FITS
    },
    // of two tasks with a jitter the first is told, and a jitter before too much that is due
    Case {
        jitter_a: 1,
        jitter_b: 2,
        told: Told::Jitter(b'a'),
        ..FITS
    },
    Case {
        deadline: 5,
        jitter_b: 1,
        told: Told::Jitter(b'b'),
        ..FITS
    },
    // and what the heap's check refuses before all
    Case {
        cost: 5,
        jitter_a: 1,
        told: Told::Busy,
        ..FITS
    },
];

#[test]
fn sheets(rt: HostRuntime) -> Result<(), Fail> {
    for case in CASES {
        let told = answer(rt.alloc(), case)?;
        assert_eq!(rt; told, case.told);
    }
    Ok(())
}

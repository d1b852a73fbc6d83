//! The registers that calls name.
use super::one_reference;
use crate::call::*;
use std::process::Abort;

/// A call, the register that it goes through, the one that it writes, and whether its registers are among eight.
#[derive(Clone, Copy, Debug, PartialEq, Eq)]
struct Case {
    call: Call,
    entered: Option<u8>,
    target: Option<u8>,
    fits: bool,
}

fn expect(rt: &impl Abort, case: Case) {
    let call = case.call;
    let found = Case {
        call,
        entered: call.entered(),
        target: call.target(),
        fits: call.registers_fit(8),
    };
    assert_eq!(rt; found, case);
}

const CASES: [Case; 22] = [
    Case {
        call: Call::Get { reg: 7, field: 61 },
        entered: Some(7),
        target: None,
        fits: true,
    },
    Case {
        call: Call::Get { reg: 8, field: 0 },
        entered: Some(8),
        target: None,
        fits: false,
    },
    Case {
        call: Call::Put {
            reg: 0,
            field: 255,
            value: u64::MAX,
        },
        entered: Some(0),
        target: None,
        fits: true,
    },
    Case {
        call: Call::Put {
            reg: 8,
            field: 0,
            value: 0,
        },
        entered: Some(8),
        target: None,
        fits: false,
    },
    Case {
        call: Call::Load {
            dest: 1,
            reg: 0,
            field: 9,
        },
        entered: Some(0),
        target: Some(1),
        fits: true,
    },
    Case {
        call: Call::Load {
            dest: 0,
            reg: 1,
            field: 0,
        },
        entered: Some(1),
        target: Some(0),
        fits: false,
    },
    Case {
        call: Call::Load {
            dest: 8,
            reg: 7,
            field: 0,
        },
        entered: Some(7),
        target: Some(8),
        fits: false,
    },
    Case {
        call: Call::Load {
            dest: 7,
            reg: 8,
            field: 0,
        },
        entered: Some(8),
        target: Some(7),
        fits: false,
    },
    Case {
        call: Call::Store {
            reg: 0,
            field: 9,
            from: 7,
        },
        entered: Some(0),
        target: None,
        fits: true,
    },
    Case {
        call: Call::Store {
            reg: 8,
            field: 0,
            from: 1,
        },
        entered: Some(8),
        target: None,
        fits: false,
    },
    Case {
        call: Call::Store {
            reg: 1,
            field: 0,
            from: 8,
        },
        entered: Some(1),
        target: None,
        fits: false,
    },
    Case {
        call: Call::Move { dest: 7, from: 0 },
        entered: None,
        target: Some(7),
        fits: true,
    },
    Case {
        call: Call::Move { dest: 0, from: 7 },
        entered: None,
        target: Some(0),
        fits: false,
    },
    Case {
        call: Call::Move { dest: 7, from: 8 },
        entered: None,
        target: Some(7),
        fits: false,
    },
    Case {
        call: Call::Clear { dest: 7 },
        entered: None,
        target: Some(7),
        fits: true,
    },
    Case {
        call: Call::Clear { dest: 0 },
        entered: None,
        target: Some(0),
        fits: false,
    },
    Case {
        call: Call::Clear { dest: 8 },
        entered: None,
        target: Some(8),
        fits: false,
    },
    Case {
        call: Call::Same { a: 0, b: 7 },
        entered: None,
        target: None,
        fits: true,
    },
    Case {
        call: Call::Same { a: 8, b: 0 },
        entered: None,
        target: None,
        fits: false,
    },
    Case {
        call: Call::Same { a: 0, b: 8 },
        entered: None,
        target: None,
        fits: false,
    },
    Case {
        call: Call::IsNull { reg: 0 },
        entered: None,
        target: None,
        fits: true,
    },
    Case {
        call: Call::IsNull { reg: 8 },
        entered: None,
        target: None,
        fits: false,
    },
];

#[test]
fn registers(rt: HostRuntime) {
    for case in CASES {
        expect(&rt, case);
    }
    let shape = one_reference(&rt);
    for (dest, fits) in [(1, true), (0, false), (255, false)] {
        let case = Case {
            call: Call::New { dest, shape },
            entered: None,
            target: Some(dest),
            fits,
        };
        expect(&rt, case);
    }
    assert!(rt; Call::Move { dest: 31, from: 31 }.registers_fit(32));
    assert!(rt; !Call::Clear { dest: 2 }.registers_fit(2));
}

//! Geometries: limits, refusals, the first of several refusals.
use crate::geometry::*;
use std::process::Abort;

/// The words for evacuation, for allocation and in reserve, the high and the low tasks, the board's reference fields and number
/// fields, and why they are no geometry, None where they are one.
#[derive(Clone, Copy, Debug, PartialEq, Eq)]
struct Case {
    sizes: (u32, u32, u32),
    tasks: (u8, u8),
    board: (u8, u8),
    error: Option<GeoError>,
}

/// Compares what the rows of a table are answered.
fn expect_all(rt: &impl Abort, cases: &[Case]) {
    for case in cases {
        let Case {
            sizes,
            tasks,
            board,
            ..
        } = *case;
        let (live, alloc, reserve) = sizes;
        let error = Geometry::new(live, alloc, reserve, tasks.0, tasks.1, board.0, board.1).err();
        let found = Case {
            sizes,
            tasks,
            board,
            error,
        };
        assert_eq!(rt; found, *case);
    }
}

const LIMITS: &[Case] = &[
    Case {
        sizes: (2, 16, 0),
        tasks: (1, 0),
        board: (1, 0),
        error: None,
    },
    Case {
        sizes: (2, 16, 16),
        tasks: (1, 0),
        board: (0, 1),
        error: None,
    },
    Case {
        sizes: (64, 16, 8),
        tasks: (1, 0),
        board: (62, 0),
        error: None,
    },
    Case {
        sizes: (4, 16, 8),
        tasks: (1, 0),
        board: (2, 1),
        error: None,
    },
    Case {
        sizes: (65_536, 16, 8),
        tasks: (1, 0),
        board: (1, 0),
        error: None,
    },
    Case {
        sizes: (8, 65_536, 65_536),
        tasks: (1, 0),
        board: (1, 0),
        error: None,
    },
    Case {
        sizes: (8, 16, 8),
        tasks: (31, 0),
        board: (1, 0),
        error: None,
    },
    Case {
        sizes: (8, 16, 8),
        tasks: (0, 31),
        board: (1, 0),
        error: None,
    },
    Case {
        sizes: (8, 16, 8),
        tasks: (16, 15),
        board: (1, 0),
        error: None,
    },
];

#[test]
fn limits(rt: HostRuntime) {
    expect_all(&rt, LIMITS);
}

const REFUSALS: &[Case] = &[
    Case {
        sizes: (9, 16, 8),
        tasks: (1, 0),
        board: (1, 0),
        error: Some(GeoError::Odd),
    },
    Case {
        sizes: (8, 17, 8),
        tasks: (1, 0),
        board: (1, 0),
        error: Some(GeoError::Odd),
    },
    Case {
        sizes: (2, 16, 8),
        tasks: (1, 0),
        board: (2, 0),
        error: Some(GeoError::Small),
    },
    Case {
        sizes: (62, 16, 8),
        tasks: (1, 0),
        board: (31, 31),
        error: Some(GeoError::Small),
    },
    Case {
        sizes: (8, 14, 8),
        tasks: (1, 0),
        board: (1, 0),
        error: Some(GeoError::Small),
    },
    Case {
        sizes: (65_538, 16, 8),
        tasks: (1, 0),
        board: (1, 0),
        error: Some(GeoError::Large),
    },
    Case {
        sizes: (8, 65_538, 8),
        tasks: (1, 0),
        board: (1, 0),
        error: Some(GeoError::Large),
    },
    Case {
        sizes: (8, 16, 17),
        tasks: (1, 0),
        board: (1, 0),
        error: Some(GeoError::Reserve),
    },
    Case {
        sizes: (8, 16, 8),
        tasks: (0, 0),
        board: (1, 0),
        error: Some(GeoError::Tasks),
    },
    Case {
        sizes: (8, 16, 8),
        tasks: (31, 1),
        board: (1, 0),
        error: Some(GeoError::Tasks),
    },
    Case {
        sizes: (8, 16, 8),
        tasks: (255, 255),
        board: (1, 0),
        error: Some(GeoError::Tasks),
    },
    Case {
        sizes: (8, 16, 8),
        tasks: (1, 0),
        board: (0, 0),
        error: Some(GeoError::Board),
    },
    Case {
        sizes: (64, 16, 8),
        tasks: (1, 0),
        board: (63, 0),
        error: Some(GeoError::Board),
    },
    Case {
        sizes: (64, 16, 8),
        tasks: (1, 0),
        board: (31, 32),
        error: Some(GeoError::Board),
    },
];

#[test]
fn refusals(rt: HostRuntime) {
    expect_all(&rt, REFUSALS);
}

const FIRST_REFUSALS: &[Case] = &[
    Case {
        sizes: (1, 16, 8),
        tasks: (1, 0),
        board: (1, 0),
        error: Some(GeoError::Odd),
    },
    Case {
        sizes: (65_537, 16, 8),
        tasks: (1, 0),
        board: (1, 0),
        error: Some(GeoError::Odd),
    },
    Case {
        sizes: (8, 17, 18),
        tasks: (1, 0),
        board: (1, 0),
        error: Some(GeoError::Odd),
    },
    Case {
        sizes: (9, 16, 8),
        tasks: (0, 0),
        board: (1, 0),
        error: Some(GeoError::Odd),
    },
    Case {
        sizes: (9, 16, 8),
        tasks: (1, 0),
        board: (0, 0),
        error: Some(GeoError::Odd),
    },
    Case {
        sizes: (2, 65_538, 8),
        tasks: (1, 0),
        board: (2, 0),
        error: Some(GeoError::Small),
    },
    Case {
        sizes: (65_538, 14, 8),
        tasks: (1, 0),
        board: (1, 0),
        error: Some(GeoError::Small),
    },
    Case {
        sizes: (8, 14, 15),
        tasks: (1, 0),
        board: (1, 0),
        error: Some(GeoError::Small),
    },
    Case {
        sizes: (8, 14, 8),
        tasks: (0, 0),
        board: (1, 0),
        error: Some(GeoError::Small),
    },
    Case {
        sizes: (62, 16, 8),
        tasks: (1, 0),
        board: (63, 0),
        error: Some(GeoError::Small),
    },
    Case {
        sizes: (65_538, 16, 17),
        tasks: (1, 0),
        board: (1, 0),
        error: Some(GeoError::Large),
    },
    Case {
        sizes: (65_538, 16, 8),
        tasks: (32, 0),
        board: (1, 0),
        error: Some(GeoError::Large),
    },
    Case {
        sizes: (65_538, 16, 8),
        tasks: (1, 0),
        board: (63, 0),
        error: Some(GeoError::Large),
    },
    Case {
        sizes: (8, 16, 17),
        tasks: (32, 0),
        board: (1, 0),
        error: Some(GeoError::Reserve),
    },
    Case {
        sizes: (8, 16, 17),
        tasks: (1, 0),
        board: (0, 0),
        error: Some(GeoError::Reserve),
    },
    Case {
        sizes: (8, 16, 8),
        tasks: (0, 0),
        board: (0, 0),
        error: Some(GeoError::Tasks),
    },
    Case {
        sizes: (9, 14, 65_538),
        tasks: (0, 0),
        board: (255, 255),
        error: Some(GeoError::Odd),
    },
];

#[test]
fn first_refusals(rt: HostRuntime) {
    expect_all(&rt, FIRST_REFUSALS);
}

/// The registers of a task, and the rest of a case.
#[derive(Clone, Copy, Debug, PartialEq, Eq)]
struct WideCase {
    registers: u8,
    case: Case,
}

const WIDE: &[WideCase] = &[
    WideCase {
        registers: 2,
        case: Case {
            sizes: (512, 512, 300),
            tasks: (1, 0),
            board: (2, 2),
            error: None,
        },
    },
    WideCase {
        registers: 32,
        case: Case {
            sizes: (512, 512, 300),
            tasks: (1, 0),
            board: (2, 2),
            error: None,
        },
    },
    WideCase {
        registers: 32,
        case: Case {
            sizes: (256, 16, 0),
            tasks: (0, 31),
            board: (254, 0),
            error: None,
        },
    },
    WideCase {
        registers: 2,
        case: Case {
            sizes: (256, 16, 0),
            tasks: (0, 31),
            board: (100, 154),
            error: None,
        },
    },
    WideCase {
        registers: 1,
        case: Case {
            sizes: (512, 512, 300),
            tasks: (1, 0),
            board: (2, 2),
            error: Some(GeoError::Registers),
        },
    },
    WideCase {
        registers: 0,
        case: Case {
            sizes: (512, 512, 300),
            tasks: (1, 0),
            board: (2, 2),
            error: Some(GeoError::Registers),
        },
    },
    WideCase {
        registers: 33,
        case: Case {
            sizes: (512, 512, 300),
            tasks: (1, 0),
            board: (2, 2),
            error: Some(GeoError::Registers),
        },
    },
    WideCase {
        registers: 33,
        case: Case {
            sizes: (256, 16, 0),
            tasks: (1, 0),
            board: (254, 1),
            error: Some(GeoError::Board),
        },
    },
    WideCase {
        registers: 8,
        case: Case {
            sizes: (512, 16, 0),
            tasks: (1, 0),
            board: (0, 0),
            error: Some(GeoError::Board),
        },
    },
    WideCase {
        registers: 1,
        case: Case {
            sizes: (512, 16, 0),
            tasks: (32, 0),
            board: (0, 0),
            error: Some(GeoError::Tasks),
        },
    },
    WideCase {
        registers: 1,
        case: Case {
            sizes: (512, 16, 17),
            tasks: (32, 0),
            board: (0, 0),
            error: Some(GeoError::Reserve),
        },
    },
    WideCase {
        registers: 1,
        case: Case {
            sizes: (65_538, 16, 17),
            tasks: (32, 0),
            board: (0, 0),
            error: Some(GeoError::Large),
        },
    },
    WideCase {
        registers: 1,
        case: Case {
            sizes: (254, 16, 17),
            tasks: (32, 0),
            board: (254, 0),
            error: Some(GeoError::Small),
        },
    },
    WideCase {
        registers: 1,
        case: Case {
            sizes: (255, 16, 17),
            tasks: (32, 0),
            board: (254, 0),
            error: Some(GeoError::Odd),
        },
    },
];

#[test]
fn wide(rt: HostRuntime) {
    for row in WIDE {
        let WideCase { registers, case } = *row;
        let Case {
            sizes,
            tasks,
            board,
            ..
        } = case;
        let (live, alloc, reserve) = sizes;
        let ((high, low), (refs, nums)) = (tasks, board);
        let error = Geometry::wide(registers, live, alloc, reserve, high, low, refs, nums).err();
        let found = Case {
            sizes,
            tasks,
            board,
            error,
        };
        assert_eq!(rt; found, case);
    }
}

#[test]
fn readers(rt: HostRuntime) {
    let Ok(g) = Geometry::new(256, 2048, 64, 3, 2, 5, 1) else {
        panic!(rt; "no geometry");
    };
    let sizes = (g.live(), g.alloc(), g.reserve());
    let tasks = (g.high(), g.low(), g.tasks(), g.registers());
    let board = (g.board().refs(), g.board().nums());
    assert_eq!(rt;
        (sizes, tasks, board),
        ((256, 2048, 64), (3, 2, 5, 8), (5, 1))
    );
}

/// How many numbers, and how many words of the row, there are with these areas and tasks.
fn lengths(live: u32, alloc: u32, high: u8, low: u8) -> Result<(u32, u32), GeoError> {
    let g = Geometry::new(live, alloc, 16, high, low, 1, 0)?;
    Ok((g.numbers(), g.words()))
}

/// How many registers a task has, and how many words the row, of the largest heap for 31 tasks.
fn wide_lengths(registers: u8) -> Result<(u8, u32), GeoError> {
    let g = Geometry::wide(registers, 65_536, 65_536, 16, 16, 15, 1, 0)?;
    Ok((g.registers(), g.words()))
}

#[test]
fn rows(rt: HostRuntime) {
    let usual = [
        lengths(256, 2048, 3, 2),
        lengths(2, 16, 1, 0),
        lengths(65_536, 65_536, 16, 15),
    ];
    assert_eq!(rt;
        (usual, wide_lengths(32)),
        (
            [Ok((2176, 11_055)), Ok((17, 97)), Ok((98_304, 524_569))],
            Ok((32, 525_313))
        )
    );
}

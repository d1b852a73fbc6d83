//! What each event of the collector leaves in its spot, and what it did.
ghost use Rattle.std.specs.Prelude.{◌≡◌, ◌+◌, ◌*◌, ◌^◌, ◌<◌, ◌≤◌};
ghost use Rattle.hk_words.specs.Geometry.{tasks, numbers, list_length, space_words};
ghost use Rattle.hk_words.specs.Row.{IsRegister};
ghost use Rattle.hk_core.specs.Collect as table;
ghost use Rattle.hk_core.specs.Collect.{spot_took, spot_work, last_cycle, after_register, after_frame, after_cell, after_pass, is_in_space, is_old, is_reference};
ghost use Rattle.hk_words.specs.Layout.{NamesObject};
ghost use Rattle.hk_core.specs.Step.{reference_size};
ghost use Rattle.hk_collect.specs.SpotFits.{SpotFits, SweepFits, FewSpent};

use crate::decide::{LAST_CYCLE, moved_to, old_space};
use hk_core::{Line, Spot, Stage, Work, reference_size, reserved_fits};
use hk_words::{
    Geometry, frame_accessors, header_accessors, header_place, reference_number, reference_refs,
};

/// Goes on to the next spot, where the event of this one found the word `old` (0 after a write), and answers what the
/// event did.
#[tactic(auto, unfolding(hk_core::specs::Collect::spot_took))]
pub fn took(spot: &mut Spot, g: &Geometry, old: u64) -> Work
    requires { SpotFits g.now spot.old }
    ensures spot { spot.new ≡ spot_took g.now spot.old old }
    ensures work { result ≡ spot_work g.now spot.old old }
{
    let work = work(spot, g, old);
    *spot = next_spot(spot, g, old);
    work
}

#[tactic(auto, unfolding(hk_core::specs::Collect::spot_took, hk_core::specs::Collect::took_at_line))]
fn next_spot(spot: &Spot, g: &Geometry, old: u64) -> Spot
    requires { SpotFits g.now spot.now }
    ensures { result ≡ spot_took g.now spot.now old }
{
    match spot.line {
        Line::Rest => rest_took(spot),
        Line::Frame(seat) => frame_took(spot, seat, old),
        Line::Register { seat, reg, stage } => register_took(spot, g, seat, reg, stage, old),
        Line::FrameTrade(seat) => frame_trade_took(spot, g, seat, old),
        Line::Scan => scan_took(spot, g, old),
        Line::Link => link_took(spot, old),
        Line::Look => look_took(spot, old),
        Line::Cell { index, stage } => cell_took(spot, g, index, stage, old),
        Line::ObjectTrade => object_trade_took(spot, g, old),
        Line::Pass(number) => pass_took(spot, g, number, old),
        Line::PassHead(number) => pass_head_took(spot, g, number, old),
        Line::Sweep { number, stage } => sweep_took(spot, g, number, stage, old),
        Line::Clear(word) => clear_took(spot, g, word),
        Line::Reset => Spot {
            line: Line::Rest,
            ..*spot
        },
    }
}

#[tactic(auto, unfolding(hk_core::specs::Collect::spot_work, hk_core::specs::Collect::work_at_line))]
fn work(spot: &Spot, g: &Geometry, old: u64) -> Work
    requires { SpotFits g.now spot.now }
    ensures { result ≡ spot_work g.now spot.now old }
{
    match spot.line {
        Line::Rest => rest_work(spot),
        Line::Frame(seat) => frame_work(seat, old),
        Line::FrameTrade(_) => frame_trade_work(spot, old),
        Line::Scan => scan_work(g, old),
        Line::Link => link_work(spot, g, old),
        Line::Look => look_work(spot, old),
        Line::ObjectTrade => object_trade_work(spot, old),
        Line::PassHead(number) => pass_head_work(spot, g, number, old),
        Line::Register { .. }
        | Line::Cell { .. }
        | Line::Pass(_)
        | Line::Sweep { .. }
        | Line::Clear(_)
        | Line::Reset => Work::Useful,
    }
}

#[tactic(auto, unfolding(hk_core::specs::Collect::rest_took))]
fn rest_took(spot: &Spot) -> Spot
    requires { spot.now.cycle ≤ last_cycle }
    ensures { result ≡ table.rest_took spot.now }
{
    if spot.cycle == LAST_CYCLE {
        return *spot;
    }
    Spot {
        line: Line::Frame(0),
        cycle: spot.cycle + 1,
        scan: 0,
        entries: 0,
        first: 0,
        item: 0,
        cell: 0,
        offset: 0,
        spent: 0,
    }
}

#[tactic(auto, unfolding(hk_core::specs::Collect::rest_work))]
fn rest_work(spot: &Spot) -> Work
    ensures { result ≡ table.rest_work spot.now }
{
    if spot.cycle == LAST_CYCLE {
        Work::Worn
    } else {
        Work::Flipped
    }
}

#[tactic(auto, unfolding(hk_core::specs::Collect::frame_took))]
fn frame_took(spot: &Spot, seat: u8, old: u64) -> Spot
    ensures { result ≡ table.frame_took spot.now seat old }
{
    if frame_accessors(old) > 0 {
        return *spot;
    }
    Spot {
        line: Line::Register {
            seat,
            reg: 0,
            stage: Stage::Read,
        },
        first: old,
        spent: 1,
        ..*spot
    }
}

#[tactic(auto, unfolding(hk_core::specs::Collect::frame_work))]
fn frame_work(seat: u8, old: u64) -> Work
    ensures { result ≡ table.frame_work seat old }
{
    if frame_accessors(old) > 0 {
        Work::BusyFrame(seat)
    } else {
        Work::Useful
    }
}

/// After a register comes the next one, and after the last one the exchange of the frame word.
pub fn after_register(g: &Geometry, seat: u8, reg: u8) -> Line
    requires { reg < g.now.registers }
    ensures { result ≡ after_register g.now seat reg }
{
    if reg + 1 < g.registers() {
        Line::Register {
            seat,
            reg: reg + 1,
            stage: Stage::Read,
        }
    } else {
        Line::FrameTrade(seat)
    }
}

#[tactic(auto, unfolding(hk_core::specs::Collect::register_took))]
fn register_took(spot: &Spot, g: &Geometry, seat: u8, reg: u8, stage: Stage, old: u64) -> Spot
    requires register { IsRegister g.now seat reg }
    requires spent { FewSpent spot.now }
    ensures { result ≡ table.register_took g.now spot.now seat reg stage old }
{
    let next = after_register(g, seat, reg);
    let spent = spot.spent + 1;
    match stage {
        Stage::Read => {
            let line = if old == 0 {
                next
            } else {
                Line::Register {
                    seat,
                    reg,
                    stage: Stage::Claim,
                }
            };
            Spot {
                line,
                cell: old,
                spent,
                ..*spot
            }
        }
        Stage::Claim => {
            let line = if old < spot.cycle {
                Line::Register {
                    seat,
                    reg,
                    stage: Stage::Reserve,
                }
            } else {
                next
            };
            Spot {
                line,
                spent,
                ..*spot
            }
        }
        Stage::Reserve => {
            let fits = reserved_fits(g, old, spot.cell);
            let line = if fits {
                Line::Register {
                    seat,
                    reg,
                    stage: Stage::Tie,
                }
            } else {
                next
            };
            Spot {
                line,
                offset: old,
                spent,
                ..*spot
            }
        }
        Stage::Tie => Spot {
            line: next,
            spent,
            ..*spot
        },
        Stage::Write | Stage::Mark | Stage::Empty => *spot,
    }
}

/// After the last frame comes the scan.
pub fn after_frame(g: &Geometry, seat: u8) -> Line
    requires { seat < tasks g.now }
    ensures { result ≡ after_frame g.now seat }
{
    if seat + 1 < g.tasks() {
        Line::Frame(seat + 1)
    } else {
        Line::Scan
    }
}

#[tactic(auto, unfolding(hk_core::specs::Collect::frame_trade_took))]
fn frame_trade_took(spot: &Spot, g: &Geometry, seat: u8, old: u64) -> Spot
    requires { seat < tasks g.now }
    ensures { result ≡ table.frame_trade_took g.now spot.now seat old }
{
    let line = if old == spot.first {
        after_frame(g, seat)
    } else {
        Line::Frame(seat)
    };
    Spot { line, ..*spot }
}

#[tactic(auto, unfolding(hk_core::specs::Collect::frame_trade_work))]
fn frame_trade_work(spot: &Spot, old: u64) -> Work
    requires { FewSpent spot.now }
    ensures { result ≡ table.frame_trade_work spot.now old }
{
    if old == spot.first {
        Work::Useful
    } else {
        Work::Lost(spot.spent + 1)
    }
}

#[tactic(auto, unfolding(hk_core::specs::Collect::scan_took))]
fn scan_took(spot: &Spot, g: &Geometry, old: u64) -> Spot
    ensures { result ≡ table.scan_took g.now spot.now old }
{
    if old > u64::from(g.live()) {
        return *spot;
    }
    let line = if u64::from(spot.scan) < old {
        Line::Link
    } else {
        Line::Pass(0)
    };
    Spot { line, ..*spot }
}

#[tactic(auto, unfolding(hk_core::specs::Collect::scan_work))]
fn scan_work(g: &Geometry, old: u64) -> Work
    ensures { result ≡ table.scan_work g.now old }
{
    if old > u64::from(g.live()) {
        Work::LiveOver(old)
    } else {
        Work::Useful
    }
}

#[tactic(auto, unfolding(hk_core::specs::Collect::link_took))]
fn link_took(spot: &Spot, old: u64) -> Spot
    ensures { result ≡ table.link_took spot.now old }
{
    if old == 0 {
        Spot {
            line: Line::Scan,
            ..*spot
        }
    } else {
        Spot {
            line: Line::Look,
            item: old,
            ..*spot
        }
    }
}

#[tactic(auto, unfolding(hk_core::specs::Collect::link_work))]
fn link_work(spot: &Spot, g: &Geometry, old: u64) -> Work
    requires { spot.now.scan < space_words g.now }
    ensures { result ≡ table.link_work g.now spot.now old }
{
    if old == 0 {
        Work::Unlinked(moved_to(spot, g))
    } else {
        Work::Useful
    }
}

#[tactic(auto, unfolding(hk_core::specs::Collect::look_took))]
fn look_took(spot: &Spot, old: u64) -> Spot
    ensures { result ≡ table.look_took spot.now old }
{
    if header_accessors(old) > 0 {
        return *spot;
    }
    Spot {
        line: Line::Cell {
            index: 0,
            stage: Stage::Read,
        },
        first: old,
        spent: 1,
        ..*spot
    }
}

#[tactic(auto, unfolding(hk_core::specs::Collect::look_work))]
fn look_work(spot: &Spot, old: u64) -> Work
    requires { NamesObject spot.now.item }
    ensures { result ≡ table.look_work spot.now old }
{
    if header_accessors(old) > 0 {
        Work::BusyObject(reference_number(spot.item))
    } else {
        Work::Useful
    }
}

/// The cell at an index is a reference field, and the reference isn't null.
pub fn is_reference(spot: &Spot, index: u8, word: u64) -> bool
    ensures { result ≡ is_reference spot.now index word }
{
    index < reference_refs(spot.item) && word != 0
}

/// After a cell comes the next one, and after the last one the exchange of the header.
pub fn after_cell(spot: &Spot, index: u8) -> Line
    requires { reference_size spot.now.item < 256 }
    ensures { result ≡ after_cell spot.now index }
{
    if u32::from(index) + 2 < reference_size(spot.item) {
        Line::Cell {
            index: index + 1,
            stage: Stage::Read,
        }
    } else {
        Line::ObjectTrade
    }
}

#[tactic(auto, unfolding(hk_core::specs::Collect::cell_took))]
fn cell_took(spot: &Spot, g: &Geometry, index: u8, stage: Stage, old: u64) -> Spot
    requires size { reference_size spot.now.item < 256 }
    requires spent { FewSpent spot.now }
    ensures { result ≡ table.cell_took g.now spot.now index stage old }
{
    let spent = spot.spent + 1;
    match stage {
        Stage::Read => {
            let stage = if is_reference(spot, index, old) {
                Stage::Claim
            } else {
                Stage::Write
            };
            Spot {
                line: Line::Cell { index, stage },
                cell: old,
                spent,
                ..*spot
            }
        }
        Stage::Claim => {
            let stage = if old < spot.cycle {
                Stage::Reserve
            } else {
                Stage::Write
            };
            Spot {
                line: Line::Cell { index, stage },
                spent,
                ..*spot
            }
        }
        Stage::Reserve => {
            let stage = if reserved_fits(g, old, spot.cell) {
                Stage::Tie
            } else {
                Stage::Write
            };
            Spot {
                line: Line::Cell { index, stage },
                offset: old,
                spent,
                ..*spot
            }
        }
        Stage::Tie => Spot {
            line: Line::Cell {
                index,
                stage: Stage::Write,
            },
            spent,
            ..*spot
        },
        Stage::Write => Spot {
            line: after_cell(spot, index),
            spent,
            ..*spot
        },
        Stage::Mark | Stage::Empty => *spot,
    }
}

#[tactic(auto, unfolding(hk_core::specs::Collect::object_trade_took))]
fn object_trade_took(spot: &Spot, g: &Geometry, old: u64) -> Spot
    requires { spot.now.scan < space_words g.now }
    ensures { result ≡ table.object_trade_took spot.now old }
{
    if old == spot.first {
        Spot {
            line: Line::Scan,
            scan: spot.scan + reference_size(spot.item),
            ..*spot
        }
    } else {
        Spot {
            line: Line::Look,
            ..*spot
        }
    }
}

#[tactic(auto, unfolding(hk_core::specs::Collect::object_trade_work))]
fn object_trade_work(spot: &Spot, old: u64) -> Work
    requires { FewSpent spot.now }
    ensures { result ≡ table.object_trade_work spot.now old }
{
    if old == spot.first {
        Work::Useful
    } else {
        Work::Lost(spot.spent + 1)
    }
}

/// After a number comes the next one, and after the last one the sweep.
pub fn after_pass(g: &Geometry, number: u32) -> Line
    requires { number < numbers g.now }
    ensures { result ≡ after_pass g.now number }
{
    if number + 1 < g.numbers() {
        Line::Pass(number + 1)
    } else {
        Line::Sweep {
            number: 0,
            stage: Stage::Read,
        }
    }
}

#[tactic(auto, unfolding(hk_core::specs::Collect::pass_took))]
fn pass_took(spot: &Spot, g: &Geometry, number: u32, old: u64) -> Spot
    requires { number < numbers g.now }
    ensures { result ≡ table.pass_took g.now spot.now number old }
{
    let line = if old == spot.cycle {
        Line::PassHead(number)
    } else {
        after_pass(g, number)
    };
    Spot { line, ..*spot }
}

/// The object of a header is in the old space.
pub fn is_old(spot: &Spot, g: &Geometry, header: u64) -> bool
    requires { spot.now.cycle ≤ last_cycle }
    ensures { result ≡ is_old g.now spot.now header }
{
    let first = g.place_at(old_space(spot.cycle), 0);
    let place = header_place(header);
    first <= place && place < first + (g.live() + g.alloc())
}

#[tactic(auto, unfolding(hk_core::specs::Collect::pass_head_took))]
fn pass_head_took(spot: &Spot, g: &Geometry, number: u32, old: u64) -> Spot
    requires number { number < numbers g.now }
    requires cycle { spot.now.cycle ≤ last_cycle }
    ensures { result ≡ table.pass_head_took g.now spot.now number old }
{
    let line = if is_old(spot, g, old) {
        Line::Scan
    } else {
        after_pass(g, number)
    };
    Spot { line, ..*spot }
}

#[tactic(auto, unfolding(hk_core::specs::Collect::pass_head_work))]
fn pass_head_work(spot: &Spot, g: &Geometry, number: u32, old: u64) -> Work
    requires { spot.now.cycle ≤ last_cycle }
    ensures { result ≡ table.pass_head_work g.now spot.now number old }
{
    if is_old(spot, g, old) {
        Work::Grey(number)
    } else {
        Work::Useful
    }
}

#[tactic(auto, unfolding(hk_core::specs::Collect::sweep_took))]
fn sweep_took(spot: &Spot, g: &Geometry, number: u32, stage: Stage, old: u64) -> Spot
    requires number { number < numbers g.now }
    requires entries { SweepFits g.now spot.now stage }
    ensures { result ≡ table.sweep_took g.now spot.now number stage old }
{
    match stage {
        Stage::Read => {
            let line = if old < spot.cycle {
                Line::Sweep {
                    number,
                    stage: Stage::Write,
                }
            } else {
                Line::Sweep {
                    number: number + 1,
                    stage: Stage::Read,
                }
            };
            Spot { line, ..*spot }
        }
        Stage::Write => Spot {
            line: Line::Sweep {
                number,
                stage: Stage::Mark,
            },
            entries: spot.entries + 1,
            ..*spot
        },
        Stage::Mark => Spot {
            line: Line::Sweep {
                number,
                stage: Stage::Empty,
            },
            ..*spot
        },
        Stage::Empty => {
            let line = if spot.entries < g.alloc() / 2 {
                Line::Sweep {
                    number: number + 1,
                    stage: Stage::Read,
                }
            } else {
                Line::Clear(0)
            };
            Spot { line, ..*spot }
        }
        Stage::Claim | Stage::Reserve | Stage::Tie => *spot,
    }
}

#[tactic(auto, unfolding(hk_core::specs::Collect::clear_took))]
fn clear_took(spot: &Spot, g: &Geometry, word: u32) -> Spot
    requires { word < space_words g.now }
    ensures { result ≡ table.clear_took g.now spot.now word }
{
    let line = if word + 1 < g.live() + g.alloc() {
        Line::Clear(word + 1)
    } else {
        Line::Reset
    };
    Spot { line, ..*spot }
}

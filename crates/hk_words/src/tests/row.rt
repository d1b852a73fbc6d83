//! Places of the row, worked out by hand.
ghost use Rattle.hk_words.specs.Geometry.{HasSizes};

use crate::Geometry;
use std::process::Abort;

/// A geometry of 2176 numbers and 5 tasks.
fn geometry(rt: &impl Abort) -> Geometry
    ensures { HasSizes result (record { live = 256; alloc = 2048; reserve = 64; high = 3; low = 2; refs = 5; nums = 1; registers = 8 }) }
{
    let Ok(g) = Geometry::new(256, 2048, 64, 3, 2, 5, 1) else {
        panic!(rt; "no geometry");
    };
    g
}

#[test]
fn indexes(rt: HostRuntime) {
    let g = geometry(&rt);
    let words = (g.w0_at(), g.w1_at());
    let headers = (g.header_at(0), g.header_at(2175));
    let marks = (g.mark_at(0), g.mark_at(2175));
    let frames = (g.frame_at(0), g.frame_at(4));
    assert_eq!(rt;
        [words, headers, marks, frames],
        [(0, 1), (2, 2177), (2178, 4353), (4354, 4358)]
    );
    let first = (g.register_at(0, 0), g.register_at(0, 7));
    let others = (g.register_at(1, 0), g.register_at(4, 7));
    assert_eq!(rt; [first, others], [(4359, 4366), (4367, 4398)]);
    let first = (g.entry_at(0, 0), g.entry_at(0, 1023));
    let second = (g.entry_at(1, 0), g.entry_at(1, 1023));
    assert_eq!(rt; [first, second], [(4399, 5422), (5423, 6446)]);
}

#[test]
fn places(rt: HostRuntime) {
    let g = geometry(&rt);
    let spaces = (g.space_at(1), g.space_at(4608));
    let first = (g.place_at(0, 0), g.place_at(0, 2303));
    let second = (g.place_at(1, 0), g.place_at(1, 2303));
    assert_eq!(rt;
        [spaces, first, second],
        [(6447, 11_054), (1, 2304), (2305, 4608)]
    );
}

//! Shapes at their limits.
use crate::shape::*;

/// The reference fields, the number fields and the words of a shape, None where they are no shape.
fn numbers(refs: u8, nums: u8) -> Option<(u8, u8, u32)> {
    let shape = Shape::new(refs, nums)?;
    Some((shape.refs(), shape.nums(), shape.words()))
}

#[test]
fn shapes(rt: HostRuntime) {
    for (refs, nums, words) in [
        (1, 0, 2),
        (0, 1, 2),
        (2, 2, 5),
        (62, 0, 63),
        (0, 62, 63),
        (31, 31, 63),
        (254, 0, 255),
        (0, 254, 255),
        (127, 127, 255),
    ] {
        assert_eq!(rt; numbers(refs, nums), Some((refs, nums, words)));
    }
    for (refs, nums) in [(0, 0), (255, 0), (0, 255), (254, 1), (127, 128), (255, 255)] {
        assert!(rt; Shape::new(refs, nums).is_none());
    }
}

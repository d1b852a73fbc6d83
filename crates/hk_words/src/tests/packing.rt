//! Packed words beside words that were worked out by hand.
use crate::Shape;
use crate::packing::*;

/// A number, the fields of its shape, and the word that they are packed into.
const REFERENCES: [(u32, u8, u8, u64); 6] = [
    (0, 2, 2, 538_968_065),
    (0, 1, 0, 1_048_577),
    (0, 0, 1, 268_435_457),
    (0, 62, 0, 65_011_713),
    (0, 0, 62, 16_642_998_273),
    (1_048_574, 1, 0, 2_097_151),
];

#[test]
fn references(rt: HostRuntime) {
    for row in REFERENCES {
        let (number, refs, nums, word) = row;
        let Some(shape) = Shape::new(refs, nums) else {
            panic!(rt; "no shape");
        };
        let found = (
            reference_number(word),
            reference_refs(word),
            reference_nums(word),
            pack_reference(number, shape),
        );
        assert_eq!(rt; found, row);
    }
}

#[test]
fn parts_of_other_words(rt: HostRuntime) {
    assert_eq!(rt; reference_number(u64::MAX), 1_048_574);
    assert_eq!(rt;
        [
            reference_refs(u64::MAX),
            reference_refs(0),
            reference_nums(0),
            reference_nums(u64::MAX)
        ],
        [255, 0, 0, 255]
    );
}

/// The accessors, the place or the cycle, and the version; and the word that they are packed into.
const HEADERS: [(u8, u32, u64, u64); 7] = [
    (1, 5, 3, 805_306_689),
    (0, 0, 0, 0),
    (63, 0, 0, 63),
    (0, 4_194_303, 0, 268_435_392),
    (0, 0, 1, 268_435_456),
    (0, 0, 68_719_476_735, 18_446_744_073_441_116_160),
    (63, 4_194_303, 68_719_476_735, u64::MAX),
];

#[test]
fn headers(rt: HostRuntime) {
    for row in HEADERS {
        let (accessors, place, version, word) = row;
        let found = (
            header_accessors(word),
            header_place(word),
            header_version(word),
            pack_header(accessors, place, version),
        );
        assert_eq!(rt; found, row);
    }
    assert_eq!(rt;
        [header_moved(805_306_689, 9), header_moved(u64::MAX, 0)],
        [805_306_945, 18_446_744_073_441_116_223]
    );
}

#[test]
fn frames(rt: HostRuntime) {
    for row in HEADERS {
        let (accessors, cycle, version, word) = row;
        let found = (
            frame_accessors(word),
            frame_cycle(word),
            frame_version(word),
            pack_frame(accessors, cycle, version),
        );
        assert_eq!(rt; found, row);
    }
    assert_eq!(rt;
        [
            frame_blackened(805_306_689, 9),
            frame_blackened(u64::MAX, 0)
        ],
        [805_306_945, 18_446_744_073_441_116_223]
    );
}

#[test]
fn first_words(rt: HostRuntime) {
    for row in [
        (8, 2, 3, 52_776_591_687_688),
        (0, 0, 1, 17_592_186_044_416),
        (16_777_215, 0, 0, 16_777_215),
        (0, 1_048_575, 0, 17_592_169_267_200),
        (0, 0, 1_048_575, 18_446_726_481_523_507_200),
        (16_777_215, 1_048_575, 1_048_575, u64::MAX),
    ] {
        let (words, objects, cycle, word) = row;
        let found = (
            w0_words(word),
            w0_objects(word),
            w0_cycle(word),
            pack_w0(words, objects, cycle),
        );
        assert_eq!(rt; found, row);
    }
}

#[test]
fn amounts(rt: HostRuntime) {
    assert_eq!(rt;
        ([ENTER, LEAVE], [raise_by(2), raise_by(8), raise_by(63)]),
        ([268_435_457, 1], [16_777_218, 16_777_224, 16_777_279])
    );
}

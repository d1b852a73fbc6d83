//! Places of calls, and bounds of attempts and cycles.
use super::one_reference;
use crate::Call;
use crate::bounds::*;

#[test]
fn places(rt: HostRuntime) {
    let shape = one_reference(&rt);
    let get = Call::Get { reg: 0, field: 0 };
    let put = Call::Put {
        reg: 0,
        field: 0,
        value: 7,
    };
    let load = Call::Load {
        dest: 1,
        reg: 0,
        field: 0,
    };
    let store = Call::Store {
        reg: 0,
        field: 0,
        from: 1,
    };
    assert_eq!(rt;
        [
            get.places(),
            put.places(),
            load.places(),
            store.places(),
            Call::Move { dest: 1, from: 0 }.places(),
            Call::Clear { dest: 1 }.places(),
            Call::New { dest: 1, shape }.places(),
            Call::Same { a: 0, b: 1 }.places(),
            Call::IsNull { reg: 0 }.places(),
        ],
        [3, 3, 10, 7, 3, 1, 7, 0, 0]
    );
}

#[test]
fn events(rt: HostRuntime) {
    let frames = [frame_events(8), frame_events(2), frame_events(32)];
    let objects = [
        object_events(2),
        object_events(5),
        object_events(10),
        object_events(255),
    ];
    let cycles = [
        cycle_events(8, 1, 62, 512),
        cycle_events(8, 3, 62, 512),
        cycle_events(8, 5, 256, 1024),
        cycle_events(2, 1, 62, 512),
        cycle_events(32, 1, 512, 512),
    ];
    assert_eq!(rt;
        (frames, objects, cycles),
        (
            [34, 10, 130],
            [7, 22, 47, 1272],
            [4179, 4247, 9645, 4155, 8325]
        )
    );
}

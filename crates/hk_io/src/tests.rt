//! Cases worked out by hand.
mod in_memory;
mod output;
mod over_std;
mod whole;

use crate::Status;

#[test]
fn statuses_have_their_numbers(rt: HostRuntime) {
    let table = [
        (Status::Done, 0),
        (Status::Memory, 1),
        (Status::Usage, 2),
        (Status::ReadFault, 3),
        (Status::WriteFault, 4),
        (Status::Sheet, 5),
        (Status::NotAdmitted, 6),
        (Status::Live, 7),
        (Status::Full, 8),
    ];
    for (status, number) in table {
        assert_eq!(rt; status.number(), number);
    }
}

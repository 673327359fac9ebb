//! The numbers of the statuses. No run of a test ends without memory.
use crate::tests::alike::alike;
use fz_app::Status;
use fz_base::{Fault, Kind, Place};

#[test]
fn statuses_have_numbers(rt: HostRuntime) {
    let fault = Fault {
        hdu: 0,
        at: Place::Byte(0),
        kind: Kind::NotFits,
    };
    let (live, asked, limit) = (6, 5, 10);
    for (status, number) in [
        (Status::Done, 0),
        (Status::Different, 1),
        (Status::Usage, 2),
        (Status::Refused(fault), 3),
        (Status::ReadFault, 4),
        (Status::WriteFault, 5),
        (Status::OverLimit { live, asked, limit }, 6),
        (Status::NoMemory, 7),
    ] {
        alike(&rt, status.number(), number);
    }
}

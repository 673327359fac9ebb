//! A file that another program changes while it is packed anew.
use crate::tests::alike::holds;
use crate::tests::changes::{Change, changed};
use crate::tests::changing::Changing;
use crate::tests::files::{Hdu, file_of};
use crate::tests::headers::SECOND_TABLE;
use crate::tests::small::{EMPTY_PRIMARY_HDU, SMALL_PACKED};
use crate::words::command;
use fz_app::{Status, run};
use fz_base::{Fault, FreeGate, Kind, MemSink, MemText, Meter, Place};
use std::alloc::AllocError;
use std::test::Fail;
use std::thread::Threads;

/// More readings than a run makes.
const READINGS: u32 = 200;

/// The small file, packed, and after it a packed extension.
static FILE: [Hdu<'static>; 3] = [
    EMPTY_PRIMARY_HDU,
    SMALL_PACKED,
    Hdu {
        cards: &SECOND_TABLE,
        numbers: &[3, 0, 0, 0],
        bytes: &[0, 52, 160],
    },
];

/// What is done to the file, and how a run is refused that reads it after OUT was begun.
static CHANGES: [(Change, Fault); 2] = [
    (
        Change::Table(&[], &[(0, &[0, 0, 0, 0])]),
        Fault {
            hdu: 1,
            at: Place::Row(0),
            kind: Kind::TileMissing,
        },
    ),
    // ZBITPIX of the extension
    (
        Change::Byte(10_269, b'x'),
        Fault {
            hdu: 2,
            at: Place::Card(0),
            kind: Kind::BadCard,
        },
    ),
];

/// How a run ended, and whether OUT was begun.
#[derive(Clone, Copy)]
struct Ended {
    status: Status,
    begun: bool,
    is_shut: bool,
}

// How a run ends of a file that is changed so after so many readings.
fn ends_by<R: Threads + Sync + AllocGlobal>(
    rt: &R,
    change: &Change,
    readings: u32,
) -> Result<Ended, AllocError> {
    let alloc = rt.alloc();
    let words = command(alloc, "retile IN OUT")?;
    let before = file_of(alloc, &FILE)?;
    let after = changed(alloc, &FILE, change)?;
    let mut source = Changing::new(before, after, readings)?;
    let mut sink = MemSink::new(alloc, Vec::new(alloc), 0);
    let mut text = MemText::new(alloc, Vec::new(alloc));
    let mut meter = Meter::new(alloc, 1 << 40);
    let status = run(
        rt,
        alloc,
        &words,
        &mut source,
        &mut sink,
        &mut text,
        &FreeGate,
        &mut meter,
    );
    Ok(Ended {
        status,
        begun: !sink.contents().is_empty(),
        is_shut: meter.live() == 0 && !sink.contents().starts_with(b"S"),
    })
}

// Whether it ended as it may: it is done, or was refused, and then with this fault if OUT was begun.
fn is_right(ended: &Ended, fault: &Fault) -> bool {
    match ended.status {
        Status::Done => true,
        Status::Refused(found) => ended.is_shut && (!ended.begun || found == *fault),
        _ => false,
    }
}

// A header that changes is refused at card 0, a row as that row, with HDU and row of the packed file; never as a read fault.
#[test]
fn later_refusals_are_of_the_packed_file(rt: HostRuntime) -> Result<(), Fail> {
    for (change, fault) in &CHANGES {
        let mut late = 0u32;
        let mut done = false;
        for readings in 0..READINGS {
            let ended = ends_by(&rt, change, readings)?;
            holds(&rt, is_right(&ended, fault));
            done = ended.status == Status::Done;
            if !done && ended.begun {
                late = late.saturating_add(1);
            }
        }
        holds(&rt, late > 0 && done);
    }
    Ok(())
}

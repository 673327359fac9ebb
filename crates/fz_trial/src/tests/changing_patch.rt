//! A PATCH that another program changes while it is put in.
use crate::tests::alike::holds;
use crate::tests::changes::{Change, changed};
use crate::tests::changing::Changing;
use crate::tests::files::{Hdu, file_of};
use crate::tests::patching::{cut_of, patched_by};
use crate::tests::small::{
    EMPTY_PRIMARY_HDU, SMALL_CODES, SMALL_PACKED_FILE, SMALL_ROWS, SMALL_SUMS,
};
use crate::words::command;
use fz_app::{Status, run_patch};
use fz_base::{Fault, Kind, MemStore, MemText, Meter, Place};
use std::alloc::AllocError;
use std::test::Fail;
use std::thread::Threads;

const WORDS: &str = "patch --at=1,1 PATCH FILE";

const WHOLE: &str = "cut --box 1:4,1:2 IN OUT";

/// More readings of PATCH than a run makes.
const READINGS: u32 = 40;

/// FILE, of which both rows are tiles in Rice codes, and a change of it: the second grows.
static FILES: [(&[Hdu<'static>], Change); 3] = [
    (&SMALL_PACKED_FILE, Change::Nothing),
    (
        &SMALL_PACKED_FILE,
        Change::Table(&[(5, "PCOUNT  =                 2846")], &[]),
    ),
    (
        &[
            EMPTY_PRIMARY_HDU,
            Hdu {
                cards: &SMALL_SUMS,
                numbers: &SMALL_ROWS,
                bytes: &SMALL_CODES,
            },
        ],
        Change::Nothing,
    ),
];

/// An image of 4 by 2 pixels of 16 bits.
static PLANE: [&str; 5] = [
    "SIMPLE  =                    T",
    "BITPIX  =                   16",
    "NAXIS   =                    2",
    "NAXIS1  =                    4",
    "NAXIS2  =                    2",
];

/// The pixels of PATCH, and what they become. The codes of their rows have 6 and 6 bytes and then 3 and 3, the other way round, and
/// 3 and 4 bytes and then 4 and 3.
static PIXELS: [([u32; 4], [u32; 4]); 3] = [
    (
        [0x0000_0009, 0x0000_0009, 0x0000_0009, 0x0000_0009],
        [0x0007_0007, 0x0007_0007, 0x0007_0007, 0x0007_0007],
    ),
    (
        [0x0007_0007, 0x0007_0007, 0x0007_0007, 0x0007_0007],
        [0x0000_0009, 0x0000_0009, 0x0000_0009, 0x0000_0009],
    ),
    (
        [0x0007_0007, 0x0007_0007, 0x0003_0004, 0x0003_0004],
        [0x0003_0004, 0x0003_0004, 0x0007_0007, 0x0007_0007],
    ),
];

/// How a run is refused whose PATCH changed.
const CHANGED: Fault = Fault {
    hdu: 1,
    at: Place::Card(0),
    kind: Kind::BadCard,
};

/// How a run ended, and what it left of FILE.
#[derive(Drop)]
struct Ended {
    status: Status,
    live: u64,
    file: Vec<u8>,
}

// How a run ends whose PATCH becomes another one after so many readings.
fn ends_by<R: Threads + Sync + AllocGlobal>(
    rt: &R,
    file: &[u8],
    before: &[u8],
    after: &[u8],
    readings: u32,
) -> Result<Ended, AllocError> {
    let alloc = rt.alloc();
    let words = command(alloc, WORDS)?;
    let bytes = file.to_vec(alloc)?;
    let before = before.to_vec(alloc)?;
    let after = after.to_vec(alloc)?;
    if bytes.len() > 1 << 32 {
        return Err(AllocError);
    }
    let mut patch = Changing::new(before, after, readings)?;
    let mut store = MemStore::new(alloc, bytes, Vec::new(alloc), 0);
    let mut text = MemText::new(alloc, Vec::new(alloc));
    let mut meter = Meter::new(alloc, 1 << 40);
    let status = run_patch(
        rt, alloc, &words, &mut patch, &mut store, &mut text, &mut meter,
    );
    let file = store.contents().to_vec(alloc)?;
    Ok(Ended {
        status,
        live: meter.live(),
        file,
    })
}

/// The cuts of FILE: before the run, and with each of the two images of PATCH.
#[derive(Drop)]
struct Cuts {
    old: Vec<u8>,
    before: Vec<u8>,
    after: Vec<u8>,
}

// Whether each row of a cut is one of those of these cuts.
fn has_rows(now: &[u8], cuts: &Cuts) -> bool {
    for row in 0..2 {
        let at = 2880 + 8 * row;
        let end = at + 8;
        let pixels = now.get(at..end);
        let known = pixels == cuts.old.get(at..end)
            || pixels == cuts.before.get(at..end)
            || pixels == cuts.after.get(at..end);
        if pixels.is_none() || !known {
            return false;
        }
    }
    true
}

// Whether it ended as it may: FILE has one of both images, or the run was refused so, and each tile has its old pixels or
// some that PATCH gave.
fn is_right(ended: &Ended, now: &[u8], cuts: &Cuts) -> bool {
    match ended.status {
        Status::Done => now == &cuts.before[..] || now == &cuts.after[..],
        Status::Refused(found) => found == CHANGED && has_rows(now, cuts),
        _ => false,
    }
}

// The cuts by runs whose PATCH stays as it is.
fn cuts_of<R: Threads + Sync + AllocGlobal>(
    rt: &R,
    file: &[u8],
    before: &[u8],
    after: &[u8],
) -> Result<Cuts, AllocError> {
    let first = patched_by(rt, WORDS, file, before)?;
    let second = patched_by(rt, WORDS, file, after)?;
    Ok(Cuts {
        old: cut_of(rt, file, WHOLE)?,
        before: cut_of(rt, first.store.store().contents(), WHOLE)?,
        after: cut_of(rt, second.store.store().contents(), WHOLE)?,
    })
}

// The image of PATCH with these pixels.
fn image_of<R: Threads + Sync + AllocGlobal>(
    rt: &R,
    numbers: &[u32],
) -> Result<Vec<u8>, AllocError> {
    let hdu = Hdu {
        cards: &PLANE,
        numbers,
        bytes: &[],
    };
    file_of(rt.alloc(), &[hdu])
}

// A row that is written describes the code that lies in the heap, whenever PATCH changes: the run is done, with the pixels of
// one of both, or refused at card 0.
#[test]
fn rows_describe_the_codes_that_were_written(rt: HostRuntime) -> Result<(), Fail> {
    for (hdus, change) in &FILES {
        let file = changed(rt.alloc(), hdus, change)?;
        for (first, second) in &PIXELS {
            let before = image_of(&rt, first)?;
            let after = image_of(&rt, second)?;
            let cuts = cuts_of(&rt, &file, &before, &after)?;
            let mut late = 0u32;
            let mut done = false;
            for readings in 0..READINGS {
                let ended = ends_by(&rt, &file, &before, &after, readings)?;
                let now = cut_of(&rt, &ended.file, WHOLE)?;
                holds(&rt, ended.live == 0 && is_right(&ended, &now, &cuts));
                done = ended.status == Status::Done;
                if !done {
                    late = late.saturating_add(1);
                }
            }
            holds(&rt, late > 0 && done && cuts.before[..] != cuts.after[..]);
        }
    }
    Ok(())
}

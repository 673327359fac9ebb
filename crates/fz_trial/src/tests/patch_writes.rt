//! The writes of patches, one by one.
use crate::tests::alike::alike;
use crate::tests::changes::{Change, changed};
use crate::tests::files::{Hdu, file_of};
use crate::tests::patch_files::{GRID, LINE, LONGS, ONE, SIX, SUMMED};
use crate::tests::patching::patched_by;
use crate::tests::records::LONGS_PACKED;
use crate::tests::small::SMALL_PACKED_FILE;
use std::test::Fail;

/// A write: its place, and its first bytes.
type Begins = (u64, &'static [u8]);

/// FILE, a change of it, the words, PATCH, and what is written: in order, with the length of each; and how many of these writes were
/// made before each settling: after the codes, the cards, the rows and the checksums.
struct Row {
    file: &'static [Hdu<'static>],
    change: Change,
    words: &'static str,
    patch: &'static [Hdu<'static>],
    writes: &'static [Begins],
    lens: &'static [usize],
    settled: &'static [u64],
}

static ROWS: [Row; 7] = [
    // four codes and zeros to the end of the block, PCOUNT, four rows
    Row {
        file: &GRID,
        change: Change::Nothing,
        words: "patch --at=2,2 PATCH FILE",
        patch: &SIX,
        writes: &[
            (5871, &[1, 2, 6, 0]),
            (5875, &[3, 4, 0, 0]),
            (5879, &[11, 0]),
            (5881, &[0, 0]),
            (5883, &[0]),
            (3280, b"PCOUNT  =                   27 "),
            (5760, &[0, 0, 0, 0, 0, 0, 0, 0, 0, 0, 0, 4, 0, 0, 0, 15]),
            (5776, &[0, 0, 0, 0, 0, 0, 0, 0, 0, 0, 0, 4, 0, 0, 0, 19]),
            (5808, &[0, 0, 0, 0, 0, 0, 0, 0, 0, 0, 0, 2, 0, 0, 0, 23]),
            (5824, &[0, 0, 0, 0, 0, 0, 0, 0, 0, 0, 0, 2, 0, 0, 0, 25]),
        ],
        lens: &[4, 4, 2, 2, 2757, 80, 16, 16, 16, 16],
        settled: &[5, 6, 10],
    },
    // the last pixel
    Row {
        file: &GRID,
        change: Change::Nothing,
        words: "patch --at=5,3 PATCH FILE",
        patch: &ONE,
        writes: &[
            (5871, &[99]),
            (5872, &[0]),
            (3280, b"PCOUNT  =                   16 "),
            (5840, &[0, 0, 0, 0, 0, 0, 0, 0, 0, 0, 0, 1, 0, 0, 0, 15]),
        ],
        lens: &[1, 2768, 80, 16],
        settled: &[2, 3, 4],
    },
    // a form that says less than the greatest count of its column, and one that says nothing where it should
    Row {
        file: &GRID,
        change: Change::Table(&[(11, "TFORM2  = '1PB(0)  '")], &[]),
        words: "patch --at=5,3 PATCH FILE",
        patch: &ONE,
        writes: &[
            (5871, &[99]),
            (5872, &[0]),
            (3280, b"PCOUNT  =                   16 "),
            (3760, b"TFORM2  = '1PB(4)  ' "),
            (5840, &[0, 0, 0, 0, 0, 0, 0, 0, 0, 0, 0, 1, 0, 0, 0, 15]),
        ],
        lens: &[1, 2768, 80, 80, 16],
        settled: &[2, 4, 5],
    },
    Row {
        file: &GRID,
        change: Change::Table(&[(11, "TFORM2  = '1PB (4) '")], &[]),
        words: "patch --at=5,3 PATCH FILE",
        patch: &ONE,
        writes: &[
            (5871, &[99]),
            (5872, &[0]),
            (3280, b"PCOUNT  =                   16 "),
            (3760, b"TFORM2  = '1PB(4)  ' "),
            (5840, &[0, 0, 0, 0, 0, 0, 0, 0, 0, 0, 0, 1, 0, 0, 0, 15]),
        ],
        lens: &[1, 2768, 80, 80, 16],
        settled: &[2, 4, 5],
    },
    // both checksums
    Row {
        file: &SUMMED,
        change: Change::Nothing,
        words: "patch --at=2,2 PATCH FILE",
        patch: &SIX,
        writes: &[
            (5871, &[1, 2, 6, 0]),
            (5875, &[3, 4, 0, 0]),
            (5879, &[11, 0]),
            (5881, &[0, 0]),
            (5883, &[0]),
            (3280, b"PCOUNT  =                   27 "),
            (5760, &[0, 0, 0, 0, 0, 0, 0, 0, 0, 0, 0, 4, 0, 0, 0, 15]),
            (5776, &[0, 0, 0, 0, 0, 0, 0, 0, 0, 0, 0, 4, 0, 0, 0, 19]),
            (5808, &[0, 0, 0, 0, 0, 0, 0, 0, 0, 0, 0, 2, 0, 0, 0, 23]),
            (5824, &[0, 0, 0, 0, 0, 0, 0, 0, 0, 0, 0, 2, 0, 0, 0, 25]),
            (4560, b"DATASUM = '472131746' "),
            (4640, b"CHECKSUM= '4kCD6i994iAA4i99' "),
        ],
        lens: &[4, 4, 2, 2, 2757, 80, 16, 16, 16, 16, 80, 80],
        settled: &[5, 6, 10, 12],
    },
    // a tile whose Rice code is not shorter than its pixels
    Row {
        file: &SMALL_PACKED_FILE,
        change: Change::Nothing,
        words: "patch --at=1,2 PATCH FILE",
        patch: &LINE,
        writes: &[
            (5800, &[0, 0, 128, 0, 0, 5, 255, 249]),
            (5808, &[0]),
            (3280, b"PCOUNT  =                   16 "),
            (3760, b"TFORM2  = '1PI(4)  ' "),
            (5776, &[0, 0, 0, 0, 0, 0, 0, 0, 0, 0, 0, 4, 0, 0, 0, 8]),
        ],
        lens: &[8, 2832, 80, 80, 16],
        settled: &[2, 4, 5],
    },
    // pixels of 64 bits
    Row {
        file: &LONGS_PACKED,
        change: Change::Nothing,
        words: "patch --at=2 PATCH FILE",
        patch: &LONGS,
        writes: &[
            (5792, &[0, 0, 1, 0, 0, 0, 0, 0, 1, 2, 3, 4, 5, 6, 7, 8]),
            (5808, &[0]),
            (3280, b"PCOUNT  =                   32 "),
            (5760, &[0, 0, 0, 0, 0, 0, 0, 0, 0, 0, 0, 2, 0, 0, 0, 16]),
        ],
        lens: &[16, 2832, 80, 16],
        settled: &[2, 3, 4],
    },
];

#[test]
fn writes_in_its_order(rt: HostRuntime) -> Result<(), Fail> {
    for row in &ROWS {
        let file = changed(rt.alloc(), row.file, &row.change)?;
        let patch = file_of(rt.alloc(), row.patch)?;
        let outcome = patched_by(&rt, row.words, &file, &patch)?;
        let writes = outcome.store.store().writes();
        let is_quiet = outcome.text.contents().is_empty();
        alike(
            &rt,
            (outcome.status.number(), is_quiet, outcome.live),
            (0, true, 0),
        );
        alike(
            &rt,
            (outcome.store.settles(), writes.len()),
            (row.settled, row.writes.len()),
        );
        for i in 0..writes.len().min(row.writes.len()).min(row.lens.len()) {
            let (at, front) = row.writes[i];
            let (found, bytes) = (writes[i].at(), writes[i].bytes());
            alike(
                &rt,
                (found, bytes.len(), bytes.starts_with(front)),
                (at, row.lens[i], true),
            );
        }
    }
    Ok(())
}

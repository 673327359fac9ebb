//! Patches whose runs are stopped, and the tiles of their images.
use crate::tests::changes::Change;
use crate::tests::files::Hdu;
use crate::tests::patch_files::{GRID, LINE, LONGS, SIX, SUMMED};
use crate::tests::records::LONGS_PACKED;
use crate::tests::small::SMALL_PACKED_FILE;

/// FILE, a change of it, the words, PATCH, the words that cut the whole image, how many pixels it has, how wide its rows are and a
/// tile is, in pixels, and how many bytes a pixel has.
pub(crate) struct Case {
    pub(crate) file: &'static [Hdu<'static>],
    pub(crate) change: Change,
    pub(crate) words: &'static str,
    pub(crate) patch: &'static [Hdu<'static>],
    pub(crate) whole: &'static str,
    pub(crate) pixels: usize,
    pub(crate) width: usize,
    pub(crate) tile: (usize, usize),
    pub(crate) size: usize,
}

/// The patches.
pub(crate) static CASES: [Case; 5] = [
    Case {
        file: &GRID,
        change: Change::Nothing,
        words: "patch --at=2,2 PATCH FILE",
        patch: &SIX,
        whole: "cut --box 1:5,1:3 IN OUT",
        pixels: 15,
        width: 5,
        tile: (2, 2),
        size: 1,
    },
    // the heap ends two bytes before its block, so that the file grows
    Case {
        file: &GRID,
        change: Change::Table(&[(5, "PCOUNT  =                 2782")], &[]),
        words: "patch --at=2,2 PATCH FILE",
        patch: &SIX,
        whole: "cut --box 1:5,1:3 IN OUT",
        pixels: 15,
        width: 5,
        tile: (2, 2),
        size: 1,
    },
    Case {
        file: &SUMMED,
        change: Change::Nothing,
        words: "patch --at=2,2 PATCH FILE",
        patch: &SIX,
        whole: "cut --box 1:5,1:3 IN OUT",
        pixels: 15,
        width: 5,
        tile: (2, 2),
        size: 1,
    },
    Case {
        file: &SMALL_PACKED_FILE,
        change: Change::Nothing,
        words: "patch --at=1,2 PATCH FILE",
        patch: &LINE,
        whole: "cut --box 1:4,1:2 IN OUT",
        pixels: 8,
        width: 4,
        tile: (4, 1),
        size: 2,
    },
    Case {
        file: &LONGS_PACKED,
        change: Change::Nothing,
        words: "patch --at=2 PATCH FILE",
        patch: &LONGS,
        whole: "cut --box 1:2 IN OUT",
        pixels: 2,
        width: 2,
        tile: (2, 1),
        size: 8,
    },
];

/// Whether the pixels of each tile are all those of the first image, or all those of the second; `old` asks for the first only.
pub(crate) fn has_tiles(case: &Case, now: &[u8], before: &[u8], after: &[u8], old: bool) -> bool {
    for first in 0..case.pixels {
        let mut is_old = true;
        let mut is_new = !old;
        for other in first..case.pixels {
            if tile_of(case, first) == tile_of(case, other) {
                let at = other.saturating_mul(case.size).saturating_add(2880);
                let end = at.saturating_add(case.size);
                is_old = is_old && now.get(at..end) == before.get(at..end);
                is_new = is_new && now.get(at..end) == after.get(at..end);
            }
        }
        if !is_old && !is_new {
            return false;
        }
    }
    true
}

// The place of the tile of a pixel, along both axes.
fn tile_of(case: &Case, pixel: usize) -> (usize, usize) {
    let width = case.width.max(1);
    (
        pixel % width / case.tile.0.max(1),
        pixel / width / case.tile.1.max(1),
    )
}

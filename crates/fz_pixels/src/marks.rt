//! Where the code of a tile is read on.
ghost use Rattle.std.specs.Prelude.{◌≡◌, ◌≤◌};
ghost use Rattle.fz_pixels.specs.Marks.{part_start};
ghost use Rattle.fz_pixels.specs.Parts.{AreBefore, bytes_before};

use fz_tile::Mark;

/// Where the code of a tile is read on.
#[derive(Clone, Copy, Debug, PartialEq, Eq)]
pub struct TileMark {
    /// How many pixels are before it.
    pub pixel: u32,
    /// The place in the code, whose bits are counted from the first byte of the record.
    pub mark: Mark,
}

/// The first pixel that is read from a mark on: pixel 0 if there is none.
pub fn part_start(from: Option<TileMark>) -> u32
    ensures { result ≡ part_start from }
{
    match from {
        Some(mark) => mark.pixel,
        None => 0,
    }
}

/// How many whole bytes are before a mark, of so many that are read of a record.
pub(crate) fn bytes_before(from: Option<TileMark>, read: u64) -> u64
    ensures count { result ≡ bytes_before from read }
    ensures most { result ≤ read }
    ensures before { AreBefore from result }
{
    match from {
        Some(before) => (before.mark.bit / 8).min(read),
        None => 0,
    }
}

//! The runs of neighbouring pixels of a region, one after the other.
use crate::places::Places;

/// The runs of a region: the number of the first pixel of each, and how many pixels it has.
#[derive(Drop)]
pub struct Runs {
    pub(crate) starts: Places,
    pub(crate) length: u64,
}

impl Iterator for Runs {
    ghost use Rattle.std.specs.Iterator.{YieldsFirst, item_count};
    ghost use Rattle.fz_grid.specs.Walks.{runs_left};

    type Item = (u64, u64);

    ghost next_gives = { YieldsFirst runs_left };

    ghost remaining = { item_count runs_left };

    fn next(&mut self) -> Option<(u64, u64)> {
        let start = self.starts.advance()?;
        Some((start, self.length))
    }
}

//! The lines of a part, one after the other.
ghost use Rattle.std.specs.Prelude.{◌≡◌, ℕ, ◌<◌, ◌≤◌, slice_index};
ghost use Rattle.fz_grid.specs.Arrays.{product};
ghost use Rattle.fz_grid.specs.Region.{IsShape, lengths_of};
ghost use Rattle.fz_grid.specs.Line.{IsPartBetween};

use crate::line::Line;
use crate::part::Part;
use crate::pick_place::{pick_at, pixel_at};
use crate::pixel::{coordinates, index};
use fz_block::Axes;

/// The lines of a part, in the order of their picks: axis 1 fastest.
#[derive(Drop)]
pub struct Lines {
    pub(crate) tile: Axes,
    pub(crate) cutout: Axes,
    pub(crate) part: Part,
    /// How many lines there are along each axis: one along axis 1.
    pub(crate) rows: Axes,
    /// How many lines were given.
    pub(crate) next: u64,
    /// How many lines there are.
    pub(crate) end: u64,
    ghost between: { IsPartBetween tile cutout part },
    ghost rows_are: { IsShape rows },
    ghost rows_axes: { rows.n ≡ tile.n },
    ghost first: { slice_index rows.len 0 ≡ 1 },
    ghost later: { (i : ℕ) → 0 < i → i < tile.n → slice_index rows.len i ≡ slice_index part.at.len i },
    ghost all: { end ≡ product (lengths_of rows) },
    ghost ordered: { next ≤ end },
}

impl Lines {
    ghost use Rattle.std.specs.Iterator.{YieldsFirst};
    ghost use Rattle.fz_grid.specs.LineWalks.{lines_left, nth_line};

    /// The next line; None if all were given.
    fn advance(&mut self) -> Option<Line>
        ensures { YieldsFirst lines_left self.old result self.new }
    {
        if self.next == self.end {
            return None;
        }
        let line = self.line();
        self.next += 1;
        Some(line)
    }

    /// The next line.
    fn line(&self) -> Line
        requires { self.now.next < self.now.end }
        ensures { result ≡ nth_line self.now.tile self.now.cutout self.now.part self.now.rows self.now.next }
    {
        let numbers = coordinates(&self.rows, self.next);
        let pick = pick_at(&self.tile, &self.part.inside, &numbers);
        let pixel = pixel_at(&self.cutout, &self.part.at, &numbers);
        Line {
            in_tile: index(&self.tile, &pick),
            step: self.part.inside.step[0],
            in_cutout: index(&self.cutout, &pixel),
            count: self.part.at.len[0],
        }
    }
}

impl Iterator for Lines {
    ghost use Rattle.std.specs.Iterator.{YieldsFirst, item_count};
    ghost use Rattle.fz_grid.specs.LineWalks.{lines_left};

    type Item = Line;

    ghost next_gives = { YieldsFirst lines_left };

    ghost remaining = { item_count lines_left };

    fn next(&mut self) -> Option<Line> {
        self.advance()
    }
}

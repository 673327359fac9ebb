//! Where the parts of an image and of its table are.
ghost use Rattle.std.specs.Prelude.{◌≡◌, ◌+◌, ◌≤◌, ◌^◌};
ghost use Rattle.fz_block.specs.Header.{next_start_of};
ghost use Rattle.fz_image.specs.Layout.{IsLayout, IsPlan, heap_at_of, layout_of, pixel_bytes_of, rows_len_of};

use fz_block::{Header, data_start};
use fz_grid::{Grid, volume};
use fz_head::Plan;
use fz_tile::plain_len;

/// An image, and the table that it becomes, by their places in the file that is read and in that which is written.
#[derive(Clone, Copy, Debug)]
pub struct Layout {
    /// How the image is packed.
    pub plan: Plan,
    /// The tiles of the image, of which each has a row.
    pub tiles: u32,
    /// The bytes of a pixel.
    pub pixel_len: u32,
    /// The byte of the file at which the pixels begin.
    pub pixels_at: u64,
    /// The bytes of a row.
    pub row_len: u32,
    /// The byte of the packed file at which the rows begin.
    pub rows_at: u64,
}

impl Layout {
    /// The layout of an image whose table has its rows from this byte on.
    pub fn of(header: &Header, plan: &Plan, rows_at: u64) -> Layout
        requires plan { IsPlan plan.now }
        requires end { next_start_of header.now ≤ 2 ^ 62 }
        ensures { result ≡ layout_of header.now plan.now rows_at }
    {
        Layout {
            plan: *plan,
            tiles: Grid::new(plan.shape, plan.tile).tile_count(),
            pixel_len: plain_len(plan.bitpix, 1) as u32,
            pixels_at: data_start(header),
            row_len: if plan.wide { 32 } else { 16 },
            rows_at,
        }
    }

    /// The tiles of the image.
    pub fn grid(&self) -> Grid
        requires { IsPlan self.now.plan }
        ensures shape { result.shape ≡ self.now.plan.shape }
        ensures tile { result.tile ≡ self.now.plan.tile }
    {
        Grid::new(self.plan.shape, self.plan.tile)
    }

    /// The bytes of all rows.
    pub fn rows_len(&self) -> u64
        ensures { result ≡ rows_len_of self.now }
    {
        u64::from(self.row_len) * u64::from(self.tiles)
    }

    /// The byte of the file after the pixels.
    pub fn pixels_end(&self) -> u64
        requires { IsLayout self.now }
        ensures { result ≡ self.now.pixels_at + pixel_bytes_of self.now }
    {
        let len = u64::from(self.pixel_len) * volume(&self.plan.shape);
        self.pixels_at + len
    }

    /// The byte of the packed file at which the heap begins.
    pub fn heap_at(&self) -> u64
        requires { IsLayout self.now }
        ensures { result ≡ heap_at_of self.now }
    {
        self.rows_at + self.rows_len()
    }
}

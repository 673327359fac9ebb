//! The packed image that is patched.
ghost use Rattle.std.specs.Prelude.{◌≡◌, ◌+◌, ◌≤◌, ◌^◌};
ghost use Rattle.fz_laws.specs.Writes.{grown_end};
ghost use Rattle.fz_target.specs.Targets.{IsTarget, grown_by};

use fz_block::{BLOCK_LEN, Header, data_start};
use fz_checks::PackedImage;
use fz_grid::{Grid, Sieve};

/// The packed image that is patched, and what is put into it.
#[derive(Clone, Copy, Debug)]
pub struct Target {
    /// The facts of its header, as they are before the first write.
    pub header: Header,
    /// Its plan, and its table as it is before the first write.
    pub image: PackedImage,
    /// Whether its descriptors have 64 bits and not 32.
    pub wide: bool,
    /// The pixels that are replaced.
    pub sieve: Sieve,
    /// The byte of PATCH at which the new pixels begin.
    pub pixels_at: u64,
}

impl Target {
    /// The tiles of the image.
    pub fn grid(&self) -> Grid
        requires { IsTarget self.now }
        ensures { (result.shape ≡ self.now.image.plan.shape) × (result.tile ≡ self.now.image.plan.tile) }
    {
        Grid::new(self.image.plan.shape, self.image.plan.tile)
    }

    /// The byte after the heap, where new codes begin.
    pub fn heap_end(&self) -> u64
        requires { IsTarget self.now }
        ensures { result ≡ self.now.image.table.heap_at + self.now.image.table.heap_len }
    {
        self.image.table.heap_at + self.image.table.heap_len
    }

    /// The byte after the data and their padding, of a heap that is longer by so many bytes.
    pub fn grown_end(&self, more: u64) -> u64
        requires target { IsTarget self.now }
        requires more { more ≤ 2 ^ 61 }
        ensures { result ≡ grown_end self.now.header more }
    {
        let block = BLOCK_LEN as u64;
        let len = self.header.data_len + more;
        data_start(&self.header) + (len + (block - 1)) / block * block
    }

    /// The target after PCOUNT was written, of a heap that is longer by so many bytes.
    pub fn grown(&self, more: u64) -> Target
        requires target { IsTarget self.now }
        requires more { more ≤ 2 ^ 61 }
        requires near { grown_end self.now.header more ≤ 2 ^ 62 }
        ensures same { result ≡ grown_by self.now more }
        ensures target { IsTarget result }
    {
        let mut now = *self;
        now.header.pcount += more;
        now.header.data_len += more;
        now.image.table.heap_len += more;
        now
    }
}

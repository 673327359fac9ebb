//! What was written of a table.
ghost use Rattle.std.specs.Prelude.{◌≡◌, ◌+◌, ◌*◌, ◌<◌, ◌≤◌, ◌^◌, length as len};
ghost use Rattle.fz_pool.specs.Round.{coded_tile};
ghost use Rattle.fz_image.specs.Layout.{IsLayout};
ghost use Rattle.fz_image.specs.Progress.{no_progress, with_row_bytes, with_tile};

use crate::descriptors::{coded_count, stored_count};
use crate::layout::Layout;
use fz_head::Totals;
use fz_pool::Slot;
use fz_sum::Sum;

/// What was written of a table, and what its header says of that.
#[derive(Drop)]
pub struct Progress {
    /// How many tiles.
    pub tiles: u32,
    /// The bytes of the heap.
    pub heap: u64,
    /// The greatest count of elements of a coded tile.
    pub coded: u64,
    /// The greatest count of pixels of a stored tile.
    pub stored: u64,
    /// The sum of the rows and the heap.
    pub sum: Sum,
}

/// What was written of a table, if the last bytes of its heap that are held back are counted.
#[derive(Drop)]
pub struct Underway {
    /// What was written, with the bytes that are held back.
    pub progress: Progress,
    /// How many bytes are held back.
    pub held_back: usize,
}

impl Underway {
    /// Nothing was written, and no bytes are held back.
    pub fn new() -> Underway
        ensures progress { result.progress ≡ no_progress }
        ensures none { result.held_back ≡ 0 }
    {
        Underway {
            progress: Progress::new(),
            held_back: 0,
        }
    }
}

impl Progress {
    /// Nothing was written.
    pub fn new() -> Progress
        ensures { result ≡ no_progress }
    {
        Progress {
            tiles: 0,
            heap: 0,
            coded: 0,
            stored: 0,
            sum: Sum::new(),
        }
    }

    /// What the header says of the heap.
    pub fn totals(&self, sums: bool) -> Totals
        ensures { result ≡ record { heap = self.now.heap; emax_coded = self.now.coded; emax_stored = self.now.stored; sums = sums } }
    {
        Totals {
            heap: self.heap,
            emax_coded: self.coded,
            emax_stored: self.stored,
            sums,
        }
    }
    /// Counts the rows of so many tiles more, which are after the rows.
    pub fn add_rows(&mut self, layout: &Layout, count: u32, rows: &[u8])
        requires tiles { self.old.tiles + count ≤ layout.now.tiles }
        requires summed { self.old.sum.count + len rows.now < 2 ^ 63 }
        ensures { self.new ≡ with_row_bytes layout.now self.old count rows.now }
    {
        self.sum
            .add(u64::from(layout.row_len) * u64::from(self.tiles), rows);
        self.tiles += count;
    }

    /// Counts the bytes of one tile more, which are after the heap.
    pub fn add_tile(&mut self, layout: &Layout, slot: &Slot)
        requires layout { IsLayout layout.now }
        requires within { slot.now.job.len ≤ len slot.now.code }
        requires near { self.old.heap + slot.now.job.len ≤ 2 ^ 43 }
        requires summed { self.old.sum.count + slot.now.job.len < 2 ^ 63 }
        ensures { self.new ≡ with_tile layout.now self.old (coded_tile slot.now) }
    {
        self.sum.add(layout.rows_len() + self.heap, code_of(slot));
        self.heap += u64::from(slot.job.len);
        self.coded = self.coded.max(coded_count(layout, slot));
        self.stored = self.stored.max(stored_count(layout, slot));
    }
}

/// The bytes of the slot's tile, which was encoded.
pub fn code_of(slot: &Slot) -> &[u8]
    requires { slot.now.job.len ≤ len slot.now.code }
    ensures bytes { result.now ≡ (coded_tile slot.now).bytes }
    ensures size { len result.now ≡ slot.now.job.len }
{
    &slot.code.as_slice()[..slot.job.len as usize]
}

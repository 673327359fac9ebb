//! The rows of tiles.
ghost use Rattle.std.specs.Prelude.{◌≡◌, ◌+◌, ◌*◌, ◌<◌, ◌≤◌, length as len};
ghost use Rattle.fz_files.specs.Packed.{coded_count as coded_count_of, row_of, rows_from, stored_count as stored_count_of};
ghost use Rattle.fz_pool.specs.Round.{coded_tile, coded_tiles};
ghost use Rattle.fz_image.specs.Layout.{IsLayout, pixel_bytes_of};
ghost use Rattle.fz_image.specs.Progress.{AreNext};

use crate::layout::Layout;
use fz_head::coded_unit;
use fz_pool::{Slot, Window};
use fz_table::{Descriptor, write_row};
use fz_tile::Place2;

/// How many elements a tile has in the column of codes: bytes, or the words of a line list.
pub(crate) fn coded_count(layout: &Layout, slot: &Slot) -> u64
    requires within { slot.now.job.len ≤ len slot.now.code }
    ensures { result ≡ coded_count_of layout.now.plan (coded_tile slot.now) }
{
    match slot.job.place {
        Place2::Coded => u64::from(slot.job.len / coded_unit(layout.plan.codec)),
        Place2::Stored => 0,
    }
}

/// How many pixels a tile has in the column of plain bytes.
pub(crate) fn stored_count(layout: &Layout, slot: &Slot) -> u64
    requires layout { IsLayout layout.now }
    requires within { slot.now.job.len ≤ len slot.now.code }
    ensures { result ≡ stored_count_of layout.now.plan (coded_tile slot.now) }
{
    match slot.job.place {
        Place2::Coded => 0,
        Place2::Stored => u64::from(slot.job.len / layout.pixel_len),
    }
}

// A descriptor of so many elements, which are at this byte of the heap.
fn described(count: u64, offset: u64) -> Descriptor
    ensures { result ≡ record { count = count; offset = offset } }
{
    Descriptor { count, offset }
}

// Writes the row of a tile whose bytes are at this byte of the heap.
fn put_row(layout: &Layout, slot: &Slot, offset: u64, into: &mut [u8])
    requires layout { IsLayout layout.now }
    requires within { slot.now.job.len ≤ len slot.now.code }
    requires heap { offset + slot.now.job.len ≤ pixel_bytes_of layout.now }
    requires room { len into.old ≡ layout.now.row_len }
    ensures { into.new ≡ row_of layout.now.plan offset (coded_tile slot.now) }
{
    let none = described(0, 0);
    let wide = layout.plan.wide;
    match slot.job.place {
        Place2::Coded => {
            let coded = described(coded_count(layout, slot), offset);
            write_row(into, wide, &coded, &none);
        }
        Place2::Stored => {
            let stored = described(stored_count(layout, slot), offset);
            write_row(into, wide, &none, &stored);
        }
    }
}

/// Writes the rows of the tiles in the first slots, whose bytes are one after another from this byte of the
/// heap on.
pub fn put_rows(layout: &Layout, window: &Window, count: u32, offset: u64, into: &mut [u8])
    requires layout { IsLayout layout.now }
    requires next { AreNext layout.now offset count window.now }
    requires room { len into.old ≡ layout.now.row_len * count }
    ensures { into.new ≡ rows_from layout.now.plan offset (coded_tiles count window.now.slots) }
{
    let len = layout.row_len as usize;
    let mut from = offset;
    for i in 0..count {
        let slot = window.slot(i);
        let at = len * i as usize;
        put_row(layout, slot, from, &mut into[at..at + len]);
        from += u64::from(slot.job.len);
    }
}

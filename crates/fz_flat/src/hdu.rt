//! The facts of an HDU, and of a fault, in numbers that cross to C.
ghost use Rattle.std.specs.Prelude.{◌≡◌, ◌^◌, ◌≤◌};
ghost use Rattle.fz_block.specs.Header.{next_start_of};
ghost use Rattle.fz_flat.specs.Hdus.{flat_fault, flat_hdu, place_number, place_sort, sort_number};

use fz_base::{Fault, Place};
use fz_block::{BLOCK_LEN, Header, Sort, data_start, next_start};

/// What the header of an HDU says.
#[repr(C)]
#[derive(Clone, Copy)]
pub struct FzHdu {
    /// The byte of the file at which the data begin.
    pub data_at: u64,
    /// The length of the data in bytes, without fill.
    pub data_len: u64,
    /// The byte at which the next HDU begins, or the length of the file.
    pub next_at: u64,
    /// The length of the header in bytes.
    pub header_len: u32,
    /// 0 the primary, 1 IMAGE, 2 BINTABLE, 3 another extension.
    pub sort: u32,
    /// 1 if a card says that it is the table of a packed image, otherwise 0.
    pub packed: u32,
    /// BITPIX.
    pub bitpix: i32,
    /// NAXIS.
    pub axes: u32,
    /// The lengths of the axes, and 0 from `axes` on.
    pub lengths: [u32; 9],
}

/// Why an HDU is refused, and where.
#[repr(C)]
#[derive(Clone, Copy)]
pub struct FzFault {
    /// The byte of the file, the card or the row.
    pub at: u64,
    /// Which of these it is: 0 a byte, 1 a card, 2 a row.
    pub at_sort: u32,
    /// The number of the HDU.
    pub hdu: u32,
    /// The number of the kind of refusal.
    pub kind: u32,
}

/// The facts of an HDU that is the table of a packed image, or is not.
pub(crate) fn hdu_of(header: &Header, packed: bool) -> FzHdu
    requires end { next_start_of header.now ≤ 2 ^ 62 }
    requires blocks { header.now.blocks ≤ 256 }
    ensures { result ≡ flat_hdu header.now packed }
{
    FzHdu {
        data_at: data_start(header),
        data_len: header.data_len,
        next_at: next_start(header),
        header_len: BLOCK_LEN as u32 * header.blocks,
        sort: sort_number(header.sort),
        packed: if packed { 1 } else { 0 },
        bitpix: header.bitpix,
        axes: header.axes.n,
        lengths: header.axes.len,
    }
}

// What the HDU is.
fn sort_number(sort: Sort) -> u32
    ensures { result ≡ sort_number sort }
{
    match sort {
        Sort::Primary => 0,
        Sort::Image => 1,
        Sort::BinTable => 2,
        Sort::Other => 3,
    }
}

/// A fault in numbers.
pub fn fault_of(fault: &Fault) -> FzFault
    ensures { result ≡ flat_fault fault.now }
{
    FzFault {
        at: place_number(fault.at),
        at_sort: place_sort(fault.at),
        hdu: fault.hdu,
        kind: fault.kind.number(),
    }
}

// The number of a place.
fn place_number(place: Place) -> u64
    ensures { result ≡ place_number place }
{
    match place {
        Place::Byte(byte) => byte,
        Place::Card(card) => u64::from(card),
        Place::Row(row) => u64::from(row),
    }
}

// Whether a place is a byte, a card or a row.
fn place_sort(place: Place) -> u32
    ensures { result ≡ place_sort place }
{
    match place {
        Place::Byte(_) => 0,
        Place::Card(_) => 1,
        Place::Row(_) => 2,
    }
}

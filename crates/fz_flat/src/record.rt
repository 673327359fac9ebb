//! The record of a tile, in numbers that cross to C.
ghost use Rattle.std.specs.Prelude.{◌≡◌};
ghost use Rattle.fz_flat.specs.Rows.{column_number, flat_record as flat_record_of, record_as as record_as_of, record_there as record_there_of};

use fz_table::{Record, TileColumn};

/// Where the bytes of a tile are in the file.
#[repr(C)]
#[derive(Clone, Copy)]
pub struct FzRecord {
    /// The byte of the file at which the record begins.
    pub start: u64,
    /// The length of the record in bytes.
    pub total: u64,
    /// How many of its first bytes are read.
    pub read: u64,
    /// 0 COMPRESSED_DATA, 1 UNCOMPRESSED_DATA.
    pub column: u32,
}

/// A record in numbers.
pub fn flat_record(found: &Record) -> FzRecord
    ensures { result ≡ flat_record_of found.now }
{
    FzRecord {
        start: found.start,
        total: found.total,
        read: found.read,
        column: column_number(found.column),
    }
}

// The number of a column.
fn column_number(column: TileColumn) -> u32
    ensures { result ≡ column_number column }
{
    match column {
        TileColumn::Coded => 0,
        TileColumn::Stored => 1,
    }
}

/// The record of these numbers, if there is such a column.
pub fn record_there(given: &FzRecord) -> Option<Record>
    ensures { result ≡ record_there_of given.now }
{
    match given.column {
        0 => Some(record_as(given, TileColumn::Coded)),
        1 => Some(record_as(given, TileColumn::Stored)),
        _ => None,
    }
}

// The record of these numbers in a column.
fn record_as(given: &FzRecord, column: TileColumn) -> Record
    ensures { result ≡ record_as_of given.now column }
{
    Record {
        column,
        start: given.start,
        total: given.total,
        read: given.read,
    }
}

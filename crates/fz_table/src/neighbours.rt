//! Rows that are read one after another by one reading.
ghost use Rattle.std.specs.Prelude.{◌≡◌, ◌+◌, ◌≤◌, length as len, IfSome, IfNone};
ghost use Rattle.fz_table.specs.Rows.{row_in, described_in_row, StandsInRow, IsTable, IsRowOf, RowInLaw};
ghost use Rattle.fz_table.specs.Reads.{is_filled, FilledLaw};

use crate::reading::follows;
use crate::rows::{NOTHING, descriptor_in, descriptor_len};
use crate::{Column, Descriptor, Row, Table};

/// What the row at the front of these bytes says of its tile. Of rows that were read one after another
/// by one reading each says what it says in the file (`row_in_law`).
pub fn row_in(table: &Table, bytes: &[u8]) -> Row
    requires table { IsTable table.now }
    requires row { table.now.row_bytes ≤ len bytes.now }
    ensures exact { result ≡ row_in table.now bytes.now }
    ensures row { IsRowOf table.now result }
{
    Row {
        coded: described_in_row(table, table.coded, bytes),
        stored: described_in_row(table, table.stored, bytes),
        gzip: described_in_row(table, table.gzip, bytes),
    }
}

// What the row says in this column.
fn described_in_row(table: &Table, column: Option<Column>, bytes: &[u8]) -> Descriptor
    requires column { IfSome column (StandsInRow table.now) }
    requires row { table.now.row_bytes ≤ len bytes.now }
    ensures exact { result ≡ described_in_row column bytes.now }
    ensures none { IfNone column (result.count ≡ 0) }
{
    match column {
        Some(column) => {
            let (_, behind) = bytes.split_at(column.at as usize);
            descriptor_in(behind, column.wide)
        }
        None => NOTHING,
    }
}

/// Of rows that were read one after another, each says what it says in the file.
pub fn row_in_law()
    ensures { RowInLaw }
{}

/// Whether the descriptors of the two columns that may hold a tile fill the row. Rows that are one
/// after another may then be read by one reading, whose bytes are only those of their descriptors
/// (`filled_law`).
pub fn is_filled(table: &Table) -> bool
    ensures { result ≡ is_filled table.now }
{
    let row_len = table.row_bytes as usize;
    match (table.coded, table.stored) {
        (Some(coded), Some(stored)) => {
            (follows(&coded, &stored) || follows(&stored, &coded))
                && descriptor_len(coded.wide) + descriptor_len(stored.wide) == row_len
        }
        (Some(coded), None) => descriptor_len(coded.wide) == row_len,
        (None, Some(stored)) => descriptor_len(stored.wide) == row_len,
        (None, None) => false,
    }
}

/// If the descriptors fill the row, each byte of rows that are one after another is one of a
/// descriptor of one of them.
pub fn filled_law()
    ensures { FilledLaw }
{}

//! Whether a table can be one of a packed image.
ghost use Rattle.std.specs.Prelude.{◌↔◌, ◌+◌, ◌*◌, ◌^◌, ◌≤◌, IfSome, IsTrue};
ghost use Rattle.fz_table.specs.Rows.{IsTable, descriptor_len};

use fz_table::{Column, Table};

/// The last place of a file at which data may end.
const MAX_PLACE: u64 = 1 << 62;

/// The rows end before the heap, and the columns are within the row.
pub(crate) fn is_table(table: &Table) -> bool
    ensures { IsTrue result ↔ IsTable table.now }
{
    rows_fit(table)
        && heap_fits(table)
        && column_fits(table.row_bytes, table.coded)
        && column_fits(table.row_bytes, table.stored)
        && column_fits(table.row_bytes, table.gzip)
}

// The rows end before the heap.
fn rows_fit(table: &Table) -> bool
    ensures { IsTrue result ↔ (table.now.rows_at + table.now.row_bytes * table.now.rows ≤ table.now.heap_at) }
{
    let len = u64::from(table.row_bytes) * u64::from(table.rows);
    table.rows_at <= table.heap_at && len <= table.heap_at - table.rows_at
}

// The heap ends where data may end.
fn heap_fits(table: &Table) -> bool
    ensures { IsTrue result ↔ (table.now.heap_at + table.now.heap_len ≤ 2 ^ 62) }
{
    table.heap_at <= MAX_PLACE && table.heap_len <= MAX_PLACE - table.heap_at
}

// The descriptor is within the row, and its elements have bytes.
fn column_fits(row_bytes: u32, column: Option<Column>) -> bool
    ensures { IsTrue result ↔ IfSome column (λ c. (c.at + descriptor_len c.wide ≤ row_bytes) × (1 ≤ c.unit)) }
{
    match column {
        Some(column) => {
            let len = if column.wide { 16 } else { 8 };
            u64::from(column.at) + len <= u64::from(row_bytes) && 1 <= column.unit
        }
        None => true,
    }
}

//! The rows of a round.
ghost use Rattle.std.specs.Prelude.{◌≡◌, ◌+◌, ◌*◌, ◌<◌, ◌≤◌, IsTrue, true, length as len, Some, None, IfOk, IfSome, OnOk, slice_index};
ghost use Rattle.fz_base.specs.Keeps.{SourceStays};
ghost use Rattle.fz_base.specs.Ranges.{LogsIn};
ghost use Rattle.fz_base.specs.Source.{Reads};
ghost use Rattle.fz_base.specs.Stop.{IsRefused, ReadsOnly};
ghost use Rattle.fz_table.specs.Reads.{is_filled as is_filled_table, row_ranges};
ghost use Rattle.fz_table.specs.Rows.{IsRowOf, IsTable, row_at, row_start};
ghost use Rattle.fz_fetch.specs.Rows.{AreFrom, HasRow, HasRowsOf, StandsWithin, rows_ranges};

use fz_base::{Source, Stop, ranges_law};
use fz_table::{Row, Table, filled_law, is_filled, read_row, row_in, row_in_law, row_reads_law};

/// Whether the rows of these tiles are read by one reading: they are one after another, and their descriptors fill
/// them.
pub(crate) fn stand_together(table: &Table, tiles: &[u32]) -> bool
    ensures filled { IsTrue result → is_filled_table table.now ≡ true }
    ensures some { IsTrue result → 0 < len tiles.now }
    ensures from { IsTrue result → AreFrom (slice_index tiles.now 0) tiles.now }
{
    let [first, ..] = tiles else {
        return false;
    };
    is_filled(table) && are_from(*first, tiles)
}

// Whether the numbers are neighbours, from this one on.
fn are_from(first: u32, tiles: &[u32]) -> bool
    ensures { IsTrue result → AreFrom first tiles.now }
{
    for i in 0..tiles.len() {
        if u64::from(tiles[i]) != u64::from(first) + i as u64 {
            return false;
        }
    }
    true
}

/// The bytes of so many rows that are one after another, at most 32 each.
pub(crate) fn rows_len(table: &Table, count: usize) -> usize
    requires table { IsTable table.now }
    requires filled { is_filled_table table.now ≡ true }
    requires few { count ≤ 128 }
    ensures len { result ≡ table.now.row_bytes * count }
    ensures most { result ≤ 32 * count }
    ensures some { 0 < count → 0 < result }
{
    table.row_bytes as usize * count
}

/// Reads the rows of neighbouring tiles, whose descriptors fill them, by one reading.
pub(crate) fn read_rows<S: Source>(
    source: &mut S,
    table: &Table,
    tiles: &[u32],
    rows: &mut [u8],
) -> Result<(), Stop>
    requires table { IsTable table.now }
    requires within { StandsWithin (S.attached source.old) table.now }
    requires filled { is_filled_table table.now ≡ true }
    requires some { 0 < len tiles.now }
    requires from { AreFrom (slice_index tiles.now 0) tiles.now }
    requires tiles { slice_index tiles.now 0 + len tiles.now ≤ table.now.rows }
    requires room { len rows.old ≡ table.now.row_bytes * len tiles.now }
    requires bytes { 0 < len rows.old }
    ensures rows { OnOk result (HasRowsOf (S.held source.old) table.now rows.new tiles.now) }
    ensures read { LogsIn (rows_ranges table.now tiles.now) (S.ranges source.old) (S.ranges source.new) }
    ensures stays { SourceStays S.held S.attached S.ranges source.old source.new × (len rows.new ≡ len rows.old) }
    ensures cause { ReadsOnly (S.tally source.old) (S.tally source.new) result }
    ensures unrefused { ¬ (IsRefused result) }
{
    row_in_law();
    filled_law();
    ranges_law();
    let at = row_at(table, tiles[0]);
    source.read_at(at, rows).map_err(Stop::reading)?;
    Ok(())
}

// The byte of the file at which a row begins.
fn row_at(table: &Table, row: u32) -> u64
    requires table { IsTable table.now }
    requires row { row ≤ table.now.rows }
    ensures { result ≡ row_start table.now row }
{
    table.rows_at + u64::from(table.row_bytes) * u64::from(row)
}

/// What the row of a tile says: that with this index of the rows that were read together, or otherwise it is read by itself.
pub fn row_of<S: Source>(
    source: &mut S,
    table: &Table,
    rows: Option<&[u8]>,
    i: u32,
    tile: u32,
) -> Result<Row, Stop>
    requires table { IsTable table.now }
    requires within { StandsWithin (S.attached source.old) table.now }
    requires tile { tile < table.now.rows }
    requires rows { IfSome rows (λ r. HasRow (S.held source.old) table.now r.now i tile) }
    ensures exact { IfOk result (λ says. IfSome (S.held source.old) (λ g. says ≡ row_at g table.now tile)) }
    ensures row { IfOk result (IsRowOf table.now) }
    ensures read { LogsIn (row_ranges table.now tile) (S.ranges source.old) (S.ranges source.new) }
    ensures source { SourceStays S.held S.attached S.ranges source.old source.new }
    ensures cause { ReadsOnly (S.tally source.old) (S.tally source.new) result }
    ensures unrefused { ¬ (IsRefused result) }
{
    row_reads_law();
    ranges_law();
    match rows {
        Some(bytes) => Ok(row_in(table, &bytes[table.row_bytes as usize * i as usize..])),
        None => read_row(source, table, tile),
    }
}

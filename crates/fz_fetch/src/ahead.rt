//! Rows of an image that are read before they are wanted: many by one reading.
ghost use Rattle.std.specs.Prelude.{ℕ, ◌≡◌, ◌+◌, ◌^◌, ◌<◌, ◌≤◌, IsTrue, true, List, Option, length as len, IfOk, IfSome, OnOk};
ghost use Rattle.std.specs.List.{range_with_len};
ghost use Rattle.fz_base.specs.Keeps.{SourceStays};
ghost use Rattle.fz_base.specs.Ranges.{LogsIn};
ghost use Rattle.fz_base.specs.Stop.{IsRefused, ReadsOnly};
ghost use Rattle.fz_table.specs.Reads.{is_filled as is_filled_table};
ghost use Rattle.fz_table.specs.Rows.{IsRowOf, IsTable, row_at as row_at_of};
ghost use Rattle.fz_table.specs.declared.table.Table.{Table as TableOf};
ghost use Rattle.fz_fetch.specs.Ahead.{IsAhead, nothing_ahead};
ghost use Rattle.fz_fetch.specs.Rows.{StandsWithin, rows_ranges};

use crate::rows::{read_rows, rows_len};
use crate::tiles::{MOST_TILES, number_tiles};
use fz_base::{Source, Stop, ranges_law};
use fz_table::{Record, Row, Table, is_filled, read_row, row_in, row_reads_law};

/// The bytes of a buffer that are kept for rows: 128 of at most 32 bytes each.
pub const ROWS_LEN: usize = 4096;

/// What a buffer has of an image that was read before it is wanted: rows at its front, and after the first 4096 bytes
/// those of the heap.
#[derive(Clone, Copy, Debug)]
pub struct Ahead {
    // The first of the rows, and how many there are.
    pub(crate) first: u32,
    pub(crate) count: u32,
    // The byte of the file at which those of the heap begin, and how many there are.
    pub(crate) at: u64,
    pub(crate) len: u64,
}

impl Ahead {
    /// Nothing was read yet.
    pub fn none() -> Ahead
        ensures nothing { result ≡ nothing_ahead }
        ensures ahead { (held : Option (List ℕ)) (table : TableOf) (bytes : List ℕ) → 4096 ≤ len bytes → IsAhead held table bytes result }
    {
        Ahead {
            first: 0,
            count: 0,
            at: 0,
            len: 0,
        }
    }

    /// Whether the row of a tile was read.
    pub(crate) fn has_row(&self, tile: u32) -> bool
        ensures { IsTrue result → (self.now.first ≤ tile) × (tile < self.now.first + self.now.count) }
    {
        tile >= self.first && tile - self.first < self.count
    }

    /// Whether what is read of a record was read.
    pub(crate) fn has_record(&self, found: &Record) -> bool
        requires near { self.now.at + self.now.len < 2 ^ 64 }
        requires within { found.now.start + found.now.read < 2 ^ 64 }
        ensures { IsTrue result → (self.now.at ≤ found.now.start) × (found.now.start + found.now.read ≤ self.now.at + self.now.len) }
    {
        found.start >= self.at && found.start + found.read <= self.at + self.len
    }
}

/// What the row of a tile says. If it was not read, it is read with those after it, if their descriptors fill them, and
/// otherwise by itself.
pub(crate) fn row_ahead<S: Source>(
    source: &mut S,
    table: &Table,
    tile: u32,
    buf: &mut [u8],
    ahead: &mut Ahead,
) -> Result<Row, Stop>
    requires table { IsTable table.now }
    requires within { StandsWithin (S.attached source.old) table.now }
    requires few { table.now.rows < 2 ^ 31 }
    requires tile { tile < table.now.rows }
    requires ahead { IsAhead (S.held source.old) table.now buf.old ahead.old }
    ensures exact { IfOk result (λ says. IfSome (S.held source.old) (λ g. says ≡ row_at_of g table.now tile)) }
    ensures row { IfOk result (IsRowOf table.now) }
    ensures ahead { IsAhead (S.held source.new) table.now buf.new ahead.new }
    ensures len { len buf.new ≡ len buf.old }
    ensures read { LogsIn (rows_ranges table.now (range_with_len 0 table.now.rows)) (S.ranges source.old) (S.ranges source.new) }
    ensures source { SourceStays S.held S.attached S.ranges source.old source.new }
    ensures cause { ReadsOnly (S.tally source.old) (S.tally source.new) result }
    ensures unrefused { ¬ (IsRefused result) }
{
    ranges_law();
    row_reads_law();
    if !is_filled(table) {
        return read_row(source, table, tile);
    }
    if ahead.has_row(tile) {
        return Ok(row_here(table, tile, buf, ahead));
    }
    read_rows_on(source, table, tile, buf, ahead)?;
    Ok(row_here(table, tile, buf, ahead))
}

// Reads the rows from this one on, as many as there is room for.
fn read_rows_on<S: Source>(
    source: &mut S,
    table: &Table,
    first: u32,
    buf: &mut [u8],
    ahead: &mut Ahead,
) -> Result<(), Stop>
    requires table { IsTable table.now }
    requires within { StandsWithin (S.attached source.old) table.now }
    requires filled { is_filled_table table.now ≡ true }
    requires few { table.now.rows < 2 ^ 31 }
    requires first { first < table.now.rows }
    requires ahead { IsAhead (S.held source.old) table.now buf.old ahead.old }
    ensures here { OnOk result ((ahead.new.first ≡ first) × (0 < ahead.new.count)) }
    ensures ahead { IsAhead (S.held source.new) table.now buf.new ahead.new }
    ensures read { LogsIn (rows_ranges table.now (range_with_len 0 table.now.rows)) (S.ranges source.old) (S.ranges source.new) }
    ensures stays { SourceStays S.held S.attached S.ranges source.old source.new × (len buf.new ≡ len buf.old) }
    ensures cause { ReadsOnly (S.tally source.old) (S.tally source.new) result }
    ensures unrefused { ¬ (IsRefused result) }
{
    let count = (table.rows - first).min(MOST_TILES as u32);
    let mut numbers = [0; MOST_TILES];
    let tiles = &mut numbers[..count as usize];
    number_tiles(first, tiles);
    ahead.count = 0;
    let rows = &mut buf[..rows_len(table, tiles.len())];
    read_rows(source, table, tiles, rows)?;
    ahead.first = first;
    ahead.count = count;
    Ok(())
}

/// What the row of a tile says that was read.
pub(crate) fn row_here(table: &Table, tile: u32, buf: &[u8], ahead: &Ahead) -> Row
    requires table { IsTable table.now }
    requires here { (ahead.now.first ≤ tile) × (tile < ahead.now.first + ahead.now.count) }
    requires ahead { (held : Option (List ℕ)) × IsAhead held table.now buf.now ahead.now }
    ensures row { IsRowOf table.now result }
    ensures told { (held : Option (List ℕ)) → IsAhead held table.now buf.now ahead.now → IfSome held (λ g. result ≡ row_at_of g table.now tile) }
{
    let len = table.row_bytes as usize;
    let rows = &buf[..len * ahead.count as usize];
    row_in(table, &rows[len * (tile - ahead.first) as usize..])
}

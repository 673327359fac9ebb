//! The reading of rows and records.
ghost use Rattle.std.specs.Prelude.{ℕ, ◌≡◌, ◌+◌, ◌-◌, ◌*◌, ◌≤◌, ◌<◌, ◌^◌, length as len, take, drop, Some, IfOk, IfSome, IfNone, OnOk, OnErr};
ghost use Rattle.fz_base.specs.Keeps.{SourceStays};
ghost use Rattle.fz_base.specs.Stop.{ReadsOnly, IsDefined, IsRefused, IfAnswered, IfRefused};
ghost use Rattle.fz_base.specs.Ranges.{Logs};
ghost use Rattle.fz_base.specs.Source.{logged, MayLog};
ghost use Rattle.fz_table.specs.Rows.{descriptor_len, descriptor_in, row_at, described_at};
ghost use Rattle.fz_table.specs.Rows.{descriptor_at, descriptor_start, IsTable, IsRowOf, StandsInRow};
ghost use Rattle.fz_table.specs.Records.{record_at, record_of, record_bytes, StandsInHeap, IsOfRow};
ghost use Rattle.fz_table.specs.declared.row.Row.{Row as RowSays};
ghost use Rattle.fz_table.specs.Reads.{descriptor_ranges, follows, two_reads, row_reads, RowReadsLaw};

use crate::choice::record_of;
use crate::rows::{NOTHING, WIDE_LEN, descriptor, descriptor_in, descriptor_len, row_start};
use crate::{Column, Descriptor, Record, Row, Table, Tile};
use fz_base::{Source, Stop};

/// Finds the record of a tile: reads what its row says, and makes the checks of the row in their order
/// (`record_of`), of which the first that refuses is answered.
///
/// It stops with ReadFault or NoMemory if the source does.
pub fn find_record<S: Source>(
    source: &mut S,
    hdu: u32,
    table: &Table,
    row: u32,
    tile: &Tile,
) -> Result<Record, Stop>
    requires table { IsTable table.now }
    requires row { row < table.now.rows }
    requires within { (n : ℕ) × (S.attached source.old ≡ Some n) × (table.now.heap_at + table.now.heap_len ≤ n) }
    ensures exact { IfSome (S.held source.old) (λ g. IsDefined (record_at g hdu table.now row tile.now) result) }
    ensures row { IfAnswered result ((says : RowSays) × IsRowOf table.now says × IsDefined (record_of hdu row table.now says tile.now) result) }
    ensures within { IfOk result (StandsInHeap table.now tile.now) }
    ensures place { IfRefused result (IsOfRow hdu row) }
    ensures read { Logs (row_reads table.now row) result (S.ranges source.old) (S.ranges source.new) }
    ensures source { SourceStays S.held S.attached S.ranges source.old source.new }
    ensures cause { ReadsOnly (S.tally source.old) (S.tally source.new) result }
{
    let says = read_row(source, table, row)?;
    record_of(hdu, row, table, &says, tile).map_err(Stop::Refused)
}

/// Reads what a row says of its tile (FITS 4.0, section 10.1.3): the descriptors of the two columns that
/// may hold it, by one reading if they are together, and then that of GZIP_COMPRESSED_DATA, each
/// if there is such a column.
///
/// It stops with ReadFault or NoMemory if the source does, and refuses nothing.
pub fn read_row<S: Source>(source: &mut S, table: &Table, row: u32) -> Result<Row, Stop>
    requires table { IsTable table.now }
    requires row { row < table.now.rows }
    requires within { (n : ℕ) × (S.attached source.old ≡ Some n) × (table.now.heap_at + table.now.heap_len ≤ n) }
    ensures exact { IfOk result (λ r. IfSome (S.held source.old) (λ g. r ≡ row_at g table.now row)) }
    ensures row { IfOk result (IsRowOf table.now) }
    ensures read { Logs (row_reads table.now row) result (S.ranges source.old) (S.ranges source.new) }
    ensures source { SourceStays S.held S.attached S.ranges source.old source.new }
    ensures cause { ReadsOnly (S.tally source.old) (S.tally source.new) result }
    ensures unrefused { ¬ (IsRefused result) }
{
    let (coded, stored) = read_tile_columns(source, table, row)?;
    let gzip = read_if(source, table, table.gzip, row)?;
    Ok(Row {
        coded,
        stored,
        gzip,
    })
}

// Reads the descriptors of the two columns that may hold a tile.
fn read_tile_columns<S: Source>(
    source: &mut S,
    table: &Table,
    row: u32,
) -> Result<(Descriptor, Descriptor), Stop>
    requires table { IsTable table.now }
    requires row { row < table.now.rows }
    requires within { (n : ℕ) × (S.attached source.old ≡ Some n) × (table.now.heap_at + table.now.heap_len ≤ n) }
    ensures exact { IfOk result (λ p. IfSome (S.held source.old) (λ g.
        (p.0 ≡ described_at g table.now table.now.coded row) × (p.1 ≡ described_at g table.now table.now.stored row))) }
    ensures none { IfOk result (λ p. (IfNone table.now.coded (p.0.count ≡ 0)) × (IfNone table.now.stored (p.1.count ≡ 0))) }
    ensures read { Logs (two_reads table.now table.now.coded table.now.stored row) result (S.ranges source.old) (S.ranges source.new) }
    ensures source { SourceStays S.held S.attached S.ranges source.old source.new }
    ensures cause { ReadsOnly (S.tally source.old) (S.tally source.new) result }
    ensures unrefused { ¬ (IsRefused result) }
{
    match (table.coded, table.stored) {
        (Some(coded), Some(stored)) => read_two(source, table, &coded, &stored, row),
        (None, stored) => Ok((NOTHING, read_if(source, table, stored, row)?)),
        (coded, None) => Ok((read_if(source, table, coded, row)?, NOTHING)),
    }
}

// Reads the descriptor of a column, if there is one.
fn read_if<S: Source>(
    source: &mut S,
    table: &Table,
    column: Option<Column>,
    row: u32,
) -> Result<Descriptor, Stop>
    requires table { IsTable table.now }
    requires row { row < table.now.rows }
    requires within { (n : ℕ) × (S.attached source.old ≡ Some n) × (table.now.heap_at + table.now.heap_len ≤ n) }
    requires column { IfSome column (StandsInRow table.now) }
    ensures exact { IfOk result (λ d. IfSome (S.held source.old) (λ g. d ≡ described_at g table.now column row)) }
    ensures none { IfOk result (λ d. IfNone column (d.count ≡ 0)) }
    ensures read { Logs (descriptor_ranges table.now column row) result (S.ranges source.old) (S.ranges source.new) }
    ensures source { SourceStays S.held S.attached S.ranges source.old source.new }
    ensures cause { ReadsOnly (S.tally source.old) (S.tally source.new) result }
    ensures unrefused { ¬ (IsRefused result) }
{
    match column {
        Some(column) => descriptor(source, table, &column, row),
        None => Ok(NOTHING),
    }
}

// Reads the descriptors of two columns.
fn read_two<S: Source>(
    source: &mut S,
    table: &Table,
    first: &Column,
    second: &Column,
    row: u32,
) -> Result<(Descriptor, Descriptor), Stop>
    requires table { IsTable table.now }
    requires row { row < table.now.rows }
    requires within { (n : ℕ) × (S.attached source.old ≡ Some n) × (table.now.heap_at + table.now.heap_len ≤ n) }
    requires first { StandsInRow table.now first.now }
    requires second { StandsInRow table.now second.now }
    ensures exact { IfOk result (λ p. IfSome (S.held source.old) (λ g.
        (p.0 ≡ descriptor_at g table.now first.now row) × (p.1 ≡ descriptor_at g table.now second.now row))) }
    ensures read { Logs (two_reads table.now (Some first.now) (Some second.now) row) result (S.ranges source.old) (S.ranges source.new) }
    ensures source { SourceStays S.held S.attached S.ranges source.old source.new }
    ensures cause { ReadsOnly (S.tally source.old) (S.tally source.new) result }
    ensures unrefused { ¬ (IsRefused result) }
{
    if follows(first, second) {
        return read_pair(source, table, first, second, row);
    }
    if follows(second, first) {
        let (second, first) = read_pair(source, table, second, first, row)?;
        return Ok((first, second));
    }
    let first = descriptor(source, table, first, row)?;
    let second = descriptor(source, table, second, row)?;
    Ok((first, second))
}

/// Whether a column's descriptor begins where another's ends.
pub(crate) fn follows(first: &Column, second: &Column) -> bool
    ensures { result ≡ follows first.now second.now }
{
    u64::from(first.at) + descriptor_len(first.wide) as u64 == u64::from(second.at)
}

// Reads two descriptors that are together.
fn read_pair<S: Source>(
    source: &mut S,
    table: &Table,
    first: &Column,
    second: &Column,
    row: u32,
) -> Result<(Descriptor, Descriptor), Stop>
    requires table { IsTable table.now }
    requires row { row < table.now.rows }
    requires within { (n : ℕ) × (S.attached source.old ≡ Some n) × (table.now.heap_at + table.now.heap_len ≤ n) }
    requires first { StandsInRow table.now first.now }
    requires second { StandsInRow table.now second.now }
    requires together { first.now.at + descriptor_len first.now.wide ≡ second.now.at }
    ensures exact { IfOk result (λ p. IfSome (S.held source.old) (λ g.
        (p.0 ≡ descriptor_at g table.now first.now row) × (p.1 ≡ descriptor_at g table.now second.now row))) }
    ensures read { OnOk result (S.ranges source.new
        ≡ logged (descriptor_start table.now first.now row)
        (descriptor_len first.now.wide + descriptor_len second.now.wide) (S.ranges source.old)) }
    ensures failed { OnErr result
        (MayLog (descriptor_start table.now first.now row)
        (descriptor_len first.now.wide + descriptor_len second.now.wide) (S.ranges source.old) (S.ranges source.new)) }
    ensures source { SourceStays S.held S.attached S.ranges source.old source.new }
    ensures cause { ReadsOnly (S.tally source.old) (S.tally source.new) result }
    ensures unrefused { ¬ (IsRefused result) }
{
    let mut bytes = [0; 2 * WIDE_LEN];
    let (read, _) = bytes.split_at_mut(descriptor_len(first.wide) + descriptor_len(second.wide));
    source
        .read_at(row_start(table, row) + u64::from(first.at), read)
        .map_err(Stop::reading)?;
    Ok(pair_in(read, first.wide, second.wide))
}

// The two descriptors that are one after the other at the front of these bytes.
fn pair_in(bytes: &[u8], first: bool, second: bool) -> (Descriptor, Descriptor)
    requires { descriptor_len first + descriptor_len second ≤ len bytes.now }
    ensures first { result.0 ≡ descriptor_in first bytes.now }
    ensures second { result.1 ≡ descriptor_in second (drop (descriptor_len first) bytes.now) }
{
    let (_, behind) = bytes.split_at(descriptor_len(first));
    (descriptor_in(bytes, first), descriptor_in(behind, second))
}

/// Reads what is read of a record into the front of a buffer, by one reading (FITS 4.0, section 7.3.5).
/// The bytes after stay as they are.
///
/// It stops with ReadFault or NoMemory if the source does, and refuses nothing; the buffer then holds
/// some bytes.
pub fn read_record<S: Source>(source: &mut S, chosen: &Record, into: &mut [u8]) -> Result<(), Stop>
    requires within { (n : ℕ) × (S.attached source.old ≡ Some n) × (chosen.now.start + chosen.now.total ≤ n) }
    requires some { 0 < chosen.now.read }
    requires first { chosen.now.read ≤ chosen.now.total }
    requires room { chosen.now.read ≤ len into.old }
    ensures bytes { OnOk result (IfSome (S.held source.old) (λ g. take chosen.now.read into.new ≡ record_bytes g chosen.now)) }
    ensures behind { drop chosen.now.read into.new ≡ drop chosen.now.read into.old }
    ensures read { OnOk result (S.ranges source.new ≡ logged chosen.now.start chosen.now.read (S.ranges source.old)) }
    ensures failed { OnErr result (MayLog chosen.now.start chosen.now.read (S.ranges source.old) (S.ranges source.new)) }
    ensures source { SourceStays S.held S.attached S.ranges source.old source.new }
    ensures cause { ReadsOnly (S.tally source.old) (S.tally source.new) result }
    ensures unrefused { ¬ (IsRefused result) }
{
    let (front, _) = into.split_at_mut(chosen.read as usize);
    source.read_at(chosen.start, front).map_err(Stop::reading)
}

/// Reads what `read_record` reads of a record, but without so many of the first bytes, into the front of a buffer, by one
/// reading. The bytes after stay as they are.
///
/// It stops with ReadFault or NoMemory if the source does, and refuses nothing; the buffer then holds
/// some bytes.
pub fn read_rest<S: Source>(
    source: &mut S,
    chosen: &Record,
    skipped: u64,
    into: &mut [u8],
) -> Result<(), Stop>
    requires within { (n : ℕ) × (S.attached source.old ≡ Some n) × (chosen.now.start + chosen.now.total ≤ n) }
    requires some { skipped < chosen.now.read }
    requires first { chosen.now.read ≤ chosen.now.total }
    requires room { chosen.now.read - skipped ≤ len into.old }
    ensures bytes { OnOk result (IfSome (S.held source.old)
        (λ g. take (chosen.now.read - skipped) into.new ≡ drop skipped (record_bytes g chosen.now))) }
    ensures behind { drop (chosen.now.read - skipped) into.new ≡ drop (chosen.now.read - skipped) into.old }
    ensures read { OnOk result
        (S.ranges source.new ≡ logged (chosen.now.start + skipped) (chosen.now.read - skipped) (S.ranges source.old)) }
    ensures failed { OnErr result
        (MayLog (chosen.now.start + skipped) (chosen.now.read - skipped) (S.ranges source.old) (S.ranges source.new)) }
    ensures source { SourceStays S.held S.attached S.ranges source.old source.new }
    ensures cause { ReadsOnly (S.tally source.old) (S.tally source.new) result }
    ensures unrefused { ¬ (IsRefused result) }
{
    let rest = Record {
        column: chosen.column,
        start: chosen.start + skipped,
        total: chosen.total - skipped,
        read: chosen.read - skipped,
    };
    read_record(source, &rest, into)
}

/// What is read of a row are bytes of the descriptors of its named columns.
pub fn row_reads_law()
    ensures { RowReadsLaw }
{}

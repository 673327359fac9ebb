//! Which record a row describes.
ghost use Rattle.std.specs.Prelude.{◌≡◌, IfOk, IfErr};
ghost use Rattle.fz_table.specs.Records.{chosen_column, described_in, unit_in, is_plain, has_none, missing_kind, record_of, StandsInHeap, IsOfRow};
ghost use Rattle.fz_table.specs.Rows.{IsTable, IsRowOf};
ghost use Rattle.fz_base.specs.Refusal.{refusal};

use crate::rows::heap_range;
use crate::{Column, Descriptor, Record, Row, Table, Tile, TileColumn};
use fz_base::{Fault, Kind, Place};

/// The record of a tile, by what its row says (FITS 4.0, sections 7.3.5 and 10.1.3).
///
/// COMPRESSED_DATA is chosen if its count is above 0, otherwise UNCOMPRESSED_DATA if its count is. The
/// row is refused, in this order: only GZIP_COMPRESSED_DATA describes elements (GzipTile); no column
/// does (TileMissing); the described bytes pass the end of the heap (DescriptorRange); plain bytes have
/// another length than the tile's (TileSize).
#[tactic(auto, unfolding(crate::specs::Records::record_of))]
pub fn record_of(
    hdu: u32,
    row: u32,
    table: &Table,
    says: &Row,
    tile: &Tile,
) -> Result<Record, Fault>
    requires table { IsTable table.now }
    requires says { IsRowOf table.now says.now }
    ensures exact { result ≡ record_of hdu row table.now says.now tile.now }
    ensures within { IfOk result (StandsInHeap table.now tile.now) }
    ensures place { IfErr result (IsOfRow hdu row) }
{
    if has_none(says) {
        return Err(refused(hdu, row, missing(says)));
    }
    let column = chosen_column(says);
    let d = described_in(says, column);
    let Some((start, total)) = heap_range(table, unit_in(table, column), &d) else {
        return Err(refused(hdu, row, Kind::DescriptorRange));
    };
    if is_plain(tile, column) && total != tile.plain_len {
        return Err(refused(hdu, row, Kind::TileSize));
    }
    Ok(Record {
        column,
        start,
        total,
        read: total.min(8 * u64::from(tile.pixels) + 64),
    })
}

// Whether the row describes neither codes nor plain bytes.
fn has_none(says: &Row) -> bool
    ensures { result ≡ has_none says.now }
{
    says.coded.count == 0 && says.stored.count == 0
}

// Why such a row is refused.
fn missing(says: &Row) -> Kind
    ensures { result ≡ missing_kind says.now }
{
    if says.gzip.count > 0 {
        Kind::GzipTile
    } else {
        Kind::TileMissing
    }
}

// The column of the codes if the row describes any, and otherwise that of the plain bytes.
fn chosen_column(says: &Row) -> TileColumn
    ensures { result ≡ chosen_column says.now }
{
    if says.coded.count > 0 {
        TileColumn::Coded
    } else {
        TileColumn::Stored
    }
}

// The descriptor of a column in the row.
fn described_in(says: &Row, column: TileColumn) -> Descriptor
    ensures { result ≡ described_in says.now column }
{
    match column {
        TileColumn::Coded => says.coded,
        TileColumn::Stored => says.stored,
    }
}

// The bytes of one element of a column.
fn unit_in(table: &Table, column: TileColumn) -> u32
    ensures { result ≡ unit_in table.now column }
{
    let found: Option<Column> = match column {
        TileColumn::Coded => table.coded,
        TileColumn::Stored => table.stored,
    };
    match found {
        Some(found) => found.unit,
        None => 0,
    }
}

// Whether a record is the plain bytes of its tile.
fn is_plain(tile: &Tile, column: TileColumn) -> bool
    ensures { result ≡ is_plain tile.now column }
{
    match column {
        TileColumn::Coded => tile.plain,
        TileColumn::Stored => true,
    }
}

// A fault of a row.
fn refused(hdu: u32, row: u32, kind: Kind) -> Fault
    ensures { result ≡ refusal hdu (Place.Row row) kind }
{
    Fault {
        hdu,
        at: Place::Row(row),
        kind,
    }
}

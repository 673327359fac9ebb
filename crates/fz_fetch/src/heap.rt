//! Records of an image that are read before they are wanted: those that are one after another in the heap by one reading.
ghost use Rattle.std.specs.Prelude.{ℕ, ◌≡◌, ◌⊎◌, ◌+◌, ◌-◌, ◌^◌, ◌<◌, ◌≤◌, List, Option, Some, take, drop, length as len, IfSome, OnOk};
ghost use Rattle.fz_base.specs.Keeps.{SourceStays};
ghost use Rattle.fz_base.specs.Ranges.{LiesIn, LogsIn};
ghost use Rattle.fz_base.specs.Source.{MayLog};
ghost use Rattle.fz_base.specs.Stop.{IsRefused, ReadsOnly};
ghost use Rattle.fz_table.specs.Reads.{tile_ranges};
ghost use Rattle.fz_table.specs.Records.{StandsInHeap, record_bytes};
ghost use Rattle.fz_table.specs.declared.table.Table.{Table as TableOf};
ghost use Rattle.fz_files.specs.Packed.{tiles_in};
ghost use Rattle.fz_files.specs.Restored.{tile_of};
ghost use Rattle.fz_fetch.specs.Ahead.{AreOfRows, IsAhead, all_ranges};
ghost use Rattle.fz_job.specs.Images.{IsReadable};
ghost use Rattle.fz_fetch.specs.Loaded.{IsRecordIn};
ghost use Rattle.fz_fetch.specs.Rows.{StandsWithin};

use crate::ahead::{Ahead, ROWS_LEN, row_here};
use crate::tiles::{PackedTile, known_tile};
use fz_base::{Source, Stop, log_law, ranges_law};
use fz_checks::PackedImage;
use fz_table::{Record, read_record, record_of};

/// Puts what is read of the record of a tile into the front of the code. If it was not read, it is read with the records
/// of the next tiles, as far as they follow it in the heap.
pub(crate) fn record_ahead<S: Source>(
    source: &mut S,
    tile: PackedTile<'_>,
    found: &Record,
    buf: &mut [u8],
    ahead: &mut Ahead,
    code: &mut [u8],
) -> Result<(), Stop>
    requires image { IsReadable tile.image.now }
    requires within { StandsWithin (S.attached source.old) tile.image.now.table }
    requires tile { tile.number < tiles_in tile.image.now.plan }
    requires found { StandsInHeap tile.image.now.table (tile_of tile.image.now.plan tile.number) found.now }
    requires told { IfSome (S.held source.old) (λ g. IsRecordIn g tile.hdu tile.image.now tile.number found.now) }
    requires room { found.now.read ≤ len code.old }
    requires ahead { IsAhead (S.held source.old) tile.image.now.table buf.old ahead.old }
    ensures bytes { OnOk result (IfSome (S.held source.old) (λ g. take found.now.read code.new ≡ record_bytes g found.now)) }
    ensures ahead { IsAhead (S.held source.new) tile.entry.image.now.table buf.new ahead.new }
    ensures read { IfSome (S.held source.old) (λ g. LogsIn (all_ranges g tile.entry.hdu tile.entry.image.now) (S.ranges source.old) (S.ranges source.new)) }
    ensures stays { SourceStays S.held S.attached S.ranges source.old source.new × (len code.new ≡ len code.old)
        × (len buf.new ≡ len buf.old) }
    ensures cause { ReadsOnly (S.tally source.old) (S.tally source.new) result }
    ensures unrefused { ¬ (IsRefused result) }
{
    ranges_law();
    log_law();
    if ahead.has_record(found) {
        take_record(found, buf, ahead, code);
        return Ok(());
    }
    let run = run_len(tile.hdu, tile.image, tile.number, found, buf, ahead);
    if run == found.read {
        return read_record(source, found, code);
    }
    read_run(source, found.start, run, buf, ahead)?;
    take_record(found, buf, ahead, code);
    Ok(())
}

// Puts a record that was read into the front of the code.
fn take_record(found: &Record, buf: &[u8], ahead: &Ahead, code: &mut [u8])
    requires has { (ahead.now.at ≤ found.now.start) × (found.now.start + found.now.read ≤ ahead.now.at + ahead.now.len) }
    requires within { 4096 + ahead.now.len ≤ len buf.now }
    requires room { found.now.read ≤ len code.old }
    ensures bytes { take found.now.read code.new ≡ take found.now.read (drop (4096 + (found.now.start - ahead.now.at)) buf.now) }
    ensures len { len code.new ≡ len code.old }
{
    let from = ROWS_LEN + (found.start - ahead.at) as usize;
    let read = found.read as usize;
    code[..read].copy_from_slice(&buf[from..from + read]);
}

// How many bytes the record of a tile has together with those that follow it in the heap, of the next tiles whose rows
// were read, as far as there is room for them.
fn run_len(
    hdu: u32,
    image: &PackedImage,
    tile: u32,
    found: &Record,
    buf: &[u8],
    ahead: &Ahead,
) -> u64
    requires image { IsReadable image.now }
    requires tile { tile < tiles_in image.now.plan }
    requires found { StandsInHeap image.now.table (tile_of image.now.plan tile) found.now }
    requires ahead { (held : Option (List ℕ)) × IsAhead held image.now.table buf.now ahead.now }
    ensures least { found.now.read ≤ result }
    ensures stop { found.now.start + result ≤ image.now.table.heap_at + image.now.table.heap_len }
    ensures room { (result ≡ found.now.read) ⊎ (4096 + result ≤ len buf.now) }
    ensures told { (held : Option (List ℕ)) → IsAhead held image.now.table buf.now ahead.now
        → IfSome held (λ g. IsRecordIn g hdu image.now tile found.now) → IfSome held (λ g. AreOfRows g hdu image.now found.now.start result) }
{
    let room = (buf.len() - ROWS_LEN) as u64;
    let mut run = found.read;
    for next in tile + 1..image.table.rows {
        let Some(read) = following(hdu, image, next, found.start + run, buf, ahead) else {
            return run;
        };
        if run + read > room {
            return run;
        }
        run += read;
    }
    run
}

// How much is read of the record of a tile, if its row was read, and its record begins at this byte of the file.
fn following(
    hdu: u32,
    image: &PackedImage,
    tile: u32,
    at: u64,
    buf: &[u8],
    ahead: &Ahead,
) -> Option<u64>
    requires image { IsReadable image.now }
    requires tile { tile < tiles_in image.now.plan }
    requires ahead { (held : Option (List ℕ)) × IsAhead held image.now.table buf.now ahead.now }
    ensures stop { IfSome result (λ read. at + read ≤ image.now.table.heap_at + image.now.table.heap_len) }
    ensures told { IfSome result (λ read. (held : Option (List ℕ)) → IsAhead held image.now.table buf.now ahead.now → IfSome held (λ g.
        (byte : ℕ) → at ≤ byte → byte < at + read → LiesIn (tile_ranges g hdu image.now.table tile (tile_of image.now.plan tile)) byte)) }
{
    if !ahead.has_row(tile) {
        return None;
    }
    let says = row_here(&image.table, tile, buf, ahead);
    let known = known_tile(&image.plan, tile);
    let Ok(record) = record_of(hdu, tile, &image.table, &says, &known) else {
        return None;
    };
    if record.start != at {
        return None;
    }
    Some(record.read)
}

// Reads so many bytes of the heap, from this byte of the file on.
fn read_run<S: Source>(
    source: &mut S,
    at: u64,
    count: u64,
    buf: &mut [u8],
    ahead: &mut Ahead,
) -> Result<(), Stop>
    requires within { (n : ℕ) × (S.attached source.old ≡ Some n) × (at + count ≤ n) }
    requires some { 0 < count }
    requires near { at + count ≤ 2 ^ 62 }
    requires room { 4096 + count ≤ len buf.old }
    ensures here { OnOk result ((ahead.new.at ≡ at) × (ahead.new.len ≡ count)) }
    ensures ahead { (table : TableOf) → IsAhead (S.held source.old) table buf.old ahead.old → IsAhead (S.held source.new) table buf.new ahead.new }
    ensures read { MayLog at count (S.ranges source.old) (S.ranges source.new) }
    ensures stays { (len buf.new ≡ len buf.old) × (S.held source.new ≡ S.held source.old)
        × (S.attached source.new ≡ S.attached source.old) }
    ensures cause { ReadsOnly (S.tally source.old) (S.tally source.new) result }
    ensures unrefused { ¬ (IsRefused result) }
{
    ahead.len = 0;
    let part = &mut buf[ROWS_LEN..ROWS_LEN + count as usize];
    source.read_at(at, part).map_err(Stop::reading)?;
    ahead.at = at;
    ahead.len = count;
    Ok(())
}

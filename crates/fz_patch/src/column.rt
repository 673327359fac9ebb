//! The greatest counts that the columns say after the patch, if they do not say enough.
ghost use Rattle.std.specs.Prelude.{◌≡◌, ◌+◌, ◌-◌, ◌*◌, ◌^◌, ◌<◌, ◌≤◌, length as len, Some, None, IfOk, IfSome, if◌then◌else◌};
ghost use Rattle.fz_base.specs.Keeps.{SourceStays};
ghost use Rattle.fz_base.specs.Stop.{OnlyReads};
ghost use Rattle.fz_block.specs.Facts.{IsHeaderOf};
ghost use Rattle.fz_fetch.specs.Rows.{StandsWithin};
ghost use Rattle.fz_files.specs.FirstFault.{picked_tiles_of};
ghost use Rattle.fz_table.specs.Rows.{IsTable};
ghost use Rattle.fz_laws.specs.Writes.{other_rows, said_most as said_most_of};
ghost use Rattle.fz_target.specs.Measures.{counted_rows, counted_with, counted_with_all};
ghost use Rattle.fz_patch.specs.Cards.{forms_for};
ghost use Rattle.fz_target.specs.Targets.{IsTarget};

use fz_base::{Source, Stop};
use fz_table::{Row, Table, row_in, row_in_law};
use fz_target::{Measure, Target, said_most, tiles_in_box};

/// The greatest counts that TFORM1 and TFORM2 come to say; none for a card that stays.
#[derive(Clone, Copy, Debug)]
pub(crate) struct Forms {
    pub(crate) coded: Option<u64>,
    pub(crate) stored: Option<u64>,
}

/// Finds which forms have to say more, for new codes that were measured, and then how much: the greatest count of all rows
/// of the column, for which the rows without a pixel in the box are read.
pub(crate) fn find_forms<D: Source>(
    store: &mut D,
    target: &Target,
    buf: &[u8],
    found: &Measure,
    copy: &mut [u8],
) -> Result<Forms, Stop>
    requires target { IsTarget target.now }
    requires header { IsHeaderOf buf.now target.now.header }
    requires within { StandsWithin (D.attached store.old) target.now.image.table }
    requires copy { 4096 ≤ len copy.old }
    ensures forms { IfOk result (λ forms. IfSome (D.held store.old) (λ f. forms ≡ forms_for (said_most_of buf.now 1) (said_most_of buf.now 2) found.now
        (other_rows f target.now.image.table (picked_tiles_of target.now.image.plan target.now.sieve)))) }
    ensures small { IfOk result (λ forms. IfSome forms.coded (λ n. n < 2 ^ 64) × IfSome forms.stored (λ n. n < 2 ^ 64)) }
    ensures stays { SourceStays D.held D.attached D.ranges store.old store.new × (len copy.new ≡ len copy.old) }
    ensures cause { OnlyReads (D.tally store.old) (D.tally store.new) result }
{
    let coded = said_most(&target.header, buf, 1) < found.coded;
    let stored = said_most(&target.header, buf, 2) < found.stored;
    if !coded && !stored {
        return Ok(Forms {
            coded: None,
            stored: None,
        });
    }
    let all = with_other_rows(store, target, found, copy)?;
    Ok(Forms {
        coded: said_when(coded, all.coded),
        stored: said_when(stored, all.stored),
    })
}

// What a form comes to say, if it has to say more.
fn said_when(more: bool, all: u64) -> Option<u64>
    ensures said { result ≡ (if more then Some all else None) }
    ensures small { IfSome result (λ n. n < 2 ^ 64) }
{
    if more { Some(all) } else { None }
}

// With the counts of the rows of all tiles that have no pixel in the box.
fn with_other_rows<D: Source>(
    store: &mut D,
    target: &Target,
    found: &Measure,
    copy: &mut [u8],
) -> Result<Measure, Stop>
    requires target { IsTarget target.now }
    requires within { StandsWithin (D.attached store.old) target.now.image.table }
    requires copy { 4096 ≤ len copy.old }
    ensures all { IfOk result (λ m. IfSome (D.held store.old) (λ f. m ≡ counted_with_all found.now
        (other_rows f target.now.image.table (picked_tiles_of target.now.image.plan target.now.sieve)))) }
    ensures stays { SourceStays D.held D.attached D.ranges store.old store.new × (len copy.new ≡ len copy.old) }
    ensures cause { OnlyReads (D.tally store.old) (D.tally store.new) result }
{
    let table = &target.image.table;
    let mut greatest = *found;
    let mut first = 0;
    for tile in tiles_in_box(target) {
        greatest = with_rows(store, table, &greatest, first, tile, copy)?;
        first = tile + 1;
    }
    with_rows(store, table, &greatest, first, table.rows, copy)
}

// With the counts of the rows from one to another, which are read by pieces of the copy buffer.
fn with_rows<D: Source>(
    store: &mut D,
    table: &Table,
    found: &Measure,
    first: u32,
    end: u32,
    copy: &mut [u8],
) -> Result<Measure, Stop>
    requires table { IsTable table.now }
    requires row { (1 ≤ table.now.row_bytes) × (table.now.row_bytes ≤ 4096) }
    requires within { StandsWithin (D.attached store.old) table.now }
    requires rows { (first ≤ end) × (end ≤ table.now.rows) }
    requires copy { 4096 ≤ len copy.old }
    ensures counted { IfOk result (λ m. IfSome (D.held store.old) (λ f. m ≡ counted_rows found.now f table.now first (end - first))) }
    ensures stays { SourceStays D.held D.attached D.ranges store.old store.new × (len copy.new ≡ len copy.old) }
    ensures cause { OnlyReads (D.tally store.old) (D.tally store.new) result }
{
    let most = copy.len() / table.row_bytes as usize;
    let mut greatest = *found;
    let mut done = 0;
    while done < (end - first) as usize {
        let count = most.min((end - first) as usize - done);
        greatest = with_neighbours(store, table, &greatest, first as usize + done, count, copy)?;
        done += count;
    }
    Ok(greatest)
}

// With the counts of so many rows, one after another, which fit into the copy buffer.
fn with_neighbours<D: Source>(
    store: &mut D,
    table: &Table,
    found: &Measure,
    first: usize,
    count: usize,
    copy: &mut [u8],
) -> Result<Measure, Stop>
    requires table { IsTable table.now }
    requires some { (1 ≤ count) × (1 ≤ table.now.row_bytes) }
    requires within { StandsWithin (D.attached store.old) table.now }
    requires rows { first + count ≤ table.now.rows }
    requires copy { table.now.row_bytes * count ≤ len copy.old }
    ensures counted { IfOk result (λ m. IfSome (D.held store.old) (λ f. m ≡ counted_rows found.now f table.now first count)) }
    ensures stays { SourceStays D.held D.attached D.ranges store.old store.new × (len copy.new ≡ len copy.old) }
    ensures cause { OnlyReads (D.tally store.old) (D.tally store.new) result }
{
    row_in_law();
    let size = table.row_bytes as usize;
    let rows = &mut copy[..size * count];
    let at = table.rows_at + (size * first) as u64;
    store.read_at(at, rows).map_err(Stop::reading)?;
    let mut greatest = *found;
    for i in 0..count {
        greatest = with_row(&greatest, &row_in(table, &rows[size * i..]));
    }
    Ok(greatest)
}

// With the counts of a row.
fn with_row(greatest: &Measure, row: &Row) -> Measure
    ensures { result ≡ counted_with greatest.now row.now }
{
    Measure {
        bytes: greatest.bytes,
        coded: greatest.coded.max(row.coded.count),
        stored: greatest.stored.max(row.stored.count),
    }
}

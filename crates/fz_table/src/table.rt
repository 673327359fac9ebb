//! The table of a packed image.
ghost use Rattle.std.specs.Prelude.{◌≡◌, ◌+◌, ◌≤◌, ◌^◌, IfOk};
ghost use Rattle.fz_block.specs.Facts.{IsHeaderOf};
ghost use Rattle.fz_block.specs.Header.{next_start_of};
ghost use Rattle.fz_table.specs.Tables.{table_of};
ghost use Rattle.fz_table.specs.Rows.{IsTable};

use crate::Column;
use crate::checks::{check_array, field_count, heap_start, row_len};
use crate::columns::packed_columns;
use fz_base::Fault;
use fz_block::{Header, data_start};

/// The table of a packed image, by places in the file (FITS 4.0, sections 7.3 and 10.1).
#[derive(Clone, Copy, Debug, PartialEq, Eq)]
pub struct Table {
    /// The length of a row in bytes.
    pub row_bytes: u32,
    /// The number of rows.
    pub rows: u32,
    /// The byte of the file at which the first row begins.
    pub rows_at: u64,
    /// The byte of the file at which the heap begins.
    pub heap_at: u64,
    /// The length of the heap in bytes.
    pub heap_len: u64,
    /// The column COMPRESSED_DATA.
    pub coded: Option<Column>,
    /// The column UNCOMPRESSED_DATA.
    pub stored: Option<Column>,
    /// The column GZIP_COMPRESSED_DATA.
    pub gzip: Option<Column>,
}

impl Table {
    /// The table that the header of a packed image says. Of cards of one name the first counts.
    ///
    /// Refused as BadTable, in this order: BITPIX is not 8, NAXIS not 2 or GCOUNT not 1, at that card;
    /// TFIELDS is not 1 to 999; a TFORMi cannot be read; the columns do not fill NAXIS1, at NAXIS1;
    /// THEAP is not between the end of the rows and that of the data; a column of a packed image has the
    /// name of an earlier one, at TTYPEi, or has another form, at TFORMi. If a card is missing, at END.
    pub fn of(buf: &[u8], header: &Header) -> Result<Table, Fault>
        requires header { IsHeaderOf buf.now header.now }
        requires end { next_start_of header.now ≤ 2 ^ 62 }
        ensures exact { result ≡ table_of buf.now header.now }
        ensures table { IfOk result IsTable }
        ensures heap { IfOk result (λ t. t.heap_at + t.heap_len ≤ next_start_of header.now) }
    {
        check_array(header)?;
        let fields = field_count(buf, header)?;
        let row_bytes = row_len(buf, header, fields)?;
        let heap_start = heap_start(buf, header)?;
        let columns = packed_columns(buf, header, fields)?;
        let rows_at = data_start(header);
        Ok(Table {
            row_bytes,
            rows: header.axes.len[1],
            rows_at,
            heap_at: rows_at + heap_start,
            heap_len: header.data_len - heap_start,
            coded: columns.coded,
            stored: columns.stored,
            gzip: columns.gzip,
        })
    }
}

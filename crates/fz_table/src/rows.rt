//! The descriptors in the rows, and the ranges of the heap.
ghost use Rattle.std.specs.Prelude.{ℕ, Bool, List, ◌++◌, ◌≡◌, ◌+◌, ◌*◌, ◌≤◌, ◌<◌, ◌^◌, length as len, drop, Some, IfOk, IfSome, OnOk, OnErr};
ghost use Rattle.fz_base.specs.Keeps.{SourceStays};
ghost use Rattle.fz_base.specs.Stop.{ReadsOnly, IsRefused};
ghost use Rattle.fz_base.specs.Source.{logged, MayLog};
ghost use Rattle.fz_table.specs.declared.array.Descriptor.{Descriptor};
ghost use Rattle.fz_table.specs.Rows.{descriptor_len, descriptor_in, descriptor_start, descriptor_at};
ghost use Rattle.fz_table.specs.Rows.{heap_range, range_of, descriptor_bytes, packed_row, FitsDescriptor};

use crate::{Column, Descriptor, Table};
use byteorder::{BigEndian, ByteOrder};
use fz_base::{Source, Stop};

/// The bytes of a wide descriptor.
pub(crate) const WIDE_LEN: usize = 16;

/// The bytes of a descriptor that is not wide.
pub(crate) const NARROW_LEN: usize = 8;

/// Reads the descriptor of a column in a row, by one reading of its 8 or 16 bytes (FITS 4.0, section
/// 7.3.5). Both numbers are read as unsigned.
///
/// It stops with ReadFault or NoMemory if the source does, and refuses nothing.
pub fn descriptor<S: Source>(
    source: &mut S,
    table: &Table,
    column: &Column,
    row: u32,
) -> Result<Descriptor, Stop>
    requires row { row < table.now.rows }
    requires rows { (n : ℕ) × (S.attached source.old ≡ Some n) × (table.now.rows_at + table.now.row_bytes * table.now.rows ≤ n) }
    requires column { column.now.at + descriptor_len column.now.wide ≤ table.now.row_bytes }
    ensures exact { IfOk result (λ d. IfSome (S.held source.old) (λ g. d ≡ descriptor_at g table.now column.now row)) }
    ensures read { OnOk result (S.ranges source.new
        ≡ logged (descriptor_start table.now column.now row) (descriptor_len column.now.wide) (S.ranges source.old)) }
    ensures failed { OnErr result
        (MayLog (descriptor_start table.now column.now row) (descriptor_len column.now.wide) (S.ranges source.old)
        (S.ranges source.new)) }
    ensures source { SourceStays S.held S.attached S.ranges source.old source.new }
    ensures cause { ReadsOnly (S.tally source.old) (S.tally source.new) result }
    ensures unrefused { ¬ (IsRefused result) }
{
    let mut bytes = [0; WIDE_LEN];
    let (read, _) = bytes.split_at_mut(descriptor_len(column.wide));
    source
        .read_at(row_start(table, row) + u64::from(column.at), read)
        .map_err(Stop::reading)?;
    Ok(descriptor_in(read, column.wide))
}

/// The byte of the file at which a row begins.
pub(crate) fn row_start(table: &Table, row: u32) -> u64
    requires row { row < table.now.rows }
    requires rows { table.now.rows_at + table.now.row_bytes * table.now.rows < 2 ^ 64 }
    ensures start { result ≡ table.now.rows_at + table.now.row_bytes * row }
    ensures within { result + table.now.row_bytes ≤ table.now.rows_at + table.now.row_bytes * table.now.rows }
{
    table.rows_at + u64::from(table.row_bytes) * u64::from(row)
}

/// The bytes of a descriptor.
pub(crate) fn descriptor_len(wide: bool) -> usize
    ensures { result ≡ descriptor_len wide }
{
    if wide { WIDE_LEN } else { NARROW_LEN }
}

/// The descriptor at the front of these bytes.
pub(crate) fn descriptor_in(bytes: &[u8], wide: bool) -> Descriptor
    requires { descriptor_len wide ≤ len bytes.now }
    ensures { result ≡ descriptor_in wide bytes.now }
{
    let (_, second) = bytes.split_at(descriptor_len(wide) / 2);
    if wide {
        Descriptor {
            count: BigEndian::read_u64(bytes),
            offset: BigEndian::read_u64(second),
        }
    } else {
        Descriptor {
            count: u64::from(BigEndian::read_u32(bytes)),
            offset: u64::from(BigEndian::read_u32(second)),
        }
    }
}

/// What is described in a column that is not there.
pub(crate) const NOTHING: Descriptor = Descriptor {
    count: 0,
    offset: 0,
};

/// The range of the file that a descriptor describes, by its start and its length in bytes, or None
/// if and only if it passes the end of the heap.
pub fn range(table: &Table, column: &Column, d: &Descriptor) -> Option<(u64, u64)>
    requires { table.now.heap_at + table.now.heap_len ≤ 2 ^ 62 }
    ensures { result ≡ range_of table.now column.now d.now }
{
    heap_range(table, column.unit, d)
}

/// The same for elements of so many bytes.
pub(crate) fn heap_range(table: &Table, unit: u32, d: &Descriptor) -> Option<(u64, u64)>
    requires { table.now.heap_at + table.now.heap_len ≤ 2 ^ 62 }
    ensures { result ≡ heap_range table.now unit d.now }
{
    let len = d.count.checked_mul(u64::from(unit))?;
    let end = d.offset.checked_add(len)?;
    if end > table.heap_len {
        return None;
    }
    Some((table.heap_at + d.offset, len))
}

/// Writes a row of two descriptors: that of the tile's code, then that of its plain bytes (FITS 4.0,
/// sections 7.3.5 and 10.1.3).
pub fn write_row(into: &mut [u8], wide: bool, coded: &Descriptor, stored: &Descriptor)
    requires room { len into.old ≡ 2 * descriptor_len wide }
    requires coded { FitsDescriptor wide coded.now }
    requires stored { FitsDescriptor wide stored.now }
    ensures { into.new ≡ packed_row wide coded.now stored.now }
{
    let (first, second) = into.split_at_mut(descriptor_len(wide));
    write_descriptor(first, wide, coded);
    write_descriptor(second, wide, stored);
}

// Writes a descriptor.
fn write_descriptor(into: &mut [u8], wide: bool, d: &Descriptor)
    requires room { len into.old ≡ descriptor_len wide }
    requires fits { FitsDescriptor wide d.now }
    ensures { into.new ≡ descriptor_bytes wide d.now.count d.now.offset }
{
    let (count, offset) = into.split_at_mut(descriptor_len(wide) / 2);
    if wide {
        BigEndian::write_u64(count, d.count);
        BigEndian::write_u64(offset, d.offset);
    } else {
        BigEndian::write_u32(count, d.count as u32);
        BigEndian::write_u32(offset, d.offset as u32);
    }
}

/// A descriptor that was written is read again.
pub fn descriptor_law()
    ensures { (wide : Bool) (d : Descriptor) (rest : List ℕ) → FitsDescriptor wide d
        → descriptor_in wide (descriptor_bytes wide d.count d.offset ++ rest) ≡ d }
{}

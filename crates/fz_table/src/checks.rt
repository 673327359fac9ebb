//! The checks of a packed table before those of its columns' names.
ghost use Rattle.std.specs.Prelude.{◌≡◌, ◌+◌, ◌*◌, ◌≤◌, ◌<◌, ◌^◌, ◌++◌, pos, Some, None, IfOk, OnOk};
ghost use Rattle.std.specs.List.{flat_map, range_with_len};
ghost use Rattle.fz_base.specs.Refusal.{IsFirstOf};
ghost use Rattle.fz_block.specs.Facts.{IsHeaderOf};
ghost use Rattle.fz_block.specs.Header.{next_start_of};
ghost use Rattle.fz_table.specs.Columns.{field_count, form_of, width_of, columns_len};
ghost use Rattle.fz_table.specs.Tables.{array_checks, field_checks, form_checks, width_checks, heap_checks};
ghost use Rattle.fz_table.specs.Tables.{heap_start_of, row_len_of, row_count_of, rows_len_of};

use crate::cards::{bad_table, first_named, form_of, integer_at};
use fz_base::Fault;
use fz_block::{Header, refusals_law};
use fz_card::{Name, numbered};

/// The most columns of a table.
const MAX_FIELDS: i64 = 999;

/// BITPIX is 8, there are two axes, and one group. The data are then the rows and PCOUNT bytes.
pub(crate) fn check_array(header: &Header) -> Result<(), Fault>
    ensures array { OnOk result ((header.now.bitpix ≡ pos 8) × (header.now.axes.n ≡ 2) × (header.now.gcount ≡ 1)) }
    ensures exact { IsFirstOf (array_checks header.now) result }
{
    if header.bitpix != 8 {
        return Err(bad_table(header, Some(1)));
    }
    if header.axes.n != 2 {
        return Err(bad_table(header, Some(2)));
    }
    if header.gcount != 1 {
        return Err(bad_table(header, Some(6)));
    }
    Ok(())
}

/// TFIELDS, the number of columns.
pub(crate) fn field_count(buf: &[u8], header: &Header) -> Result<u32, Fault>
    requires { IsHeaderOf buf.now header.now }
    ensures exact { IsFirstOf (field_checks buf.now header.now) result }
    ensures count { IfOk result (λ n. (n ≡ field_count buf.now) × (n < 1000)) }
{
    let found = first_named(buf, header, &Name::TFIELDS);
    match integer_at(buf, found) {
        Some(n @ 1..=MAX_FIELDS) => Ok(n as u32),
        _ => Err(bad_table(header, found)),
    }
}

/// The bytes of the first so many columns in a row.
pub(crate) fn columns_len(buf: &[u8], header: &Header, fields: u32) -> Result<u64, Fault>
    requires header { IsHeaderOf buf.now header.now }
    requires few { fields < 1000 }
    ensures exact { IsFirstOf (flat_map (form_checks buf.now header.now) (range_with_len 1 fields)) result }
    ensures len { IfOk result (λ n. n ≡ columns_len buf.now fields) }
{
    refusals_law();
    let mut len = 0;
    for before in 0..fields {
        len += width(buf, header, before + 1)?;
    }
    Ok(len)
}

// The bytes of column i in a row.
fn width(buf: &[u8], header: &Header, i: u32) -> Result<u64, Fault>
    requires header { IsHeaderOf buf.now header.now }
    requires column { i < 1000 }
    ensures exact { IsFirstOf (form_checks buf.now header.now i) result }
    ensures len { IfOk result (λ n. n ≡ width_of (form_of buf.now i)) }
    ensures short { IfOk result (λ n. n < 2 ^ 34) }
{
    match form_of(buf, header, i) {
        Some(form) => Ok(form.len),
        None => Err(bad_table(header, first_named(buf, header, &numbered(b"TFORM", i)))),
    }
}

/// NAXIS1, the length of a row: the columns fill it.
#[tactic(auto, using(crate::proofs::Refusals::refusals))]
pub(crate) fn row_len(buf: &[u8], header: &Header, fields: u32) -> Result<u32, Fault>
    requires header { IsHeaderOf buf.now header.now }
    requires count { (fields ≡ field_count buf.now) × (fields < 1000) }
    ensures exact { IsFirstOf (flat_map (form_checks buf.now header.now) (range_with_len 1 fields) ++ width_checks buf.now header.now) result }
    ensures len { IfOk result (λ n. (n ≡ row_len_of header.now) × (n ≡ columns_len buf.now fields)) }
{
    let len = header.axes.len[0];
    if columns_len(buf, header, fields)? == u64::from(len) {
        Ok(len)
    } else {
        Err(bad_table(header, Some(3)))
    }
}

/// The byte of the data at which the heap begins: after the rows, and within the data.
pub(crate) fn heap_start(buf: &[u8], header: &Header) -> Result<u64, Fault>
    requires header { IsHeaderOf buf.now header.now }
    requires data { header.now.data_len ≡ rows_len_of header.now + header.now.pcount }
    ensures exact { IsFirstOf (heap_checks buf.now header.now) result }
    ensures start { IfOk result (λ n. n ≡ heap_start_of buf.now header.now) }
    ensures within { IfOk result (λ n. (rows_len_of header.now ≤ n) × (n ≤ header.now.data_len)) }
{
    let rows_end = u64::from(header.axes.len[0]) * u64::from(header.axes.len[1]);
    let found = first_named(buf, header, &Name::THEAP);
    if found.is_none() {
        return Ok(rows_end);
    }
    match integer_at(buf, found) {
        Some(n) if n >= 0 && rows_end <= n as u64 && n as u64 <= header.data_len => Ok(n as u64),
        _ => Err(bad_table(header, found)),
    }
}

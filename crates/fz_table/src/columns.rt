//! The columns of a packed image among those of a table.
ghost use Rattle.std.specs.Prelude.{◌≡◌, ◌-◌, ◌<◌, ◌^◌, Some, None, IfOk, IfSome};
ghost use Rattle.std.specs.List.{flat_map, range_with_len};
ghost use Rattle.fz_base.specs.Refusal.{IsFirstOf};
ghost use Rattle.fz_block.specs.Facts.{IsHeaderOf};
ghost use Rattle.fz_table.specs.Columns.{form_of, width_of, columns_len, column_of, describes, is_element, unit_of};
ghost use Rattle.fz_table.specs.Tables.{name_checks, column_checks};
ghost use Rattle.fz_table.specs.Found.{IsFound, AreFound, HaveBytes};

use crate::Column;
use crate::cards::{bad_table, first_named, form_of, is_called};
use crate::form::{Form, elements_len, is_descriptor};
use fz_base::Fault;
use fz_block::{Header, refusals_law};
use fz_card::numbered;

/// The letters that elements of the tiles' codes and plain bytes may have.
const TILE_LETTERS: [u8; 4] = *b"BIJK";

/// The letters that elements of another algorithm's codes may have: all but those of descriptors.
const GZIP_LETTERS: [u8; 11] = *b"LXBIJKAEDCM";

/// The columns of a packed image.
#[derive(Clone, Copy)]
pub(crate) struct Columns {
    pub(crate) coded: Option<Column>,
    pub(crate) stored: Option<Column>,
    pub(crate) gzip: Option<Column>,
}

/// The columns of a packed image among so many columns, which fill the row.
pub(crate) fn packed_columns(buf: &[u8], header: &Header, fields: u32) -> Result<Columns, Fault>
    requires header { IsHeaderOf buf.now header.now }
    requires few { fields < 1000 }
    requires row { columns_len buf.now fields < 2 ^ 32 }
    ensures exact { IsFirstOf (flat_map (column_checks buf.now header.now) (range_with_len 1 fields)) result }
    ensures found { IfOk result (AreFound buf.now fields) }
{
    refusals_law();
    let mut found = Columns {
        coded: None,
        stored: None,
        gzip: None,
    };
    let mut at = 0;
    for before in 0..fields {
        found = with_column(buf, header, before + 1, at, found)?;
        at += width(buf, header, before + 1);
    }
    Ok(found)
}

// The bytes of column i in a row.
fn width(buf: &[u8], header: &Header, i: u32) -> u64
    requires header { IsHeaderOf buf.now header.now }
    requires column { i < 1000 }
    ensures { result ≡ width_of (form_of buf.now i) }
{
    match form_of(buf, header, i) {
        Some(form) => form.len,
        None => 0,
    }
}

// The columns of a packed image among the first i, of which column i is at this byte of the row.
#[tactic(auto, using(crate::proofs::Refusals::refusals))]
fn with_column(
    buf: &[u8],
    header: &Header,
    i: u32,
    at: u64,
    before: Columns,
) -> Result<Columns, Fault>
    requires header { IsHeaderOf buf.now header.now }
    requires column { (0 < i) × (i < 1000) }
    requires at { at ≡ columns_len buf.now (i - 1) }
    requires short { at < 2 ^ 32 }
    requires before { AreFound buf.now (i - 1) before }
    ensures exact { IsFirstOf (column_checks buf.now header.now i) result }
    ensures found { IfOk result (AreFound buf.now i) }
{
    Ok(Columns {
        coded: named_column(
            buf,
            header,
            i,
            at,
            b"COMPRESSED_DATA",
            &TILE_LETTERS,
            before.coded,
        )?,
        stored: named_column(
            buf,
            header,
            i,
            at,
            b"UNCOMPRESSED_DATA",
            &TILE_LETTERS,
            before.stored,
        )?,
        gzip: named_column(
            buf,
            header,
            i,
            at,
            b"GZIP_COMPRESSED_DATA",
            &GZIP_LETTERS,
            before.gzip,
        )?,
    })
}

// The column of this name among the first i, if `before` is that among the columns before it.
fn named_column(
    buf: &[u8],
    header: &Header,
    i: u32,
    at: u64,
    name: &[u8],
    letters: &[u8],
    before: Option<Column>,
) -> Result<Option<Column>, Fault>
    requires header { IsHeaderOf buf.now header.now }
    requires column { (0 < i) × (i < 1000) }
    requires at { at ≡ columns_len buf.now (i - 1) }
    requires short { at < 2 ^ 32 }
    requires before { IsFound name.now buf.now (i - 1) before }
    requires letters { HaveBytes letters.now }
    ensures exact { IsFirstOf (name_checks name.now letters.now buf.now header.now i) result }
    ensures found { IfOk result (IsFound name.now buf.now i) }
{
    if !is_called(buf, header, i, name) {
        return Ok(before);
    }
    if before.is_some() {
        return Err(bad_table(header, first_named(buf, header, &numbered(b"TTYPE", i))));
    }
    match form_of(buf, header, i) {
        Some(form) if describes(letters, &form) => Ok(Some(column_of(at as u32, &form))),
        _ => Err(bad_table(header, first_named(buf, header, &numbered(b"TFORM", i)))),
    }
}

/// Whether the form of column i is one array descriptor of elements of one of these letters.
pub fn is_described(buf: &[u8], header: &Header, i: u32, letters: &[u8]) -> bool
    requires header { IsHeaderOf buf.now header.now }
    requires column { i < 1000 }
    ensures { result ≡ describes letters.now (form_of buf.now i) }
{
    match form_of(buf, header, i) {
        Some(form) => describes(letters, &form),
        None => false,
    }
}

// Whether the form is one array descriptor of elements of one of these letters.
fn describes(letters: &[u8], form: &Form) -> bool
    ensures { result ≡ describes letters.now (Some form.now) }
{
    is_descriptor(form.letter) && form.repeat == 1 && is_element(letters, form.element)
}

// Whether there is a letter, and it is one of these.
fn is_element(letters: &[u8], element: Option<u8>) -> bool
    ensures { result ≡ is_element letters.now element }
{
    match element {
        Some(element) => letters.contains(&element),
        None => false,
    }
}

// The column of descriptors of this form that is at this byte of the row.
fn column_of(at: u32, form: &Form) -> Column
    ensures { result ≡ column_of at (Some form.now) }
{
    Column {
        at,
        wide: form.letter == b'Q',
        unit: unit_of(form.element),
    }
}

// The bytes of an element of the described array.
fn unit_of(element: Option<u8>) -> u32
    ensures { result ≡ unit_of element }
{
    match element {
        Some(letter) => elements_len(letter, 1).unwrap_or(0) as u32,
        None => 0,
    }
}

//! Whether a packed image can be patched: it is the last HDU, and its table has the form that `pack` writes.
ghost use Rattle.std.specs.Prelude.{◌≡◌, ◌==◌, ◌+◌, ◌*◌, ◌^◌, ◌<◌, ◌≤◌, [], ◌∷◌, not};
ghost use Rattle.fz_base.specs.Refusal.{IsFirstOf, refusal};
ghost use Rattle.fz_base.specs.declared.fault.Place.TheVariants.{Byte as AtByte, Card as AtCard};
ghost use Rattle.fz_base.specs.declared.kind.Kind.TheVariants.{Unpatchable as IsUnpatchable};
ghost use Rattle.fz_block.specs.Facts.{IsHeaderOf};
ghost use Rattle.fz_block.specs.Hdus.{size_in as size_in_of};
ghost use Rattle.fz_block.specs.Header.{next_start_of};
ghost use Rattle.fz_checks.specs.JobChecks.{IsImageOf};
ghost use Rattle.fz_table.specs.Columns.{field_count as field_count_of};
ghost use Rattle.fz_table.specs.Rows.{IsTable};
ghost use Rattle.fz_laws.specs.PatchForm.{has_form, has_letters as has_letters_of};
ghost use Rattle.fz_laws.specs.PatchForm.{has_pixel_codes as has_pixel_codes_of, has_two_columns as has_two_columns_of, has_wide};

use fz_base::{Fault, Kind, Place};
use fz_block::{Header, card, next_start};
use fz_card::Name;
use fz_checks::PackedImage;
use fz_head::{coded_letter, stored_letter};
use fz_table::{Column, first_named, is_called, is_described};
use fz_tile::Codec;

/// Refused with Unpatchable, at the byte after it, if this is not the last HDU of a file with so many bytes; and then at
/// card 0 if its table has not the form of one that can be patched.
pub(crate) fn check_form(
    length: u64,
    header: &Header,
    buf: &[u8],
    image: &PackedImage,
) -> Result<(), Fault>
    requires header { IsHeaderOf buf.now header.now }
    requires end { next_start_of header.now ≤ 2 ^ 62 }
    requires image { IsImageOf buf.now header.now image.now }
    requires table { IsTable image.now.table }
    ensures exact { IsFirstOf ((not (next_start_of header.now == length), refusal header.now.hdu (AtByte (next_start_of header.now)) IsUnpatchable)
        ∷ (not (has_form buf.now header.now image.now.plan), refusal header.now.hdu (AtCard 0) IsUnpatchable) ∷ []) result }
{
    let end = next_start(header);
    if end != length {
        return Err(unpatchable(header, Place::Byte(end)));
    }
    if !is_form(header, buf, image) {
        return Err(unpatchable(header, Place::Card(0)));
    }
    Ok(())
}

// The image cannot be patched.
fn unpatchable(header: &Header, at: Place) -> Fault
    ensures { result ≡ refusal header.now.hdu at IsUnpatchable }
{
    Fault {
        hdu: header.hdu,
        at,
        kind: Kind::Unpatchable,
    }
}

// Whether the table has the form of one that can be patched.
fn is_form(header: &Header, buf: &[u8], image: &PackedImage) -> bool
    requires header { IsHeaderOf buf.now header.now }
    requires end { next_start_of header.now ≤ 2 ^ 62 }
    requires image { IsImageOf buf.now header.now image.now }
    requires table { IsTable image.now.table }
    ensures { result ≡ has_form buf.now header.now image.now.plan }
{
    has_two_columns(header, buf)
        && has_letters(header, buf, image)
        && has_heap_after_rows(image)
        && has_pixel_codes(image)
}

// Whether the table has two columns, first that of the codes and then that of the plain bytes.
fn has_two_columns(header: &Header, buf: &[u8]) -> bool
    requires header { IsHeaderOf buf.now header.now }
    ensures { result ≡ has_two_columns_of buf.now }
{
    field_count(header, buf) == 2
        && is_called(buf, header, 1, b"COMPRESSED_DATA")
        && is_called(buf, header, 2, b"UNCOMPRESSED_DATA")
}

// How many columns the table says that it has.
fn field_count(header: &Header, buf: &[u8]) -> u64
    requires header { IsHeaderOf buf.now header.now }
    ensures { result ≡ field_count_of buf.now }
{
    let Some(found) = first_named(buf, header, &Name::TFIELDS) else {
        return 0;
    };
    size_in(card(buf, found).int())
}

// How large the number is, without its sign; 0 if there is none.
fn size_in(number: Option<i64>) -> u64
    ensures { result ≡ size_in_of number }
{
    match number {
        Some(n) => n.unsigned_abs(),
        None => 0,
    }
}

// Whether the columns have the elements that `pack` gives them, and descriptors of one width.
fn has_letters(header: &Header, buf: &[u8], image: &PackedImage) -> bool
    requires header { IsHeaderOf buf.now header.now }
    requires image { IsImageOf buf.now header.now image.now }
    ensures { result ≡ has_letters_of buf.now image.now.plan }
{
    let coded = coded_letter(image.plan.codec).as_bytes();
    let stored = stored_letter(&image.plan).as_bytes();
    is_described(buf, header, 1, coded)
        && is_described(buf, header, 2, stored)
        && is_wide(image.table.coded) == is_wide(image.table.stored)
}

/// Whether the column is there, and has descriptors of 64 bits.
pub(crate) fn is_wide(column: Option<Column>) -> bool
    ensures { result ≡ has_wide column }
{
    match column {
        Some(column) => column.wide,
        None => false,
    }
}

// Whether the heap begins directly after the rows.
fn has_heap_after_rows(image: &PackedImage) -> bool
    requires { IsTable image.now.table }
    ensures { result ≡ (image.now.table.heap_at == image.now.table.rows_at + image.now.table.row_bytes * image.now.table.rows) }
{
    let table = &image.table;
    table.heap_at == table.rows_at + u64::from(table.row_bytes) * u64::from(table.rows)
}

// Whether the numbers of a Rice code are as long as a pixel.
fn has_pixel_codes(image: &PackedImage) -> bool
    ensures { result ≡ has_pixel_codes_of image.now.plan.codec image.now.plan.bitpix }
{
    match image.plan.codec {
        Codec::Rice { bytepix, .. } => bytepix == image.plan.bitpix.unsigned_abs() / 8,
        Codec::Plio | Codec::Plain => true,
    }
}

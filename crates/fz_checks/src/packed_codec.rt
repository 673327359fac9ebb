//! The checks of what a packed header says of scaling, of the codec and of the pixels.
ghost use Rattle.std.specs.Prelude.{◌≡◌, ◌+◌, ◌*◌, ◌<◌, ◌≤◌, ◌^◌, ◌||◌, ◌&&◌, not, true, [], ◌∷◌, None, Some, pos, negsuc, codes};
ghost use Rattle.std.specs.Prelude.{position, unwrap_or, IfOk, length as len};
ghost use Rattle.fz_base.specs.Refusal.{IsFirstOf};
ghost use Rattle.fz_card.specs.Reading.{text_of};
ghost use Rattle.fz_block.specs.Facts.{IsHeaderOf};
ghost use Rattle.fz_block.specs.Hdus.{cards_of};
ghost use Rattle.fz_head.specs.PackedChecks.{bitpix_checks, codec_checks, column_count as column_count_of, is_integer};
ghost use Rattle.fz_head.specs.PackedChecks.{is_integer_size as is_integer_size_of, is_scaling as is_scaling_of};
ghost use Rattle.fz_head.specs.PackedChecks.{names_scaling as names_scaling_of, scaling_check};
ghost use Rattle.fz_head.specs.PackedPlan.{is_codec_name, is_plain_name, is_plio_name, is_rice_name, said_bitpix, said_codec};
ghost use Rattle.fz_head.specs.Written.{first_cards};

use crate::said::{
    at_name, integer_said, is_integer, is_no_text, is_text, refuse_when, require, size,
};
use fz_base::{Fault, Kind};
use fz_block::{Header, card, refuse_at};
use fz_card::{Card, FIELD_LEN, Name, is_numbered};
use fz_head::has_name;

/// No pixels were scaled or masked.
pub(crate) fn check_scaling(buf: &[u8], header: &Header) -> Result<(), Fault>
    requires header { IsHeaderOf buf.now header.now }
    requires few { column_count_of (cards_of buf.now) < 2 ^ 32 }
    ensures { IsFirstOf (scaling_check header.now.hdu (cards_of buf.now) ∷ []) result }
{
    let columns = column_count(buf, header);
    refuse_at(header, scaling_card(buf, header, columns), Kind::Quantised)
}

// How many columns the table has.
fn column_count(buf: &[u8], header: &Header) -> u32
    requires header { IsHeaderOf buf.now header.now }
    requires few { column_count_of (cards_of buf.now) < 2 ^ 32 }
    ensures { result ≡ column_count_of (cards_of buf.now) }
{
    size(integer_said(buf, header, &Name::TFIELDS)) as u32
}

// The index of the first card that says that pixels were scaled or masked, in a table of so many columns.
fn scaling_card(buf: &[u8], header: &Header, columns: u32) -> Option<u32>
    requires { IsHeaderOf buf.now header.now }
    ensures { result ≡ position (is_scaling_of columns) (cards_of buf.now) }
{
    first_scaling(buf, header.cards, columns)
}

// The index of the first of so many cards that says that pixels were scaled or masked, in a table of so
// many columns.
fn first_scaling(buf: &[u8], cards: u32, columns: u32) -> Option<u32>
    requires { 80 * cards ≤ len buf.now }
    ensures { result ≡ position (is_scaling_of columns) (first_cards buf.now cards) }
{
    for i in 0..cards {
        if is_scaling(&card(buf, i), columns) {
            return Some(i);
        }
    }
    None
}

// Whether the card says that pixels were scaled or masked.
fn is_scaling(card: &Card, columns: u32) -> bool
    ensures { result ≡ is_scaling_of columns card.now.bytes }
{
    has_name(card, &Name::ZSCALE)
        || has_name(card, &Name::ZZERO)
        || (is_numbered(card.name(), b"TTYPE", columns) && names_scaling(card))
}

// Whether the text of the card names a column of scaled or masked pixels, in any case of letters.
fn names_scaling(card: &Card) -> bool
    ensures { result ≡ names_scaling_of (text_of card.now.bytes) }
{
    let mut text = [0; FIELD_LEN];
    match card.text(&mut text) {
        Some(count) => is_scaling_column(&text[..count]),
        None => false,
    }
}

// Whether this is the name of a column of scaled or masked pixels.
fn is_scaling_column(text: &[u8]) -> bool
    ensures { result ≡ names_scaling_of (Some text.now) }
{
    text.eq_ignore_ascii_case(b"ZSCALE")
        || text.eq_ignore_ascii_case(b"ZZERO")
        || text.eq_ignore_ascii_case(b"ZBLANK")
        || text.eq_ignore_ascii_case(b"NULL_PIXEL_MASK")
}

/// Whether the codec is RICE_1.
pub(crate) fn says_rice(buf: &[u8], header: &Header) -> bool
    requires { IsHeaderOf buf.now header.now }
    ensures { result ≡ is_rice_name (said_codec (cards_of buf.now)) }
{
    is_text(buf, header, &Name::ZCMPTYPE, b"RICE_1")
        || is_text(buf, header, &Name::ZCMPTYPE, b"RICE_ONE")
}

/// Whether the codec is PLIO_1.
pub(crate) fn says_plio(buf: &[u8], header: &Header) -> bool
    requires { IsHeaderOf buf.now header.now }
    ensures { result ≡ is_plio_name (said_codec (cards_of buf.now)) }
{
    is_text(buf, header, &Name::ZCMPTYPE, b"PLIO_1")
}

// Whether the tiles are plain bytes.
fn says_plain(buf: &[u8], header: &Header) -> bool
    requires { IsHeaderOf buf.now header.now }
    ensures { result ≡ is_plain_name (said_codec (cards_of buf.now)) }
{
    is_text(buf, header, &Name::ZCMPTYPE, b"NOCOMPRESS")
}

// Whether ZCMPTYPE names one of the codecs.
fn says_codec(buf: &[u8], header: &Header) -> bool
    requires { IsHeaderOf buf.now header.now }
    ensures { result ≡ is_codec_name (said_codec (cards_of buf.now)) }
{
    says_rice(buf, header) || says_plio(buf, header) || says_plain(buf, header)
}

/// ZCMPTYPE names one of the codecs.
pub(crate) fn check_codec(buf: &[u8], header: &Header) -> Result<(), Fault>
    requires { IsHeaderOf buf.now header.now }
    ensures { IsFirstOf (codec_checks header.now.hdu (cards_of buf.now)) result }
{
    require(buf, header, &Name::ZCMPTYPE)?;
    let no_text = is_no_text(buf, header, &Name::ZCMPTYPE);
    refuse_when(
        no_text,
        at_name(buf, header, &Name::ZCMPTYPE, Kind::BadCard),
    )?;
    let unknown = !says_codec(buf, header);
    refuse_when(
        unknown,
        at_name(buf, header, &Name::ZCMPTYPE, Kind::UnknownCodec),
    )
}

// Whether the bits of a pixel are those of a floating-point number.
fn is_float(bitpix: Option<i64>) -> bool
    ensures { result ≡ (is_integer (negsuc 31) bitpix || is_integer (negsuc 63) bitpix) }
{
    is_integer(bitpix, -32) || is_integer(bitpix, -64)
}

// Whether the bits of a pixel are those of an integer.
fn is_integer_size(bitpix: Option<i64>) -> bool
    ensures { result ≡ is_integer_size_of bitpix }
{
    is_integer(bitpix, 8)
        || is_integer(bitpix, 16)
        || is_integer(bitpix, 32)
        || is_integer(bitpix, 64)
}

// Whether a pixel has 64 bits, and is no plain bytes.
fn is_coded_long(buf: &[u8], header: &Header, bitpix: Option<i64>) -> bool
    requires { IsHeaderOf buf.now header.now }
    ensures { result ≡ (is_integer (pos 64) bitpix && not (is_plain_name (said_codec (cards_of buf.now)))) }
{
    is_integer(bitpix, 64) && !says_plain(buf, header)
}

/// ZBITPIX is that of an integer image, and pixels of 64 bits have no code.
pub(crate) fn check_bitpix(buf: &[u8], header: &Header) -> Result<i32, Fault>
    requires { IsHeaderOf buf.now header.now }
    ensures exact { IsFirstOf (bitpix_checks header.now.hdu (cards_of buf.now)) result }
    ensures value { IfOk result (λ v. v ≡ said_bitpix (cards_of buf.now)) }
{
    let bitpix = integer_said(buf, header, &Name::ZBITPIX);
    require(buf, header, &Name::ZBITPIX)?;
    refuse_when(
        is_float(bitpix),
        at_name(buf, header, &Name::ZBITPIX, Kind::Quantised),
    )?;
    let other = !is_integer_size(bitpix);
    refuse_when(other, at_name(buf, header, &Name::ZBITPIX, Kind::BadCard))?;
    let coded = is_coded_long(buf, header, bitpix);
    refuse_when(
        coded,
        at_name(buf, header, &Name::ZCMPTYPE, Kind::UnknownCodec),
    )?;
    Ok(bitpix_of(bitpix))
}

// The bits of a pixel of an integer image, as a number of 32 bits.
fn bitpix_of(bitpix: Option<i64>) -> i32
    requires { is_integer_size_of bitpix ≡ true }
    ensures { result ≡ unwrap_or bitpix (pos 0) }
{
    match bitpix {
        Some(v) => v as i32,
        None => 0,
    }
}

//! The plan that a packed header stands for, and the checks that it has to pass.
ghost use Rattle.std.specs.Prelude.{◌≡◌, ◌==◌, ◌≤◌, ◌&&◌, not, true, false, [], ◌∷◌, None, Some, Ok, pos, codes, position, is_some, unwrap_or, IfOk};
ghost use Rattle.fz_base.specs.Refusal.{IsFirstOf, refusal};
ghost use Rattle.fz_base.specs.declared.fault.Place.TheVariants.{Card as AtCard};
ghost use Rattle.fz_base.specs.declared.kind.Kind.TheVariants.{RowCount};
ghost use Rattle.fz_card.specs.Reading.{integer_of, logical_of, text_of, is_text as is_text_of};
ghost use Rattle.fz_block.specs.Facts.{IsHeaderOf, nine_axes};
ghost use Rattle.fz_block.specs.Hdus.{cards_of};
ghost use Rattle.fz_grid.specs.Grid.{tile_count};
ghost use Rattle.fz_grid.specs.Region.{IsDivided, lengths_of};
ghost use Rattle.fz_table.specs.Tables.{table_of};
ghost use Rattle.fz_tile.specs.Codecs.{CanRead};
ghost use Rattle.fz_head.specs.CardLists.{index_of, the_card};
ghost use Rattle.fz_head.specs.Packable.{is_packed};
ghost use Rattle.fz_head.specs.PackChecks.{is_offset};
ghost use Rattle.fz_head.specs.PackedChecks.{has_word, is_integer as is_integer_of, line_list_check, must_be, plan_answer, sort_checks};
ghost use Rattle.fz_head.specs.PackedPlan.{codec_named, plan_of_cards, said_axes, said_bitpix, said_codec, said_tile, word_in};
ghost use Rattle.fz_head.specs.PlainHeader.{was_primary};

use crate::packed_codec::{check_bitpix, check_codec, check_scaling, says_plio};
use crate::packed_rice::check_parameters;
use crate::packed_shape::check_shape;
use crate::said::{at_name, integer_said, is_integer, is_text, is_true, refuse_when, stands};
use fz_base::{Fault, Kind};
use fz_block::{Axes, Header, refuse_at, refuse_if};
use fz_card::Name;
use fz_grid::Grid;
use fz_head::{Plan, first_offset, is_wide};
use fz_table::Table;
use fz_tile::Codec;

/// The plan that a packed header stands for. `after_empty` says that this is HDU 1 after a primary with
/// NAXIS 0.
///
/// Refused, in this order: pixels were scaled or masked (Quantised); ZCMPTYPE is missing or no text
/// (BadCard), or names no codec (UnknownCodec); ZBITPIX is missing (BadCard), of floating-point numbers
/// (Quantised), no size of an integer (BadCard), or 64 beside a code (UnknownCodec); ZNAXIS or ZNAXISi is
/// missing or no number above 0 (BadCard), or passes a limit (Limit); ZTILEi is there and is no number above
/// 0 (BadCard); the pixels, those of a tile or the tiles are too many (Limit); a parameter of RICE_1 has no
/// allowed value (BadCard, UnknownCodec); ZSIMPLE or ZTENSION has none (BadCard), ZSIMPLE is elsewhere
/// (MisplacedPrimary), or ZPCOUNT or ZGCOUNT beside no ZSIMPLE has none (BadCard); PLIO_1 is beside an
/// offset (PlioOffset); NAXIS2 is not the number of tiles (RowCount).
pub fn plan_of(buf: &[u8], header: &Header, table: &Table, after_empty: bool) -> Result<Plan, Fault>
    requires header { IsHeaderOf buf.now header.now }
    requires packed { is_packed buf.now header.now ≡ true }
    requires table { table_of buf.now header.now ≡ Ok table.now }
    ensures exact { result ≡ plan_answer header.now.hdu buf.now after_empty }
    ensures divided { IfOk result (λ p. IsDivided p.shape p.tile) }
    ensures readable { IfOk result (λ p. CanRead p.codec p.bitpix) }
    ensures rows { IfOk result (λ p. table.now.rows ≡ tile_count (lengths_of p.shape) (lengths_of p.tile)) }
{
    check_scaling(buf, header)?;
    check_codec(buf, header)?;
    let bitpix = check_bitpix(buf, header)?;
    let (shape, tile) = check_shape(buf, header)?;
    let codec = check_parameters(buf, header)?;
    check_sort(buf, header, after_empty)?;
    check_line_list(buf, header)?;
    check_rows(header, table, &shape, &tile)?;
    Ok(said_plan(buf, header, codec, bitpix, shape, tile))
}

// The plan by what the cards say.
fn said_plan(
    buf: &[u8],
    header: &Header,
    codec: Codec,
    bitpix: i32,
    shape: Axes,
    tile: Axes,
) -> Plan
    requires header { IsHeaderOf buf.now header.now }
    requires codec { codec ≡ codec_named (said_codec (cards_of buf.now)) (cards_of buf.now) }
    requires bitpix { bitpix ≡ said_bitpix (cards_of buf.now) }
    requires shape { shape ≡ nine_axes (said_axes (cards_of buf.now)) }
    requires tile { tile ≡ nine_axes (said_tile (cards_of buf.now)) }
    requires few { shape.n ≤ 9 }
    ensures exact { result ≡ plan_of_cards (cards_of buf.now) }
    ensures parts { (result.codec ≡ codec) × (result.bitpix ≡ bitpix) }
    ensures axes { (result.shape ≡ shape) × (result.tile ≡ tile) }
{
    Plan {
        codec,
        bitpix,
        shape,
        tile,
        primary: was_primary(buf, header),
        wide: is_wide(bitpix, &shape),
    }
}

// Whether the image was a primary.
fn was_primary(buf: &[u8], header: &Header) -> bool
    requires { IsHeaderOf buf.now header.now }
    ensures { result ≡ was_primary (cards_of buf.now) }
{
    stands(buf, header, &Name::ZSIMPLE)
}

// Whether the first card of this name is there and says another number.
fn says_other(buf: &[u8], header: &Header, name: &Name, value: i64) -> bool
    requires { IsHeaderOf buf.now header.now }
    ensures { result ≡ (is_some (index_of name.now.bytes (cards_of buf.now)) && not
        (is_integer_of value (integer_of (the_card name.now.bytes (cards_of buf.now))))) }
{
    stands(buf, header, name) && !is_integer(integer_said(buf, header, name), value)
}

// Whether the image is an extension, of which this card says another number.
fn is_other_count(buf: &[u8], header: &Header, name: &Name, value: i64) -> bool
    requires { IsHeaderOf buf.now header.now }
    ensures { result ≡ (not (has_word (codes "ZSIMPLE") (cards_of buf.now)) &&
        (is_some (index_of name.now.bytes (cards_of buf.now)) && not
        (is_integer_of value (integer_of (the_card name.now.bytes (cards_of buf.now)))))) }
{
    !stands(buf, header, &Name::ZSIMPLE) && says_other(buf, header, name, value)
}

// ZPCOUNT of an extension is 0, if it is there.
fn check_pcount(buf: &[u8], header: &Header) -> Result<(), Fault>
    requires { IsHeaderOf buf.now header.now }
    ensures { IsFirstOf (must_be header.now.hdu (cards_of buf.now) (codes "ZPCOUNT") (pos 0) ∷ []) result }
{
    let other = is_other_count(buf, header, &Name::ZPCOUNT, 0);
    refuse_when(other, at_name(buf, header, &Name::ZPCOUNT, Kind::BadCard))
}

// ZGCOUNT of an extension is 1, if it is there.
fn check_gcount(buf: &[u8], header: &Header) -> Result<(), Fault>
    requires { IsHeaderOf buf.now header.now }
    ensures { IsFirstOf (must_be header.now.hdu (cards_of buf.now) (codes "ZGCOUNT") (pos 1) ∷ []) result }
{
    let other = is_other_count(buf, header, &Name::ZGCOUNT, 1);
    refuse_when(other, at_name(buf, header, &Name::ZGCOUNT, Kind::BadCard))
}

// Whether ZSIMPLE is there and is not T.
fn is_untrue(buf: &[u8], header: &Header) -> bool
    requires { IsHeaderOf buf.now header.now }
    ensures { result ≡ (has_word (codes "ZSIMPLE") (cards_of buf.now) && not
        (unwrap_or (logical_of (word_in (codes "ZSIMPLE") (cards_of buf.now))) false)) }
{
    stands(buf, header, &Name::ZSIMPLE) && !is_true(buf, header, &Name::ZSIMPLE)
}

// Whether ZTENSION is there and is not IMAGE.
fn is_no_image(buf: &[u8], header: &Header) -> bool
    requires { IsHeaderOf buf.now header.now }
    ensures { result ≡ (has_word (codes "ZTENSION") (cards_of buf.now) && not
        (is_text_of (codes "IMAGE") (text_of (word_in (codes "ZTENSION") (cards_of buf.now))))) }
{
    stands(buf, header, &Name::ZTENSION) && !is_text(buf, header, &Name::ZTENSION, b"IMAGE")
}

// Whether ZSIMPLE is elsewhere than after an empty primary.
fn is_misplaced(buf: &[u8], header: &Header, after_empty: bool) -> bool
    requires { IsHeaderOf buf.now header.now }
    ensures { result ≡ (has_word (codes "ZSIMPLE") (cards_of buf.now) && not after_empty) }
{
    stands(buf, header, &Name::ZSIMPLE) && !after_empty
}

// ZSIMPLE or ZTENSION say what the image is, and where it may be.
fn check_sort(buf: &[u8], header: &Header, after_empty: bool) -> Result<(), Fault>
    requires { IsHeaderOf buf.now header.now }
    ensures { IsFirstOf (sort_checks header.now.hdu (cards_of buf.now) after_empty) result }
{
    let untrue = is_untrue(buf, header);
    refuse_when(untrue, at_name(buf, header, &Name::ZSIMPLE, Kind::BadCard))?;
    let other = is_no_image(buf, header);
    refuse_when(other, at_name(buf, header, &Name::ZTENSION, Kind::BadCard))?;
    let misplaced = is_misplaced(buf, header, after_empty);
    refuse_when(
        misplaced,
        at_name(buf, header, &Name::ZSIMPLE, Kind::MisplacedPrimary),
    )?;
    check_pcount(buf, header)?;
    check_gcount(buf, header)
}

// The index of the first card that says an offset of the pixels that is not zero.
fn offset_card(buf: &[u8], header: &Header) -> Option<u32>
    requires { IsHeaderOf buf.now header.now }
    ensures { result ≡ position is_offset (cards_of buf.now) }
{
    first_offset(buf, header.cards)
}

// PLIO_1 takes no pixels with an offset.
fn check_line_list(buf: &[u8], header: &Header) -> Result<(), Fault>
    requires { IsHeaderOf buf.now header.now }
    ensures { IsFirstOf (line_list_check header.now.hdu (cards_of buf.now) ∷ []) result }
{
    if !says_plio(buf, header) {
        return Ok(());
    }
    refuse_at(header, offset_card(buf, header), Kind::PlioOffset)
}

// The table has a row for each tile.
fn check_rows(header: &Header, table: &Table, shape: &Axes, tile: &Axes) -> Result<(), Fault>
    requires divided { IsDivided shape.now tile.now }
    ensures { IsFirstOf ((
      not (table.now.rows == tile_count (lengths_of shape.now) (lengths_of tile.now)),
      refusal header.now.hdu
          (AtCard 4) RowCount,
    ) ∷ []) result }
{
    let tiles = Grid::new(*shape, *tile).tile_count();
    refuse_if(header, table.rows != tiles, 4, Kind::RowCount)
}

//! The plan of an image that is to be packed, and the checks that it has to pass.
ghost use Rattle.std.specs.Prelude.{ℕ, ◌≡◌, ◌==◌, ◌+◌, ◌*◌, ◌<◌, ◌≤◌, ◌^◌, true, false, not, List, [], ◌∷◌, None, Some, position};
ghost use Rattle.std.specs.Prelude.{slice_index, IfOk, IfSome, length as len};
ghost use Rattle.std.specs.Option.{ForSome};
ghost use Rattle.fz_base.specs.Refusal.{IsFirstOf};
ghost use Rattle.fz_block.specs.Facts.{IsHeaderOf};
ghost use Rattle.fz_block.specs.Header.{next_start_of};
ghost use Rattle.fz_block.specs.Hdus.{cards_of};
ghost use Rattle.fz_grid.specs.Region.{IsDivided, lengths_of};
ghost use Rattle.fz_tile.specs.Codecs.{CanWrite};
ghost use Rattle.fz_head.specs.Packable.{has_integers, is_packable, is_primary};
ghost use Rattle.fz_head.specs.PackChecks.{name_checks, limit_checks, offset_check as offset_check_of, header_fill, is_plio};
ghost use Rattle.fz_head.specs.PackChecks.{no_totals, is_axis_above, is_of_other_sort, is_reserved_card as is_reserved_card_of};
ghost use Rattle.fz_head.specs.PackChecks.{is_table_name as is_table_name_of, pack_answer, reserved_index};
ghost use Rattle.fz_head.specs.Planned.{AreOptions, codec_for as codec_for_of, is_wide as is_wide_of, pack_plan_of};
ghost use Rattle.fz_head.specs.PackedHeader.{packed_header, parameter_cards, sum_cards};
ghost use Rattle.fz_head.specs.Written.{first_cards};

use crate::find::{first_offset, has_name};
use crate::repeats::{Once, first_repeat};
use crate::tiles::cut_tile;
use crate::{CodecWord, PackOptions, Plan};
use fz_base::{Fault, Kind, Place};
use fz_block::{Axes, Header, Sort, card, refuse_at, refuse_if, refused};
use fz_card::{CARD_LEN, Card, Name, is_numbered, is_reserved};
use fz_grid::{has_more_places, has_more_tiles, volume};
use fz_tile::Codec;

/// The most pixels of a packed image.
pub const MAX_PIXELS: u64 = 1 << 40;

/// The most pixels of a tile.
pub const MAX_TILE_PIXELS: u64 = 1 << 26;

/// The most tiles of an image, which are the rows of its table.
pub const MAX_TILES: u64 = 2_147_483_647;

/// The most bytes that a descriptor of 32 bits is used for.
const MAX_NARROW: u64 = 2_147_483_647;

/// The most cards of a header, of 256 blocks.
const MAX_CARDS: u32 = 9216;

/// The plan of an image that is to be packed, by its header and the options.
///
/// Refused, in this order: a card has a reserved name (Reserved); a card repeats the name of an earlier
/// one, if it is there once (Duplicate); a byte after the letters END is not blank (HeaderFill); there
/// are more than 2^40 pixels, more than 2^26 in a tile or more than 2^31 - 1 tiles, at card 2, or the
/// packed header would pass 256 blocks, at END (Limit); the codec is PLIO_1 and BZERO is not zero
/// (PlioOffset).
pub fn pack_plan(buf: &[u8], header: &Header, options: &PackOptions) -> Result<Plan, Fault>
    requires header { IsHeaderOf buf.now header.now }
    requires end { next_start_of header.now ≤ 2 ^ 62 }
    requires packable { is_packable header.now ≡ true }
    requires options { AreOptions options.now }
    ensures exact { result ≡ pack_answer options.now header.now buf.now }
    ensures divided { IfOk result (λ p. IsDivided p.shape p.tile) }
    ensures writable { IfOk result (λ p. CanWrite p.codec p.bitpix) }
{
    check_names(buf, header)?;
    let plan = plan_for(header, options);
    check_limits(header, &plan, options.sums)?;
    check_offset(buf, header, plan.codec)?;
    Ok(plan)
}

// The plan by the facts of the header and the options.
#[tactic(auto, unfolding(crate::specs::Planned::pack_plan_of))]
fn plan_for(header: &Header, options: &PackOptions) -> Plan
    requires few { header.now.axes.n ≤ 9 }
    requires tile { ForSome options.now.tile (λ a. a.n ≤ 9) }
    ensures { result ≡ pack_plan_of options.now header.now }
{
    Plan {
        codec: codec_for(options, header),
        bitpix: header.bitpix,
        shape: header.axes,
        tile: cut_tile(&header.axes, &options.tile),
        primary: is_primary(header.sort),
        wide: is_wide(header.bitpix, &header.axes),
    }
}

/// Whether the plain bytes of an image pass 31 bits.
pub fn is_wide(bitpix: i32, axes: &Axes) -> bool
    requires { axes.now.n ≤ 9 }
    ensures { result ≡ is_wide_of bitpix (lengths_of axes.now) }
{
    let pixel_len = u64::from(bitpix.unsigned_abs() / 8);
    pixel_len.saturating_mul(volume(axes)) > MAX_NARROW
}

// There are not too many pixels, pixels in a tile, tiles, and cards in the packed header.
fn check_limits(header: &Header, plan: &Plan, sums: bool) -> Result<(), Fault>
    requires shape { plan.now.shape.n ≤ 9 }
    requires tile { plan.now.tile.n ≡ plan.now.shape.n }
    requires positive { (i : ℕ) → i < plan.now.shape.n → 1 ≤ slice_index plan.now.tile.len i }
    requires cards { header.now.cards ≤ 9216 }
    ensures { (cards : List (List ℕ)) → len cards ≡ header.now.cards →
        IsFirstOf (limit_checks header.now plan.now sums cards) result }
{
    refuse_if(
        header,
        has_more_places(&plan.shape, MAX_PIXELS),
        2,
        Kind::Limit,
    )?;
    refuse_if(
        header,
        has_more_places(&plan.tile, MAX_TILE_PIXELS),
        2,
        Kind::Limit,
    )?;
    refuse_if(
        header,
        has_more_tiles(&plan.shape, &plan.tile, MAX_TILES),
        2,
        Kind::Limit,
    )?;
    let cards = packed_count(header, plan, sums);
    refuse_if(header, cards + 1 > MAX_CARDS, header.cards, Kind::Limit)
}

// How many cards the packed header has before END.
fn packed_count(header: &Header, plan: &Plan, sums: bool) -> u32
    requires shape { plan.now.shape.n ≤ 9 }
    requires cards { header.now.cards ≤ 9216 }
    ensures count { (cards : List (List ℕ)) → len cards ≡ header.now.cards → result ≡ len (packed_header cards plan.now (no_totals sums)) }
    ensures few { result < 10000 }
{
    14 + plan.shape.n + parameter_count(plan.codec) + header.cards + sum_count(sums)
}

/// How many cards say the parameters of the codec.
pub fn parameter_count(codec: Codec) -> u32
    ensures count { result ≡ len (parameter_cards codec) }
    ensures few { result ≤ 4 }
{
    match codec {
        Codec::Rice { .. } => 4,
        Codec::Plio | Codec::Plain => 0,
    }
}

// How many cards the sums have.
fn sum_count(sums: bool) -> u32
    ensures count { result ≡ len (sum_cards sums) }
    ensures few { result ≤ 2 }
{
    if sums { 2 } else { 0 }
}

// PLIO_1 takes no pixels with an offset.
fn check_offset(buf: &[u8], header: &Header, codec: Codec) -> Result<(), Fault>
    requires { 80 * header.now.cards ≤ len buf.now }
    ensures { IsFirstOf ((offset_check_of header.now codec (first_cards buf.now header.now.cards)) ∷ []) result }
{
    if !is_plio(codec) {
        return Ok(());
    }
    refuse_at(header, first_offset(buf, header.cards), Kind::PlioOffset)
}

// Whether the codec is PLIO_1.
fn is_plio(codec: Codec) -> bool
    ensures { result ≡ is_plio codec }
{
    match codec {
        Codec::Plio => true,
        Codec::Rice { .. } | Codec::Plain => false,
    }
}

// No card has a reserved name, none repeats a name that occurs once, and only blanks are after END.
fn check_names(buf: &[u8], header: &Header) -> Result<(), Fault>
    requires header { IsHeaderOf buf.now header.now }
    requires end { next_start_of header.now ≤ 2 ^ 62 }
    ensures { IsFirstOf (name_checks header.now buf.now) result }
{
    refuse_at(header, first_reserved(buf, header), Kind::Reserved)?;
    refuse_at(
        header,
        first_repeat(buf, header.cards, Once::Image),
        Kind::Duplicate,
    )?;
    check_header_fill(buf, header)
}

// The index of the first card that would not come back as it is from a packed header.
fn first_reserved(buf: &[u8], header: &Header) -> Option<u32>
    requires { 80 * header.now.cards ≤ len buf.now }
    ensures { result ≡ reserved_index (is_primary header.now.sort) header.now.axes.n (first_cards buf.now header.now.cards) }
{
    let primary = is_primary(header.sort);
    for i in 0..header.cards {
        if is_reserved_card(&card(buf, i), primary, header.axes.n) {
            return Some(i);
        }
    }
    None
}

// Whether the HDU is the primary.
fn is_primary(sort: Sort) -> bool
    ensures { result ≡ is_primary sort }
{
    sort == Sort::Primary
}

// Whether the card would not come back as it is from a packed header.
fn is_reserved_card(card: &Card, primary: bool, n: u32) -> bool
    ensures { result ≡ is_reserved_card_of primary n card.now.bytes }
{
    is_reserved(card.name())
        || is_of_other_sort(card, primary)
        || is_axis_above(card, n)
        || is_table_name(card)
}

// Whether the card says what the other sort of image is.
fn is_of_other_sort(card: &Card, primary: bool) -> bool
    ensures { result ≡ is_of_other_sort primary card.now.bytes }
{
    if primary {
        has_name(card, &Name::XTENSION)
    } else {
        has_name(card, &Name::SIMPLE)
    }
}

// Whether the card is that of an axis that the image has not.
fn is_axis_above(card: &Card, n: u32) -> bool
    ensures { result ≡ is_axis_above n card.now.bytes }
{
    let name = card.name();
    is_numbered(name, b"NAXIS", 999) && !is_numbered(name, b"NAXIS", n)
}

// Whether the card is the usual name of a packed table.
fn is_table_name(card: &Card) -> bool
    ensures { result ≡ is_table_name_of card.now.bytes }
{
    has_name(card, &Name::EXTNAME) && card.has_text(b"COMPRESSED_IMAGE")
}

// Only blanks are after the letters END.
fn check_header_fill(buf: &[u8], header: &Header) -> Result<(), Fault>
    requires header { IsHeaderOf buf.now header.now }
    requires end { next_start_of header.now ≤ 2 ^ 62 }
    ensures { IsFirstOf (header_fill header.now buf.now ∷ []) result }
{
    let start = CARD_LEN * header.cards as usize + 3;
    match first_non_blank(buf.split_at(start).1) {
        Some(i) => Err(refused(
            header.hdu,
            Place::Byte(header.start + (start + i) as u64),
            Kind::HeaderFill,
        )),
        None => Ok(()),
    }
}

// How many blanks are before the first other byte.
fn first_non_blank(bytes: &[u8]) -> Option<usize>
    ensures place { result ≡ position (λ b. not (b == 32)) bytes.now }
    ensures within { IfSome result (λ i. i < len bytes.now) }
{
    bytes.iter().position(|byte| *byte != b' ')
}

// The codec that the options ask for. Pixels of 64 bits are stored.
fn codec_for(options: &PackOptions, header: &Header) -> Codec
    ensures { result ≡ codec_for_of options.now header.now.bitpix }
{
    if header.bitpix == 64 {
        return Codec::Plain;
    }
    match options.codec {
        CodecWord::Rice => Codec::Rice {
            block: options.block,
            bytepix: header.bitpix.unsigned_abs() / 8,
        },
        CodecWord::Plio => Codec::Plio,
        CodecWord::None => Codec::Plain,
    }
}

//! The header of the image that a packed header stands for, and that of a part of it (FITS 4.0, sections
//! 4.4.1 and 10.1.2).
ghost use Rattle.std.specs.Prelude.{◌≡◌, ◌+◌, ◌-◌, ◌*◌, ◌<◌, ◌≤◌, ◌&&◌, not, [], ◌∷◌, codes, map, position, IfSome, slice_index, take, length as len};
ghost use Rattle.std.specs.Option.{ForSome};
ghost use Rattle.std.specs.List.{flat_map, range_with_len};
ghost use Rattle.fz_card.specs.Naming.{is_in, is_in_some};
ghost use Rattle.fz_card.specs.Tables.Names.{Numbered};
ghost use Rattle.fz_block.specs.Facts.{IsHeaderOf};
ghost use Rattle.fz_block.specs.Hdus.{cards_of, header_bytes};
ghost use Rattle.fz_grid.specs.Region.{IsWithin};
ghost use Rattle.fz_head.specs.Conditions.{IsPackedPlan};
ghost use Rattle.fz_head.specs.PackedHeader.{numbered_number_card};
ghost use Rattle.fz_head.specs.PlainHeader.{axis_card, count_cards_of, count_names, cutout_header, front_names};
ghost use Rattle.fz_head.specs.PlainHeader.{is_front as is_front_of, is_kept as is_kept_of, is_table_card as is_table_card_of};
ghost use Rattle.fz_head.specs.PlainHeader.{leading_card, or_card, other_cards_of, part_cards_of, plain_card as plain_card_of};
ghost use Rattle.fz_head.specs.PlainHeader.{plain_header, says_what as says_what_of, size_cards, whole_names};
ghost use Rattle.fz_head.specs.Written.{Adds, first_cards, found_cards};

use crate::Plan;
use crate::find::has_name;
use crate::written::{finish, length_card, put};
use fz_block::{Header, card};
use fz_card::{
    Card, Name, int_card, is_dropped, is_numbered, logical_card, numbered, restored, text_card,
};
use fz_grid::Region;
use fz_table::first_named;

// The card under its name in the image.
fn plain_card(card: &Card) -> Card
    ensures { result.bytes ≡ plain_card_of card.now.bytes }
{
    let mut bytes = card.bytes;
    if let Some(name) = restored(card.name()) {
        bytes[..name.bytes.len()].copy_from_slice(&name.bytes);
    }
    Card { bytes }
}

// Writes the card of this index under its name in the image, if there is one.
fn put_found(buf: &[u8], found: Option<u32>, count: usize, out: &mut [u8]) -> usize
    requires found { ForSome found (λ i. 80 * (i + 1) ≤ len buf.now) }
    requires room { 80 * (count + 1) ≤ len out.old }
    ensures written { Adds (map plain_card_of (found_cards buf.now found)) count out.old result out.new }
    ensures number { result ≤ count + 1 }
{
    match found {
        Some(i) => put(&plain_card(&card(buf, i)), count, out),
        None => count,
    }
}

// Writes the card of this index under its name in the image, or another one if there is none.
fn put_or(buf: &[u8], found: Option<u32>, other: &Card, count: usize, out: &mut [u8]) -> usize
    requires found { ForSome found (λ i. 80 * (i + 1) ≤ len buf.now) }
    requires room { 80 * (count + 1) ≤ len out.old }
    ensures written { Adds (or_card other.now.bytes (map plain_card_of (found_cards buf.now found))) count out.old result out.new }
    ensures number { result ≤ count + 1 }
{
    match found {
        Some(i) => put(&plain_card(&card(buf, i)), count, out),
        None => put(other, count, out),
    }
}

// Whether the card says what the image is: a primary, or which extension.
fn says_what(card: &Card) -> bool
    ensures { result ≡ says_what_of card.now.bytes }
{
    has_name(card, &Name::ZSIMPLE) || has_name(card, &Name::ZTENSION)
}

// The index of the first of so many cards that says what the image is.
fn first_saying(buf: &[u8], cards: u32) -> Option<u32>
    requires { 80 * cards ≤ len buf.now }
    ensures index { result ≡ position says_what_of (first_cards buf.now cards) }
    ensures within { IfSome result (λ i. i < cards) }
{
    for i in 0..cards {
        if says_what(&card(buf, i)) {
            return Some(i);
        }
    }
    None
}

// Writes the first card of the image: SIMPLE or XTENSION.
fn put_leading_card(buf: &[u8], header: &Header, count: usize, out: &mut [u8]) -> usize
    requires header { IsHeaderOf buf.now header.now }
    requires room { 80 * (count + 1) ≤ len out.old }
    ensures written { Adds (leading_card (cards_of buf.now)) count out.old result out.new }
    ensures number { result ≤ count + 1 }
{
    let other = text_card(Name::XTENSION, b"IMAGE");
    put_or(buf, first_saying(buf, header.cards), &other, count, out)
}

// Writes BITPIX and NAXIS of the image.
fn put_size_cards(buf: &[u8], header: &Header, count: usize, out: &mut [u8]) -> usize
    requires header { IsHeaderOf buf.now header.now }
    requires room { 80 * (count + 2) ≤ len out.old }
    ensures written { Adds (size_cards (cards_of buf.now)) count out.old result out.new }
    ensures number { result ≤ count + 2 }
{
    let bitpix = put_found(buf, first_named(buf, header, &Name::ZBITPIX), count, out);
    put_found(buf, first_named(buf, header, &Name::ZNAXIS), bitpix, out)
}

// Writes the lengths of so many axes of the image.
fn put_axis_cards(buf: &[u8], header: &Header, n: u32, count: usize, out: &mut [u8]) -> usize
    requires header { IsHeaderOf buf.now header.now }
    requires few { n ≤ 9 }
    requires room { 80 * (count + n) ≤ len out.old }
    ensures written { Adds (flat_map (axis_card (cards_of buf.now)) (range_with_len 1 n)) count out.old result out.new }
    ensures number { result ≤ count + n }
{
    let mut written = count;
    for i in 0..n {
        let found = first_named(buf, header, &numbered(b"ZNAXIS", i + 1));
        written = put_found(buf, found, written, out);
    }
    written
}

// Writes PCOUNT and GCOUNT of the image, which a primary has not.
fn put_count_cards(
    buf: &[u8],
    header: &Header,
    primary: bool,
    count: usize,
    out: &mut [u8],
) -> usize
    requires header { IsHeaderOf buf.now header.now }
    requires room { 80 * (count + 2) ≤ len out.old }
    ensures written { Adds (count_cards_of primary (cards_of buf.now)) count out.old result out.new }
    ensures number { result ≤ count + 2 }
{
    if primary {
        return count;
    }
    let none = int_card(Name::PCOUNT, 0);
    let one = int_card(Name::GCOUNT, 1);
    let pcount = put_or(
        buf,
        first_named(buf, header, &Name::ZPCOUNT),
        &none,
        count,
        out,
    );
    put_or(
        buf,
        first_named(buf, header, &Name::ZGCOUNT),
        &one,
        pcount,
        out,
    )
}

// Whether the card is at the front of the image's header, which has so many axes.
fn is_front(card: &Card, primary: bool, n: u32) -> bool
    ensures { result ≡ is_front_of primary n card.now.bytes }
{
    let name = card.name();
    is_front_name(name, n) || (!primary && is_count_name(name))
}

// Whether a card of this name is at the front of the header of each image of so many axes.
fn is_front_name(name: Name, n: u32) -> bool
    ensures { result ≡ is_in_some (front_names n) name.bytes }
{
    name == Name::ZSIMPLE
        || name == Name::ZTENSION
        || name == Name::ZBITPIX
        || name == Name::ZNAXIS
        || is_numbered(name, b"ZNAXIS", n)
}

// Whether a card of this name is after the axes of an extension.
fn is_count_name(name: Name) -> bool
    ensures { result ≡ is_in_some count_names name.bytes }
{
    name == Name::ZPCOUNT || name == Name::ZGCOUNT
}

// Whether the card is only the table's.
fn is_table_card(card: &Card, n: u32) -> bool
    ensures { result ≡ is_table_card_of n card.now.bytes }
{
    let name = card.name();
    is_dropped(name)
        || is_packed_axis_above(name, n)
        || (has_name(card, &Name::EXTNAME) && card.has_text(b"COMPRESSED_IMAGE"))
}

// Whether the name is that of an axis which the image has not.
fn is_packed_axis_above(name: Name, n: u32) -> bool
    ensures { result ≡ (is_in (Numbered (codes "ZNAXIS") 99) name.bytes && not (is_in (Numbered (codes "ZNAXIS") n) name.bytes)) }
{
    is_numbered(name, b"ZNAXIS", 99) && !is_numbered(name, b"ZNAXIS", n)
}

// Whether the card comes back in its place.
fn is_kept(card: &Card, primary: bool, n: u32) -> bool
    ensures { result ≡ is_kept_of primary n card.now.bytes }
{
    !is_front(card, primary, n) && !is_table_card(card, n)
}

// Writes the card, if it comes back in its place.
fn put_kept(card: &Card, primary: bool, n: u32, count: usize, out: &mut [u8]) -> usize
    requires room { 80 * (count + 1) ≤ len out.old }
    ensures written { Adds (other_cards_of primary n (card.now.bytes ∷ [])) count out.old result out.new }
    ensures number { result ≤ count + 1 }
{
    if !is_kept(card, primary, n) {
        return count;
    }
    put(&plain_card(card), count, out)
}

// Writes all cards that come back in their places.
fn put_other_cards(buf: &[u8], header: &Header, plan: &Plan, count: usize, out: &mut [u8]) -> usize
    requires cards { 80 * header.now.cards ≤ len buf.now }
    requires room { 80 * (count + header.now.cards) ≤ len out.old }
    ensures written { Adds (other_cards_of plan.now.primary plan.now.shape.n (first_cards buf.now header.now.cards)) count out.old result out.new }
    ensures number { result ≤ count + header.now.cards }
{
    let mut written = count;
    for i in 0..header.cards {
        written = put_kept(&card(buf, i), plan.primary, plan.shape.n, written, out);
    }
    written
}

/// Writes the header of the image that a packed header stands for, and answers its length in bytes: whole
/// blocks, no more than the packed header has. The buffer is a block longer than the packed header. SIMPLE
/// or XTENSION, BITPIX, NAXIS, its axes, and in an extension PCOUNT and GCOUNT are at the front; all
/// cards of the image follow in their order.
pub fn to_plain(buf: &[u8], header: &Header, plan: &Plan, out: &mut [u8]) -> usize
    requires header { IsHeaderOf buf.now header.now }
    requires plan { IsPackedPlan buf.now header.now plan.now }
    requires room { len buf.now + 2880 ≤ len out.old }
    ensures written { take result out.new ≡ header_bytes (plain_header (cards_of buf.now)) }
    ensures size { result ≡ len (header_bytes (plain_header (cards_of buf.now))) }
    ensures fits { result ≤ len buf.now }
{
    let mut count = put_leading_card(buf, header, 0, out);
    count = put_size_cards(buf, header, count, out);
    count = put_axis_cards(buf, header, plan.shape.n, count, out);
    count = put_count_cards(buf, header, plan.primary, count, out);
    count = put_other_cards(buf, header, plan, count, out);
    finish(count, out)
}

// Whether a card of this name is not kept with a part of an image.
fn is_whole_name(name: Name) -> bool
    ensures { result ≡ is_in_some whole_names name.bytes }
{
    name == Name::EXTEND
        || name == Name::BLOCKED
        || name == Name::PCOUNT
        || name == Name::GCOUNT
        || name == Name::CHECKSUM
        || name == Name::DATASUM
        || name == Name::INHERIT
}

// Writes the card, if it comes back in its place and is kept with a part of the image.
fn put_part(card: &Card, primary: bool, n: u32, count: usize, out: &mut [u8]) -> usize
    requires room { 80 * (count + 1) ≤ len out.old }
    ensures written { Adds (part_cards_of primary n (card.now.bytes ∷ [])) count out.old result out.new }
    ensures number { result ≤ count + 1 }
{
    let plain = plain_card(card);
    if !is_kept(card, primary, n) || is_whole_name(plain.name()) {
        return count;
    }
    put(&plain, count, out)
}

// Writes all cards that come back in their places and are kept with a part of the image.
fn put_part_cards(buf: &[u8], header: &Header, plan: &Plan, count: usize, out: &mut [u8]) -> usize
    requires cards { 80 * header.now.cards ≤ len buf.now }
    requires room { 80 * (count + header.now.cards) ≤ len out.old }
    ensures written { Adds (part_cards_of plan.now.primary plan.now.shape.n (first_cards buf.now header.now.cards)) count out.old result out.new }
    ensures number { result ≤ count + header.now.cards }
{
    let mut written = count;
    for i in 0..header.cards {
        written = put_part(&card(buf, i), plan.primary, plan.shape.n, written, out);
    }
    written
}

// Writes the lengths of a region.
fn put_region_cards(region: &Region, count: usize, out: &mut [u8]) -> usize
    requires few { region.now.n ≤ 9 }
    requires room { 80 * (count + region.now.n) ≤ len out.old }
    ensures written { Adds (map (λ i. numbered_number_card (codes "NAXIS") i (slice_index region.now.len (i - 1)))
        (range_with_len 1 region.now.n)) count out.old result out.new }
    ensures number { result ≡ count + region.now.n }
{
    let mut written = count;
    for i in 0..region.n {
        let length = region.len[i as usize];
        written = put(&length_card(b"NAXIS", i + 1, length), written, out);
    }
    written
}

/// Writes the header of a primary image that holds a region of the image of a packed header, and answers
/// its length in bytes: whole blocks, no more than the packed header has. The buffer is a block longer than
/// the packed header. The axes have the lengths of the region; cards of the whole image that do not hold
/// for a part of it, as its sums, are left out.
pub fn to_cut(buf: &[u8], header: &Header, plan: &Plan, region: &Region, out: &mut [u8]) -> usize
    requires header { IsHeaderOf buf.now header.now }
    requires plan { IsPackedPlan buf.now header.now plan.now }
    requires region { IsWithin plan.now.shape region.now }
    requires room { len buf.now + 2880 ≤ len out.old }
    ensures written { take result out.new ≡ header_bytes (cutout_header (cards_of buf.now) region.now) }
    ensures size { result ≡ len (header_bytes (cutout_header (cards_of buf.now) region.now)) }
    ensures fits { result ≤ len buf.now }
{
    let simple = logical_card(Name::SIMPLE, true);
    let mut count = put_or(
        buf,
        first_named(buf, header, &Name::ZSIMPLE),
        &simple,
        0,
        out,
    );
    count = put_size_cards(buf, header, count, out);
    count = put_region_cards(region, count, out);
    count = put_part_cards(buf, header, plan, count, out);
    finish(count, out)
}

//! The header of a packed table (FITS 4.0, sections 7.3.1 and 10.1.1).
ghost use Rattle.std.specs.Prelude.{ℕ, ◌≡◌, ◌==◌, ◌+◌, ◌*◌, ◌<◌, ◌≤◌, ◌^◌, IsTrue, not, take, map, codes, if◌then◌else◌, length as len};
ghost use Rattle.std.specs.List.{list_all};
ghost use Rattle.fz_card.specs.Made.{IsCardText};
ghost use Rattle.fz_block.specs.Facts.{IsHeaderOf};
ghost use Rattle.fz_block.specs.Hdus.{cards_of, header_bytes};
ghost use Rattle.fz_grid.specs.Region.{IsDivided};
ghost use Rattle.fz_head.specs.Conditions.{AreShort, IsPackPlan};
ghost use Rattle.fz_head.specs.PackedHeader.{packed_header, packed_card as packed_card_of, table_cards as table_cards_of};
ghost use Rattle.fz_head.specs.PackedHeader.{column_cards as column_cards_of, tile_cards as tile_cards_of};
ghost use Rattle.fz_head.specs.PackedHeader.{parameter_cards as parameter_cards_of, sum_cards as sum_cards_of, descriptor_form};
ghost use Rattle.fz_head.specs.PackedHeader.{coded_letter as coded_letter_of, stored_letter as stored_letter_of};
ghost use Rattle.fz_head.specs.PackedHeader.{codec_name as codec_name_of, word_card, numbered_word_card};
ghost use Rattle.fz_head.specs.PackedTable.{coded_unit as coded_unit_of};
ghost use Rattle.fz_head.specs.Written.{Adds, card_list, first_cards};

use crate::written::{finish, length_card, put, put_all};
use crate::{Plan, Totals};
use arrayvec::ArrayString;
use fz_block::{Header, card};
use fz_card::{Card, Name, int_card, logical_card, numbered, renamed, text_card};
use fz_grid::Grid;
use fz_sum::{blank_checksum_card, datasum_card};
use fz_tile::Codec;
use itoa::Buffer;

// The card under its name in a packed header.
fn packed_card(card: &Card) -> Card
    ensures { result.bytes ≡ packed_card_of card.now.bytes }
{
    let mut bytes = card.bytes;
    if let Some(name) = renamed(card.name()) {
        bytes[..name.bytes.len()].copy_from_slice(&name.bytes);
    }
    Card { bytes }
}

// Writes all cards of the image, under their names in a packed header.
fn put_image_cards(buf: &[u8], cards: u32, count: usize, out: &mut [u8]) -> usize
    requires cards { 80 * cards ≤ len buf.now }
    requires room { 80 * (count + cards) ≤ len out.old }
    ensures written { Adds (map packed_card_of (first_cards buf.now cards)) count out.old result out.new }
    ensures number { result ≡ count + cards }
{
    let mut written = count;
    for i in 0..cards {
        written = put(&packed_card(&card(buf, i)), written, out);
    }
    written
}

// The cards that every binary table has.
fn table_cards(plan: &Plan, totals: &Totals) -> [Card; 8]
    requires divided { IsDivided plan.now.shape plan.now.tile }
    requires heap { totals.now.heap < 10 ^ 18 }
    ensures { card_list result ≡ table_cards_of plan.now totals.now }
{
    let tiles = Grid::new(plan.shape, plan.tile).tile_count();
    let row_len = if plan.wide { 32 } else { 16 };
    [
        text_card(Name::XTENSION, b"BINTABLE"),
        int_card(Name::BITPIX, 8),
        int_card(Name::NAXIS, 2),
        int_card(numbered(b"NAXIS", 1), row_len),
        int_card(numbered(b"NAXIS", 2), i64::from(tiles)),
        int_card(Name::PCOUNT, totals.heap as i64),
        int_card(Name::GCOUNT, 1),
        int_card(Name::TFIELDS, 2),
    ]
}

// The two descriptor columns.
fn column_cards(plan: &Plan, totals: &Totals) -> [Card; 4]
    requires coded { totals.now.emax_coded < 10 ^ 18 }
    requires stored { totals.now.emax_stored < 10 ^ 18 }
    ensures { card_list result ≡ column_cards_of plan.now totals.now }
{
    [
        text_card(numbered(b"TTYPE", 1), b"COMPRESSED_DATA"),
        form_card(1, plan.wide, coded_letter(plan.codec), totals.emax_coded),
        text_card(numbered(b"TTYPE", 2), b"UNCOMPRESSED_DATA"),
        form_card(2, plan.wide, stored_letter(plan), totals.emax_stored),
    ]
}

// The form of a descriptor column: the length of its numbers, the letter of its elements, and the
// greatest count in it.
#[tactic(auto, using(crate::proofs::Forms::form_is_text))]
fn form_text(wide: bool, letter: &str, most: u64) -> ArrayString<32>
    requires letter { len letter.now ≡ 1 }
    requires unquoted { IsTrue (list_all (λ b. not (b == 39)) letter.now) }
    ensures form { result.bytes ≡ descriptor_form wide letter.now most }
    ensures text { IsCardText result.bytes }
{
    let mut count = Buffer::new();
    let mut form = ArrayString::new();
    form.push_str(descriptor_kind(wide));
    form.push_str(letter);
    form.push_str("(");
    form.push_str(count.format(most));
    form.push_str(")");
    form
}

// Descriptors of 64 or of 32 bits.
fn descriptor_kind(wide: bool) -> &'static str
    ensures value { result.now ≡ (if wide then codes "1Q" else codes "1P") }
    ensures two { len result.now ≡ 2 }
{
    if wide { "1Q" } else { "1P" }
}

/// The card TFORMi of a descriptor column: how long its numbers are, the letter of its elements, and the
/// greatest count in it.
pub fn form_card(column: u32, wide: bool, letter: &str, most: u64) -> Card
    requires column { column < 10 }
    requires letter { len letter.now ≡ 1 }
    requires unquoted { IsTrue (list_all (λ b. not (b == 39)) letter.now) }
    ensures { result.bytes ≡ numbered_word_card (codes "TFORM") column (descriptor_form wide letter.now most) }
{
    let form = form_text(wide, letter, most);
    text_card(numbered(b"TFORM", column), form.as_str().as_bytes())
}

/// The letter of the elements of coded tiles: 16-bit words of a line list, else bytes.
pub fn coded_letter(codec: Codec) -> &'static str
    ensures value { result.now ≡ coded_letter_of codec }
    ensures one { len result.now ≡ 1 }
    ensures unquoted { IsTrue (list_all (λ b. not (b == 39)) result.now) }
{
    match codec {
        Codec::Rice { .. } | Codec::Plain => "B",
        Codec::Plio => "I",
    }
}

/// The bytes of an element of a coded tile.
pub fn coded_unit(codec: Codec) -> u32
    ensures unit { result ≡ coded_unit_of codec }
    ensures some { 0 < result }
{
    match codec {
        Codec::Rice { .. } | Codec::Plain => 1,
        Codec::Plio => 2,
    }
}

/// The letter of the elements of stored tiles, which are pixels.
pub fn stored_letter(plan: &Plan) -> &'static str
    ensures value { result.now ≡ stored_letter_of plan.now.bitpix }
    ensures one { len result.now ≡ 1 }
    ensures unquoted { IsTrue (list_all (λ b. not (b == 39)) result.now) }
{
    match plan.bitpix {
        8 => "B",
        16 => "I",
        32 => "J",
        _ => "K",
    }
}

/// The name of the codec, as ZCMPTYPE says it (FITS 4.0, section 10.4).
pub fn codec_name(codec: Codec) -> &'static str
    ensures name { result.now ≡ codec_name_of codec }
    ensures text { IsCardText result.now }
{
    match codec {
        Codec::Rice { .. } => "RICE_1",
        Codec::Plio => "PLIO_1",
        Codec::Plain => "NOCOMPRESS",
    }
}

// The card of the codec's name.
fn codec_card(codec: Codec) -> Card
    ensures { result.bytes ≡ word_card (codes "ZCMPTYPE") (codec_name_of codec) }
{
    text_card(Name::ZCMPTYPE, codec_name(codec).as_bytes())
}

// Writes how the image is packed: the codec, and the length of a tile along each axis.
fn put_tile_cards(plan: &Plan, count: usize, out: &mut [u8]) -> usize
    requires axes { plan.now.shape.n ≤ 9 }
    requires room { 80 * (count + (2 + plan.now.shape.n)) ≤ len out.old }
    ensures written { Adds (tile_cards_of plan.now) count out.old result out.new }
    ensures number { result ≡ count + (2 + plan.now.shape.n) }
{
    let first = [logical_card(Name::ZIMAGE, true), codec_card(plan.codec)];
    let mut written = put_all(&first, count, out);
    for i in 0..plan.shape.n {
        let length = plan.tile.len[i as usize];
        written = put(&length_card(b"ZTILE", i + 1, length), written, out);
    }
    written
}

// Writes the parameters of the codec.
fn put_parameter_cards(codec: Codec, count: usize, out: &mut [u8]) -> usize
    requires room { 80 * (count + 4) ≤ len out.old }
    ensures written { Adds (parameter_cards_of codec) count out.old result out.new }
    ensures number { result ≤ count + 4 }
{
    let Codec::Rice { block, bytepix } = codec else {
        return count;
    };
    let cards = [
        text_card(numbered(b"ZNAME", 1), b"BLOCKSIZE"),
        int_card(numbered(b"ZVAL", 1), i64::from(block)),
        text_card(numbered(b"ZNAME", 2), b"BYTEPIX"),
        int_card(numbered(b"ZVAL", 2), i64::from(bytepix)),
    ];
    put_all(&cards, count, out)
}

// Writes the cards of the sums, before the sums are known.
fn put_sum_cards(sums: bool, count: usize, out: &mut [u8]) -> usize
    requires room { 80 * (count + 2) ≤ len out.old }
    ensures written { Adds (sum_cards_of sums) count out.old result out.new }
    ensures number { result ≤ count + 2 }
{
    if !sums {
        return count;
    }
    put_all(&[datasum_card(0), blank_checksum_card()], count, out)
}

/// Writes the header of the packed table of the image with this header, and answers its length in
/// bytes: whole blocks, of which the buffer has enough if it is a block longer than the image's
/// header. The cards of the image follow those of the table, in their order; with sums the two cards
/// of sums come last, with the text `0` and with sixteen of it. The totals have sums if the options
/// of the plan asked for them, so that the header has at most 256 blocks.
pub fn to_packed(buf: &[u8], header: &Header, plan: &Plan, totals: &Totals, out: &mut [u8]) -> usize
    requires header { IsHeaderOf buf.now header.now }
    requires plan { IsPackPlan buf.now header.now totals.now.sums plan.now }
    requires totals { AreShort totals.now }
    requires room { len buf.now + 2880 ≤ len out.old }
    ensures written { take result out.new ≡ header_bytes (packed_header (cards_of buf.now) plan.now totals.now) }
    ensures size { result ≡ len (header_bytes (packed_header (cards_of buf.now) plan.now totals.now)) }
    ensures short { result ≤ 737280 }
{
    let mut count = put_all(&table_cards(plan, totals), 0, out);
    count = put_all(&column_cards(plan, totals), count, out);
    count = put_tile_cards(plan, count, out);
    count = put_parameter_cards(plan.codec, count, out);
    count = put_image_cards(buf, header.cards, count, out);
    count = put_sum_cards(totals.sums, count, out);
    finish(count, out)
}

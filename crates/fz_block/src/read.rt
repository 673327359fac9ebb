//! The facts of a header, read and checked.
ghost use Rattle.std.specs.Prelude.{ℕ, ◌≡◌, ◌+◌, ◌*◌, ◌-◌, ◌≤◌, ◌<◌, ◌^◌, true, false, Some, IsNone, take, min, codes, length as len, IfOk, IfSome};
ghost use Rattle.fz_base.specs.Keeps.{SourceStays};
ghost use Rattle.fz_base.specs.Stop.{ReadsOnly, IsDefined, IfAnswered};
ghost use Rattle.fz_base.specs.Source.{Reads, logged, MayLog};
ghost use Rattle.fz_base.specs.Refusal.{IsFirstOf};
ghost use Rattle.fz_block.specs.Cards.{end_of, first_among};
ghost use Rattle.fz_block.specs.Hdus.{axes_of, places as places_of};
ghost use Rattle.fz_block.specs.Checks.{header_of, ends_in_last_block, group_checks, end_checks, is_set as is_set_of};
ghost use Rattle.fz_block.specs.Facts.{IsHeaderOf, nine_axes, sort_of};
ghost use Rattle.fz_block.specs.Header.{next_start_of, whole_blocks_of};
ghost use Rattle.fz_block.specs.Values.{said_len};

use crate::blocks::BLOCK_LEN;
use crate::cards::{CARD_LEN, card, end_card, is_set};
use crate::header::whole_blocks;
use crate::mandatory::{Mandatory, mandatory_cards};
use crate::refusing::refused;
use crate::{Axes, Header, Sort};
use fz_base::{Fault, Kind, Place, Source, Stop};
use fz_card::{FIELD_LEN, Name};

/// The cards of a block.
const CARDS_IN_BLOCK: usize = BLOCK_LEN / CARD_LEN;

/// The last place of a file at which data may end.
const MAX_PLACE: u64 = 1 << 62;

/// Reads the header that has so many blocks as the buffer, and answers its facts.
///
/// Refused as by `buffered_header`.
pub fn read_header<S: Source>(
    source: &mut S,
    length: u64,
    hdu: u32,
    start: u64,
    buf: &mut [u8],
) -> Result<Header, Stop>
    requires attached { S.attached source.old ≡ Some length }
    requires blocks { (n : ℕ) × (0 < n) × (n ≤ 256) × (len buf.old ≡ 2880 * n) }
    requires within { start + len buf.old ≤ length }
    ensures read { IfAnswered result (Reads (S.held source.old) start buf.new) }
    ensures header { IsDefined (header_of hdu start length buf.new) result }
    ensures facts { IfOk result (λ h. IsHeaderOf buf.new h × (h.hdu ≡ hdu) × (h.start ≡ start)) }
    ensures within { IfOk result (λ h. (next_start_of h ≤ length) × (next_start_of h ≤ 2 ^ 62)) }
    ensures logged { IfAnswered result (S.ranges source.new ≡ logged start (len buf.old) (S.ranges source.old)) }
    ensures log { MayLog start (len buf.old) (S.ranges source.old) (S.ranges source.new) }
    ensures source { SourceStays S.held S.attached S.ranges source.old source.new }
    ensures cause { ReadsOnly (S.tally source.old) (S.tally source.new) result }
{
    source.read_at(start, buf).map_err(Stop::reading)?;
    buffered_header(buf, length, hdu, start).map_err(Stop::Refused)
}

/// The facts of the header of 1 to 256 blocks that is in the buffer, as that of this HDU, which begins
/// at this byte of a file of this length.
///
/// Refused, in this order: the first END is not in the last block (BadCard at card 0), so the source gave other
/// bytes than before; a mandatory card is missing, is in another place or has no allowed value (BadCard); there are
/// more than 9 axes, or an axis is longer than 2^31 - 1 (Limit); a primary has random groups (Groups); the data would
/// end after byte 2^62 (Limit), or end after the file (Truncated).
pub fn buffered_header(buf: &[u8], length: u64, hdu: u32, start: u64) -> Result<Header, Fault>
    requires blocks { (n : ℕ) × (0 < n) × (n ≤ 256) × (len buf.now ≡ 2880 * n) }
    requires within { start + len buf.now ≤ length }
    ensures exact { result ≡ header_of hdu start length buf.now }
    ensures facts { IfOk result (λ h. IsHeaderOf buf.now h × (h.hdu ≡ hdu) × (h.start ≡ start)) }
    ensures within { IfOk result (λ h. (next_start_of h ≤ length) × (next_start_of h ≤ 2 ^ 62)) }
{
    let Some(cards) = end_in_last_block(buf) else {
        return Err(refused(hdu, Place::Card(0), Kind::BadCard));
    };
    let said = mandatory_cards(buf, hdu)?;
    check_groups(buf, hdu, cards, &said.axes)?;
    let data_len = data_len(&said);
    check_end(hdu, start + buf.len() as u64, data_len, length)?;
    Ok(Header {
        hdu,
        start,
        cards,
        blocks: (buf.len() / BLOCK_LEN) as u32,
        sort: sort(buf, hdu),
        bitpix: said.bitpix,
        axes: said.axes,
        pcount: said.pcount,
        gcount: said.gcount,
        data_len,
    })
}

// The index of END, if it is in the last block.
fn end_in_last_block(buf: &[u8]) -> Option<u32>
    requires { (n : ℕ) × (0 < n) × (n ≤ 256) × (len buf.now ≡ 2880 * n) }
    ensures none { IsNone result → ends_in_last_block buf.now ≡ false }
    ensures some { IfSome result (λ i. (ends_in_last_block buf.now ≡ true) × (end_of buf.now ≡ Some i)) }
{
    end_card(buf).filter(|i| BLOCK_LEN * (*i as usize / CARDS_IN_BLOCK + 1) == buf.len())
}

// A primary without a first axis is refused if a card says that it has random groups.
fn check_groups(buf: &[u8], hdu: u32, cards: u32, axes: &Axes) -> Result<(), Fault>
    requires buf { (2880 ≤ len buf.now) × (80 * (cards + 1) ≤ len buf.now) }
    requires end { end_of buf.now ≡ Some cards }
    requires axes { axes.now ≡ nine_axes (axes_of buf.now) }
    requires few { axes.now.n ≤ 9 }
    ensures { IsFirstOf (group_checks hdu buf.now) result }
{
    if hdu > 0 || axes.n == 0 || axes.len[0] > 0 {
        return Ok(());
    }
    match groups_card(buf, cards) {
        Some(i) => Err(refused(0, Place::Card(i), Kind::Groups)),
        None => Ok(()),
    }
}

// The first of so many cards that is GROUPS with T.
#[tactic(auto, using(crate::proofs::Firsts::firsts))]
fn groups_card(buf: &[u8], cards: u32) -> Option<u32>
    requires { 80 * cards ≤ len buf.now }
    ensures { result ≡ first_among (is_set_of (codes "GROUPS")) cards buf.now }
{
    for i in 0..cards {
        if is_set(&card(buf, i), &Name::GROUPS) {
            return Some(i);
        }
    }
    None
}

// The length of the data, or the greatest number if it is longer.
fn data_len(said: &Mandatory) -> u64
    requires { said.now.axes.n ≤ 9 }
    ensures { result ≡ min (said_len said.now) (2 ^ 64 - 1) }
{
    if said.axes.n == 0 {
        return 0;
    }
    let elements = said.pcount.saturating_add(places(&said.axes));
    let pixel_len = u64::from(said.bitpix.unsigned_abs() / 8);
    pixel_len.saturating_mul(said.gcount.saturating_mul(elements))
}

// The product of the lengths of the axes, or the greatest number if it is larger.
fn places(axes: &Axes) -> u64
    requires { axes.now.n ≤ 9 }
    ensures { result ≡ min (places_of (take axes.now.n axes.now.len)) (2 ^ 64 - 1) }
{
    let mut product: u64 = 1;
    for i in 0..axes.n as usize {
        product = product.saturating_mul(u64::from(axes.len[i]));
    }
    product
}

// The data that begin here end, with their fill, at byte 2^62 at most, and within the file.
fn check_end(hdu: u32, data_start: u64, data_len: u64, length: u64) -> Result<(), Fault>
    ensures { IsFirstOf (end_checks hdu length (data_start + whole_blocks_of data_len)) result }
{
    if data_start > MAX_PLACE
        || data_len > MAX_PLACE
        || data_start + whole_blocks(data_len) > MAX_PLACE
    {
        return Err(refused(hdu, Place::Card(2), Kind::Limit));
    }
    if data_start + whole_blocks(data_len) > length {
        return Err(refused(hdu, Place::Byte(length), Kind::Truncated));
    }
    Ok(())
}

// What the HDU is: an extension says it in its first card.
fn sort(buf: &[u8], hdu: u32) -> Sort
    requires { 2880 ≤ len buf.now }
    ensures { result ≡ sort_of hdu buf.now }
{
    if hdu == 0 {
        return Sort::Primary;
    }
    let mut text = [0; FIELD_LEN];
    let Some(count) = card(buf, 0).text(&mut text) else {
        return Sort::Other;
    };
    match &text[..count] {
        b"IMAGE" => Sort::Image,
        b"BINTABLE" => Sort::BinTable,
        _ => Sort::Other,
    }
}

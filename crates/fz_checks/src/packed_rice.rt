//! The parameters of a Rice code that a packed header says.
ghost use Rattle.std.specs.Prelude.{◌≡◌, ◌*◌, ◌≤◌, ◌⊎◌, [], ◌∷◌, None, Some, pos, codes, IfOk, IfSome, length as len};
ghost use Rattle.fz_base.specs.Refusal.{IsFirstOf};
ghost use Rattle.fz_card.specs.Layout.{card_name};
ghost use Rattle.fz_card.specs.Naming.{number_behind, up_to};
ghost use Rattle.fz_block.specs.Facts.{IsHeaderOf};
ghost use Rattle.fz_block.specs.Hdus.{cards_of};
ghost use Rattle.fz_head.specs.PackedChecks.{block_checks, bytepix_checks, is_block as is_block_of, is_bytepix as is_bytepix_of};
ghost use Rattle.fz_head.specs.PackedChecks.{is_integer, parameter_checks, value_missing};
ghost use Rattle.fz_head.specs.PackedPlan.{codec_named, numbered_in, parameter, parameter_in as parameter_in_of};
ghost use Rattle.fz_head.specs.PackedPlan.{parameter_number as parameter_number_of, said_codec, size_of, value_of_number};
ghost use Rattle.fz_tile.specs.Codecs.{ReadsCodes};
ghost use Rattle.fz_head.specs.Along.{smaller_of};
ghost use Rattle.fz_head.specs.Written.{first_cards};

use crate::packed_codec::{says_plio, says_rice};
use crate::said::{at_name, integer_said, is_positive, refuse_when, size, stands};
use fz_base::{Fault, Kind};
use fz_block::{Header, card};
use fz_card::{Card, Name, number_behind, numbered};
use fz_tile::Codec;

/// BLOCKSIZE if no card says it.
const DEFAULT_BLOCK: u32 = 32;

/// BYTEPIX if no card says it.
const DEFAULT_BYTEPIX: u32 = 4;

/// The greatest BLOCKSIZE.
const MAX_BLOCK: u64 = 32_767;

// The number of a card ZNAMEi.
fn name_number(card: &Card) -> Option<u32>
    ensures { result ≡ up_to 999 (number_behind (codes "ZNAME") (card_name card.now.bytes)) }
{
    number_behind(card.name(), b"ZNAME").filter(|number| *number <= 999)
}

// The number of a card ZNAMEi with this text.
fn parameter_in(card: &Card, text: &[u8]) -> Option<u32>
    ensures { result ≡ parameter_in_of text.now card.now.bytes }
{
    if card.has_text(text) {
        name_number(card)
    } else {
        None
    }
}

// The smaller of two numbers, of which one may be none.
fn smaller(best: Option<u32>, next: Option<u32>) -> Option<u32>
    ensures { result ≡ smaller_of best next }
{
    match (best, next) {
        (Some(a), Some(b)) => Some(a.min(b)),
        (Some(a), None) => Some(a),
        (None, _) => next,
    }
}

// The number of a parameter among so many cards: the least i for which ZNAMEi has this text.
fn least_number(buf: &[u8], cards: u32, text: &[u8]) -> Option<u32>
    requires { 80 * cards ≤ len buf.now }
    ensures number { result ≡ parameter_number_of text.now (first_cards buf.now cards) }
    ensures few { IfSome result (λ i. i ≤ 999) }
{
    let mut best = None;
    for i in 0..cards {
        best = smaller(best, parameter_in(&card(buf, i), text));
    }
    best
}

// The number of a parameter: the least i for which ZNAMEi has this text.
fn parameter_number(buf: &[u8], header: &Header, text: &[u8]) -> Option<u32>
    requires { IsHeaderOf buf.now header.now }
    ensures number { result ≡ parameter_number_of text.now (cards_of buf.now) }
    ensures few { IfSome result (λ i. i ≤ 999) }
{
    least_number(buf, header.cards, text)
}

// The value of the parameter of this number must be there, else its ZNAMEi is refused.
fn require_value(buf: &[u8], header: &Header, i: u32) -> Result<(), Fault>
    requires header { IsHeaderOf buf.now header.now }
    requires number { i ≤ 999 }
    ensures { IsFirstOf (value_missing header.now.hdu (cards_of buf.now) i ∷ []) result }
{
    let none = !stands(buf, header, &numbered(b"ZVAL", i));
    refuse_when(
        none,
        at_name(buf, header, &numbered(b"ZNAME", i), Kind::BadCard),
    )
}

// Whether this is a BLOCKSIZE.
fn is_block(value: Option<i64>) -> bool
    ensures { result ≡ is_block_of value }
{
    is_positive(value) && size(value) <= MAX_BLOCK
}

// Whether this is a BYTEPIX that is taken.
fn is_bytepix(value: Option<i64>) -> bool
    ensures { result ≡ is_bytepix_of value }
{
    matches!(value, Some(1 | 2 | 4))
}

// Whether numbers are said to have eight bytes.
fn has_eight_bytes(value: Option<i64>) -> bool
    ensures { result ≡ is_integer (pos 8) value }
{
    matches!(value, Some(8))
}

// The BLOCKSIZE of this number.
fn block_of(buf: &[u8], header: &Header, i: u32) -> Result<u32, Fault>
    requires header { IsHeaderOf buf.now header.now }
    requires number { i ≤ 999 }
    ensures exact { IsFirstOf (block_checks header.now.hdu (cards_of buf.now) (Some i)) result }
    ensures value { IfOk result (λ v. v ≡ size_of (numbered_in (codes "ZVAL") i (cards_of buf.now))) }
    ensures range { IfOk result (λ v. (1 ≤ v) × (v ≤ 32767)) }
{
    let name = numbered(b"ZVAL", i);
    let value = integer_said(buf, header, &name);
    require_value(buf, header, i)?;
    let other = !is_block(value);
    refuse_when(other, at_name(buf, header, &name, Kind::BadCard))?;
    Ok(size(value) as u32)
}

// The BLOCKSIZE of this number, or the default if there is none.
fn block_or_default(buf: &[u8], header: &Header, number: Option<u32>) -> Result<u32, Fault>
    requires header { IsHeaderOf buf.now header.now }
    requires number { IfSome number (λ i. i ≤ 999) }
    ensures exact { IsFirstOf (block_checks header.now.hdu (cards_of buf.now) number) result }
    ensures value { IfOk result (λ v. v ≡ value_of_number (cards_of buf.now) 32 number) }
    ensures range { IfOk result (λ v. (1 ≤ v) × (v ≤ 32767)) }
{
    match number {
        Some(i) => block_of(buf, header, i),
        None => Ok(DEFAULT_BLOCK),
    }
}

// BLOCKSIZE, or its default.
fn block(buf: &[u8], header: &Header) -> Result<u32, Fault>
    requires { IsHeaderOf buf.now header.now }
    ensures exact { IsFirstOf (block_checks header.now.hdu (cards_of buf.now) (parameter_number_of (codes "BLOCKSIZE") (cards_of buf.now))) result }
    ensures value { IfOk result (λ v. v ≡ parameter (codes "BLOCKSIZE") 32 (cards_of buf.now)) }
    ensures range { IfOk result (λ v. (1 ≤ v) × (v ≤ 32767)) }
{
    let number = parameter_number(buf, header, b"BLOCKSIZE");
    block_or_default(buf, header, number)
}

// The BYTEPIX of this number.
fn bytepix_of(buf: &[u8], header: &Header, i: u32) -> Result<u32, Fault>
    requires header { IsHeaderOf buf.now header.now }
    requires number { i ≤ 999 }
    ensures exact { IsFirstOf (bytepix_checks header.now.hdu (cards_of buf.now) (Some i)) result }
    ensures value { IfOk result (λ v. v ≡ size_of (numbered_in (codes "ZVAL") i (cards_of buf.now))) }
    ensures range { IfOk result (λ v. (v ≡ 1) ⊎ ((v ≡ 2) ⊎ (v ≡ 4))) }
{
    let name = numbered(b"ZVAL", i);
    let value = integer_said(buf, header, &name);
    require_value(buf, header, i)?;
    let eight = has_eight_bytes(value);
    refuse_when(eight, at_name(buf, header, &name, Kind::UnknownCodec))?;
    let other = !is_bytepix(value);
    refuse_when(other, at_name(buf, header, &name, Kind::BadCard))?;
    Ok(size(value) as u32)
}

// The BYTEPIX of this number, or the default if there is none.
fn bytepix_or_default(buf: &[u8], header: &Header, number: Option<u32>) -> Result<u32, Fault>
    requires header { IsHeaderOf buf.now header.now }
    requires number { IfSome number (λ i. i ≤ 999) }
    ensures exact { IsFirstOf (bytepix_checks header.now.hdu (cards_of buf.now) number) result }
    ensures value { IfOk result (λ v. v ≡ value_of_number (cards_of buf.now) 4 number) }
    ensures range { IfOk result (λ v. (v ≡ 1) ⊎ ((v ≡ 2) ⊎ (v ≡ 4))) }
{
    match number {
        Some(i) => bytepix_of(buf, header, i),
        None => Ok(DEFAULT_BYTEPIX),
    }
}

// BYTEPIX, or its default.
fn bytepix(buf: &[u8], header: &Header) -> Result<u32, Fault>
    requires { IsHeaderOf buf.now header.now }
    ensures exact { IsFirstOf (bytepix_checks header.now.hdu (cards_of buf.now) (parameter_number_of (codes "BYTEPIX") (cards_of buf.now))) result }
    ensures value { IfOk result (λ v. v ≡ parameter (codes "BYTEPIX") 4 (cards_of buf.now)) }
    ensures range { IfOk result (λ v. (v ≡ 1) ⊎ ((v ≡ 2) ⊎ (v ≡ 4))) }
{
    let number = parameter_number(buf, header, b"BYTEPIX");
    bytepix_or_default(buf, header, number)
}

/// The codec with its parameters, of which only those of a Rice code are looked at.
pub(crate) fn check_parameters(buf: &[u8], header: &Header) -> Result<Codec, Fault>
    requires { IsHeaderOf buf.now header.now }
    ensures exact { IsFirstOf (parameter_checks header.now.hdu (cards_of buf.now)) result }
    ensures value { IfOk result (λ v. v ≡ codec_named (said_codec (cards_of buf.now)) (cards_of buf.now)) }
    ensures codes { IfOk result ReadsCodes }
{
    if says_rice(buf, header) {
        let block = block(buf, header)?;
        let bytepix = bytepix(buf, header)?;
        return Ok(Codec::Rice { block, bytepix });
    }
    if says_plio(buf, header) {
        Ok(Codec::Plio)
    } else {
        Ok(Codec::Plain)
    }
}

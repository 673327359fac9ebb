//! The cards that a header must have, each in its place (FITS 4.0, section 4.4.1).
ghost use Rattle.std.specs.Prelude.{◌≡◌, ◌+◌, ◌-◌, ◌*◌, ◌≤◌, true, false, [], ◌∷◌, ◌++◌, Some, length as len, map, replicate, IfOk};
ghost use Rattle.std.specs.Result.{MatchResult};
ghost use Rattle.std.specs.List.{flat_map, range_with_len};
ghost use Rattle.fz_base.specs.Refusal.{IsFirstOf, refusal};
ghost use Rattle.fz_base.specs.declared.fault.Place.TheVariants.{Card as AtCard};
ghost use Rattle.fz_base.specs.declared.kind.Kind.TheVariants.{BadCard};
ghost use Rattle.fz_card.specs.Reading.{integer_of};
ghost use Rattle.fz_block.specs.Cards.{card_at};
ghost use Rattle.fz_block.specs.Hdus.{size_at, naxis_of, axes_of, pcount_of, gcount_of};
ghost use Rattle.fz_block.specs.Facts.{nine_axes};
ghost use Rattle.fz_block.specs.Mandatory.{mandatory_checks, extension_checks, bitpix_check, naxis_checks, axis_checks, count_checks};
ghost use Rattle.fz_block.specs.Values.{has_size};

use crate::Axes;
use crate::axes::MAX_AXES;
use crate::cards::{card, is_named};
use crate::refusing::refused;
use fz_base::{Fault, Kind, Place};
use fz_card::{FIELD_LEN, Name, numbered};

/// The greatest length of an axis.
const MAX_AXIS: u64 = 2_147_483_647;

/// What the mandatory cards say.
#[derive(Clone, Copy)]
pub(crate) struct Mandatory {
    pub(crate) bitpix: i32,
    pub(crate) axes: Axes,
    pub(crate) pcount: u64,
    pub(crate) gcount: u64,
}

/// What the mandatory cards say, or the first of them that is missing, is in another place or has no
/// allowed value.
pub(crate) fn mandatory_cards(buf: &[u8], hdu: u32) -> Result<Mandatory, Fault>
    requires { 2880 ≤ len buf.now }
    ensures exact { IsFirstOf (mandatory_checks hdu buf.now) result }
    ensures bitpix { IfOk result (λ m. integer_of (card_at buf.now 1) ≡ Some m.bitpix) }
    ensures axes { IfOk result (λ m. m.axes ≡ nine_axes (axes_of buf.now)) }
    ensures few { IfOk result (λ m. m.axes.n ≤ 9) }
    ensures counts { IfOk result (λ m. (m.pcount ≡ pcount_of hdu buf.now) × (m.gcount ≡ gcount_of hdu buf.now)) }
{
    check_extension(buf, hdu)?;
    let bitpix = bitpix(buf, hdu)?;
    let n = axis_count(buf, hdu)?;
    let len = axis_lengths(buf, hdu, n)?;
    let (pcount, gcount) = counts(buf, hdu, n)?;
    Ok(Mandatory {
        bitpix,
        axes: Axes { n, len },
        pcount,
        gcount,
    })
}

// Card 0 of an extension is XTENSION with a text.
fn check_extension(buf: &[u8], hdu: u32) -> Result<(), Fault>
    requires { 2880 ≤ len buf.now }
    ensures { IsFirstOf (extension_checks hdu buf.now) result }
{
    let first = card(buf, 0);
    let mut text = [0; FIELD_LEN];
    if hdu == 0 || is_named(&first, &Name::XTENSION) && first.text(&mut text).is_some() {
        Ok(())
    } else {
        Err(refused(hdu, Place::Card(0), Kind::BadCard))
    }
}

// Card 1 is BITPIX.
fn bitpix(buf: &[u8], hdu: u32) -> Result<i32, Fault>
    requires { 2880 ≤ len buf.now }
    ensures exact { IsFirstOf (bitpix_check hdu buf.now ∷ []) result }
    ensures value { IfOk result (λ v. integer_of (card_at buf.now 1) ≡ Some v) }
{
    let second = card(buf, 1);
    match second.int() {
        Some(v @ (8 | 16 | 32 | 64 | -32 | -64)) if is_named(&second, &Name::BITPIX) => Ok(
            v as i32,
        ),
        _ => Err(refused(hdu, Place::Card(1), Kind::BadCard)),
    }
}

// Card 2 is NAXIS, of at most 9.
fn axis_count(buf: &[u8], hdu: u32) -> Result<u32, Fault>
    requires { 2880 ≤ len buf.now }
    ensures exact { IsFirstOf (naxis_checks hdu buf.now) result }
    ensures value { IfOk result (λ n. (n ≡ naxis_of buf.now) × (n ≤ 9)) }
{
    let n = size(buf, hdu, 2, Name::NAXIS)?;
    if n > MAX_AXES as u64 {
        return Err(refused(hdu, Place::Card(2), Kind::Limit));
    }
    Ok(n as u32)
}

// The lengths of so many axes, and 0 for those that are not there.
fn axis_lengths(buf: &[u8], hdu: u32, n: u32) -> Result<[u32; MAX_AXES], Fault>
    requires buf { 2880 ≤ len buf.now }
    requires few { n ≤ 9 }
    ensures exact { IsFirstOf (flat_map (axis_checks hdu buf.now) (range_with_len 1 n)) result }
    ensures value { IfOk result (λ a. a ≡ map (size_at buf.now) (range_with_len 3 n) ++ replicate (9 - n) 0) }
{
    let mut lengths = [0; MAX_AXES];
    for i in 0..n {
        lengths[i as usize] = axis(buf, hdu, i + 1)?;
    }
    Ok(lengths)
}

// The length of axis i.
fn axis(buf: &[u8], hdu: u32, i: u32) -> Result<u32, Fault>
    requires buf { 2880 ≤ len buf.now }
    requires axis { i ≤ 9 }
    ensures exact { IsFirstOf (axis_checks hdu buf.now i) result }
    ensures value { IfOk result (λ n. n ≡ size_at buf.now (2 + i)) }
{
    let n = size(buf, hdu, 2 + i, numbered(b"NAXIS", i))?;
    if n > MAX_AXIS {
        return Err(refused(hdu, Place::Card(2 + i), Kind::Limit));
    }
    Ok(n as u32)
}

// PCOUNT and GCOUNT, which are after the n axes of an extension.
fn counts(buf: &[u8], hdu: u32, n: u32) -> Result<(u64, u64), Fault>
    requires buf { 2880 ≤ len buf.now }
    requires axes { (n ≡ naxis_of buf.now) × (n ≤ 9) }
    ensures exact { IsFirstOf (count_checks hdu buf.now) result }
    ensures value { IfOk result (λ c. (c.0 ≡ pcount_of hdu buf.now) × (c.1 ≡ gcount_of hdu buf.now)) }
{
    if hdu == 0 {
        return Ok((0, 1));
    }
    let pcount = size(buf, hdu, 3 + n, Name::PCOUNT)?;
    let gcount = size(buf, hdu, 4 + n, Name::GCOUNT)?;
    Ok((pcount, gcount))
}

// What the card of this index says, if it has the name and says a number that is 0 or more.
fn size(buf: &[u8], hdu: u32, i: u32, name: Name) -> Result<u64, Fault>
    requires { 80 * (i + 1) ≤ len buf.now }
    ensures exact { MatchResult result
        (λ _. has_size name.bytes (card_at buf.now i) ≡ true)
        (λ x. (has_size name.bytes (card_at buf.now i) ≡ false) × (x ≡ refusal hdu (AtCard i) BadCard)) }
    ensures value { IfOk result (λ n. n ≡ size_at buf.now i) }
{
    let found = card(buf, i);
    match found.int() {
        Some(n) if n >= 0 && is_named(&found, &name) => Ok(n as u64),
        _ => Err(refused(hdu, Place::Card(i), Kind::BadCard)),
    }
}

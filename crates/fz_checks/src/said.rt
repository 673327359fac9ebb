//! What the cards of a packed header say, each found by its name.
ghost use Rattle.std.specs.Prelude.{◌≡◌, ◌+◌, ◌*◌, ◌≤◌, false, [], ◌∷◌, None, Some, IfNone, IfSome, is_none, is_some, unwrap_or, length as len};
ghost use Rattle.fz_base.specs.Refusal.{IsFirstOf};
ghost use Rattle.fz_card.specs.Reading.{integer_of, logical_of, text_of, is_text};
ghost use Rattle.fz_block.specs.Cards.{card_at};
ghost use Rattle.fz_block.specs.Facts.{IsHeaderOf};
ghost use Rattle.fz_block.specs.Hdus.{cards_of, size_in};
ghost use Rattle.fz_head.specs.CardLists.{index_of, the_card};
ghost use Rattle.fz_head.specs.PackedChecks.{at_name, is_integer, is_positive, missing};

use fz_base::{Fault, Kind, Place};
use fz_block::{Header, card, refused};
use fz_card::{FIELD_LEN, Name};
use fz_table::first_named;

/// The index of the first card of this name.
pub(crate) fn find(buf: &[u8], header: &Header, name: &Name) -> Option<u32>
    requires { IsHeaderOf buf.now header.now }
    ensures index { result ≡ index_of name.now.bytes (cards_of buf.now) }
    ensures card { IfSome result (λ i. the_card name.now.bytes (cards_of buf.now) ≡ card_at buf.now i) }
    ensures none { IfNone result (the_card name.now.bytes (cards_of buf.now) ≡ []) }
    ensures within { IfSome result (λ i. 80 * (i + 1) ≤ len buf.now) }
{
    first_named(buf, header, name)
}

/// Whether there is a card of this name.
pub(crate) fn stands(buf: &[u8], header: &Header, name: &Name) -> bool
    requires { IsHeaderOf buf.now header.now }
    ensures { result ≡ is_some (index_of name.now.bytes (cards_of buf.now)) }
{
    find(buf, header, name).is_some()
}

/// The integer that the first card of this name says.
#[tactic(auto, using(crate::proofs::SaidCards::nothing_said))]
pub(crate) fn integer_said(buf: &[u8], header: &Header, name: &Name) -> Option<i64>
    requires { IsHeaderOf buf.now header.now }
    ensures { result ≡ integer_of (the_card name.now.bytes (cards_of buf.now)) }
{
    match find(buf, header, name) {
        Some(i) => card(buf, i).int(),
        None => None,
    }
}

/// Whether the first card of this name says T.
#[tactic(auto, using(crate::proofs::SaidCards::nothing_said))]
pub(crate) fn is_true(buf: &[u8], header: &Header, name: &Name) -> bool
    requires { IsHeaderOf buf.now header.now }
    ensures { result ≡ unwrap_or (logical_of (the_card name.now.bytes (cards_of buf.now))) false }
{
    match find(buf, header, name) {
        Some(i) => card(buf, i).logical().unwrap_or(false),
        None => false,
    }
}

/// Whether the first card of this name says this text.
#[tactic(auto, using(crate::proofs::SaidCards::nothing_said))]
pub(crate) fn is_text(buf: &[u8], header: &Header, name: &Name, text: &[u8]) -> bool
    requires { IsHeaderOf buf.now header.now }
    ensures { result ≡ is_text text.now (text_of (the_card name.now.bytes (cards_of buf.now))) }
{
    match find(buf, header, name) {
        Some(i) => card(buf, i).has_text(text),
        None => false,
    }
}

/// Whether the first card of this name says no text.
#[tactic(auto, using(crate::proofs::SaidCards::nothing_said))]
pub(crate) fn is_no_text(buf: &[u8], header: &Header, name: &Name) -> bool
    requires { IsHeaderOf buf.now header.now }
    ensures { result ≡ is_none (text_of (the_card name.now.bytes (cards_of buf.now))) }
{
    let mut text = [0; FIELD_LEN];
    match find(buf, header, name) {
        Some(i) => card(buf, i).text(&mut text).is_none(),
        None => true,
    }
}

/// How large an integer is, without its sign; 0 if there is none.
pub(crate) fn size(integer: Option<i64>) -> u64
    ensures { result ≡ size_in integer }
{
    match integer {
        Some(v) => v.unsigned_abs(),
        None => 0,
    }
}

/// Whether an integer is 1 or more.
pub(crate) fn is_positive(integer: Option<i64>) -> bool
    ensures { result ≡ is_positive integer }
{
    match integer {
        Some(v) => v > 0,
        None => false,
    }
}

/// Whether an integer is this one.
pub(crate) fn is_integer(integer: Option<i64>, value: i64) -> bool
    ensures { result ≡ is_integer value integer }
{
    match integer {
        Some(v) => v == value,
        None => false,
    }
}

/// A fault at the first card of this name.
pub(crate) fn at_name(buf: &[u8], header: &Header, name: &Name, kind: Kind) -> Fault
    requires { IsHeaderOf buf.now header.now }
    ensures { result ≡ at_name header.now.hdu name.now.bytes (cards_of buf.now) kind }
{
    let card = find(buf, header, name).unwrap_or(0);
    refused(header.hdu, Place::Card(card), kind)
}

/// Refused, if the condition holds.
pub(crate) fn refuse_when(condition: bool, fault: Fault) -> Result<(), Fault>
    ensures { IsFirstOf ((condition, fault) ∷ []) result }
{
    if condition { Err(fault) } else { Ok(()) }
}

/// Refused at END, if there is no card of this name.
pub(crate) fn require(buf: &[u8], header: &Header, name: &Name) -> Result<(), Fault>
    requires { IsHeaderOf buf.now header.now }
    ensures { IsFirstOf (missing header.now.hdu name.now.bytes (cards_of buf.now) ∷ []) result }
{
    match find(buf, header, name) {
        Some(_) => Ok(()),
        None => Err(refused(header.hdu, Place::Card(header.cards), Kind::BadCard)),
    }
}

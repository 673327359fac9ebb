//! Cards that are found by their names.
ghost use Rattle.std.specs.Prelude.{◌≡◌, ◌+◌, ◌*◌, ◌^◌, ◌<◌, ◌≤◌, length as len, bytes_eq, IfSome};
ghost use Rattle.fz_card.specs.Layout.{card_name};
ghost use Rattle.fz_block.specs.Cards.{card_at, first_among};
ghost use Rattle.fz_block.specs.Facts.{IsHeaderOf};
ghost use Rattle.fz_table.specs.Columns.{first_named, integer_at, form_of, title_of, is_called};
ghost use Rattle.fz_table.specs.Tables.{bad_table};

use crate::form::{Form, form_in};
use fz_base::{Fault, Kind, Place};
use fz_block::{Header, card, first_card_law};
use fz_card::{CARD_LEN, FIELD_LEN, NAME_LEN, Name, numbered};

/// The index of the first card before END with this name.
pub fn first_named(buf: &[u8], header: &Header, name: &Name) -> Option<u32>
    requires { IsHeaderOf buf.now header.now }
    ensures first { result ≡ first_named name.now.bytes buf.now }
    ensures within { IfSome result (λ i. 80 * (i + 1) ≤ len buf.now) }
{
    first_among(buf, header.cards, name)
}

// The index of the first of so many cards with this name.
fn first_among(buf: &[u8], cards: u32, name: &Name) -> Option<u32>
    requires { 80 * cards ≤ len buf.now }
    ensures first { result ≡ first_among (λ card. bytes_eq (card_name card) name.now.bytes) cards buf.now }
    ensures within { IfSome result (λ i. i < cards) }
{
    first_card_law();
    for i in 0..cards {
        if has_name(buf, i, name) {
            return Some(i);
        }
    }
    None
}

// Whether the card of this index has this name.
fn has_name(buf: &[u8], i: u32, name: &Name) -> bool
    requires { 80 * (i + 1) ≤ len buf.now }
    ensures { result ≡ bytes_eq (card_name (card_at buf.now i)) name.now.bytes }
{
    let start = CARD_LEN * i as usize;
    buf[start..start + NAME_LEN] == name.bytes[..]
}

/// The integer that a card says, if it is there and says one.
pub(crate) fn integer_at(buf: &[u8], found: Option<u32>) -> Option<i64>
    requires { IfSome found (λ i. 80 * (i + 1) ≤ len buf.now) }
    ensures { result ≡ integer_at buf.now found }
{
    card(buf, found?).int()
}

/// The form of column i, if it can be read.
pub(crate) fn form_of(buf: &[u8], header: &Header, i: u32) -> Option<Form>
    requires header { IsHeaderOf buf.now header.now }
    requires column { i < 1000 }
    ensures form { result ≡ form_of buf.now i }
    ensures short { IfSome result (λ f. f.len < 2 ^ 34) }
{
    let found = first_named(buf, header, &numbered(b"TFORM", i))?;
    let mut text = [0; FIELD_LEN];
    let count = card(buf, found).text(&mut text)?;
    form_in(&text[..count])
}

/// Whether column i has this name; the case of letters does not count.
pub fn is_called(buf: &[u8], header: &Header, i: u32, name: &[u8]) -> bool
    requires header { IsHeaderOf buf.now header.now }
    requires column { i < 1000 }
    ensures { result ≡ is_called name.now (title_of buf.now i) }
{
    let Some(found) = first_named(buf, header, &numbered(b"TTYPE", i)) else {
        return false;
    };
    let mut text = [0; FIELD_LEN];
    match card(buf, found).text(&mut text) {
        Some(count) => text[..count].eq_ignore_ascii_case(name),
        None => false,
    }
}

/// A fault at this card, or, if there is none, at END.
pub(crate) fn bad_table(header: &Header, found: Option<u32>) -> Fault
    ensures { result ≡ bad_table header.now found }
{
    Fault {
        hdu: header.hdu,
        at: Place::Card(found.unwrap_or(header.cards)),
        kind: Kind::BadTable,
    }
}

//! The text value of a card.
ghost use Rattle.std.specs.Prelude.{◌≡◌, ◌<◌, ◌≤◌, ◌+◌, ◌↔◌, ℕ, List, length, take, false, IsTrue, Some, None, IfSome, IfNone, MatchOption};
ghost use Rattle.std.specs.Option.{option_map};
ghost use Rattle.fz_card.specs.Value.{TextValue};
ghost use Rattle.fz_card.specs.Quoted.{quoted, with_first, at_quote, closed_text, text_in};
ghost use Rattle.fz_card.specs.Reading.{text_of, is_text, has_text};
ghost use Rattle.fz_card.specs.Laws.{TextOfLaw};

use crate::card::{Card, FIELD_LEN};
use crate::text::{plain_text, without_first_blanks, without_last_blanks};

impl Card {
    /// The text value, if the card has one: its characters are written at the front of `into`, each quote once
    /// and without blanks at the end, and their number is the answer (FITS 4.0, section 4.2.1). What `into` has
    /// after them is open.
    pub fn text(&self, into: &mut [u8; FIELD_LEN]) -> Option<usize>
        ensures value { IfSome result (λ n. TextValue self.now.bytes (take n into.new)) }
        ensures none { IfNone result ((characters : List ℕ) → ¬ (TextValue self.now.bytes characters)) }
        ensures function { option_map (λ n. take n into.new) result ≡ text_of self.now.bytes }
        ensures within { IfSome result (λ n. n ≤ FIELD_LEN) }
    {
        quoted_text(self.value_field()?, into)
    }

    /// Whether the text value of the card is this text: a card with no text value has none, and the empty text
    /// is a text (FITS 4.0, section 4.2.1).
    pub fn has_text(&self, text: &[u8]) -> bool
        ensures value { IsTrue result ↔ (text_of self.now.bytes ≡ Some text.now) }
        ensures function { result ≡ has_text text.now self.now.bytes }
    {
        let mut into = [b' '; FIELD_LEN];
        match self.text(&mut into) {
            Some(len) => &into[..len] == text,
            None => false,
        }
    }
}

/// Writes the characters of the text of the field, if it has one; the answer is their number.
fn quoted_text(field: &[u8], into: &mut [u8; FIELD_LEN]) -> Option<usize>
    requires { length field.now ≤ FIELD_LEN }
    ensures function { option_map (λ n. take n into.new) result ≡ text_in field.now }
    ensures within { IfSome result (λ n. n ≤ FIELD_LEN) }
{
    closed_text(without_first_blanks(field).strip_prefix(b"'")?, into)
}

/// The same for what is after the opening quote.
fn closed_text(opened: &[u8], into: &mut [u8; FIELD_LEN]) -> Option<usize>
    requires { length opened.now ≤ FIELD_LEN }
    ensures function { option_map (λ n. take n into.new) result ≡ closed_text (quoted opened.now) }
    ensures within { IfSome result (λ n. n ≤ FIELD_LEN) }
{
    let (len, behind) = read_quoted(opened, into)?;
    if plain_text(behind).is_empty() {
        Some(without_last_blanks(&into[..len]).len())
    } else {
        None
    }
}

/// Writes the characters up to the closing quote into `into`; the answer is their number and what is after
/// that quote.
fn read_quoted<'a>(opened: &'a [u8], into: &mut [u8; FIELD_LEN]) -> Option<(usize, &'a [u8])>
    requires { length opened.now ≤ FIELD_LEN }
    ensures found { MatchOption result (quoted opened.now ≡ None)
        (λ r. quoted opened.now ≡ Some (take r.0 into.new, r.1.now)) }
    ensures within { IfSome result (λ r. r.0 ≤ FIELD_LEN) }
{
    let mut rest = opened;
    let mut len = 0;
    while let Some((byte, behind)) = first_character(rest) {
        into[len] = byte;
        len += 1;
        rest = behind;
    }
    match rest {
        [_, behind @ ..] => Some((len, behind)),
        [] => None,
    }
}

/// The next character and what is after it, or `None` at the closing quote or the end.
fn first_character(text: &[u8]) -> Option<(u8, &[u8])>
    ensures some { IfSome result (λ r. quoted text.now ≡ with_first r.0 (quoted r.1.now)) }
    ensures shorter { IfSome result (λ r. length r.1.now < length text.now) }
    ensures none { IfNone result (quoted text.now ≡ at_quote text.now) }
{
    let (byte, behind) = text.split_first()?;
    if *byte != b'\'' {
        return Some((*byte, behind));
    }
    Some((b'\'', behind.strip_prefix(b"'")?))
}

/// A card has at most one text value, which `text_of` gives.
pub fn text_law()
    ensures once { (card a b : List ℕ) → TextValue card a → TextValue card b → a ≡ b }
    ensures function { TextOfLaw }
{}

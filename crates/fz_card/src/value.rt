//! The integer and the logical value of a card.
ghost use Rattle.std.specs.Prelude.{◌≡◌, ◌≢◌, ◌↔◌, ℕ, ℤ, List, Bool, Some, IfSome, IfNone};
ghost use Rattle.fz_card.specs.Value.{IntegerValue, LogicalValue, IsIntegerText, IsShort, logical_text};
ghost use Rattle.std.specs.Str.Parse.{without_leading_sign};
ghost use Rattle.fz_card.specs.Plain.{ReadsSigned};
ghost use Rattle.fz_card.specs.Reading.{integer_in, integer_of, logical_of};
ghost use Rattle.fz_card.specs.Laws.{IntegerOfLaw, LogicalOfLaw};

use crate::card::Card;

impl Card {
    /// The integer value, if the card has one: 1 to 18 digits with or without a sign.
    pub fn int(&self) -> Option<i64>
        ensures value { IfSome result (IntegerValue self.now.bytes) }
        ensures none { IfNone result ((v : ℤ) → ¬ (IntegerValue self.now.bytes v)) }
        ensures function { result ≡ integer_of self.now.bytes }
        ensures short { IfSome result IsShort }
    {
        integer(self.value_text()?)
    }

    /// The logical value, if the card has one.
    pub fn logical(&self) -> Option<bool>
        ensures value { IfSome result (LogicalValue self.now.bytes) }
        ensures none { IfNone result ((b : Bool) → ¬ (LogicalValue self.now.bytes b)) }
        ensures function { result ≡ logical_of self.now.bytes }
    {
        truth(self.value_text()?)
    }
}

/// The logical value that the text means.
fn truth(text: &[u8]) -> Option<bool>
    ensures value { IfSome result (λ b. text.now ≡ logical_text b) }
    ensures none { IfNone result ((b : Bool) → text.now ≢ logical_text b) }
{
    match text {
        b"T" => Some(true),
        b"F" => Some(false),
        _ => None,
    }
}

/// The most digits of an integer, so that each fits 64 bits.
const MOST_DIGITS: usize = 18;

/// The number that the text writes, if it is an integer of 1 to 18 digits (FITS 4.0, section 4.2.3).
pub fn integer(text: &[u8]) -> Option<i64>
    ensures value { IfSome result (IsIntegerText text.now) }
    ensures none { IfNone result ((v : ℤ) → ¬ (IsIntegerText text.now v)) }
    ensures function { result ≡ integer_in text.now }
{
    if without_sign(text).len() > MOST_DIGITS {
        return None;
    }
    parsed(text)
}

/// The text without a sign at its front.
pub(crate) fn without_sign(text: &[u8]) -> &[u8]
    ensures { result.now ≡ without_leading_sign text.now }
{
    match text {
        [b'+' | b'-', digits @ ..] => digits,
        _ => text,
    }
}

/// The number that a sign and digits write, if it fits.
fn parsed(text: &[u8]) -> Option<i64>
    ensures { ReadsSigned text.now result }
{
    let Ok(text) = str::from_utf8(text) else {
        return None;
    };
    text.parse().ok()
}

/// A card has at most one integer value, which `integer_of` gives.
pub fn int_law()
    ensures once { (card : List ℕ) (v w : ℤ) → IntegerValue card v → IntegerValue card w → v ≡ w }
    ensures function { IntegerOfLaw }
{}

/// A text writes at most one integer, which `integer_in` gives.
pub fn integer_text_law()
    ensures { (text : List ℕ) (v : ℤ) → IsIntegerText text v ↔ (integer_in text ≡ Some v) }
{}

/// A card has at most one logical value, which `logical_of` gives.
pub fn logical_law()
    ensures once { (card : List ℕ) (a b : Bool) → LogicalValue card a → LogicalValue card b → a ≡ b }
    ensures function { LogicalOfLaw }
{}

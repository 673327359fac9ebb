//! The text of a value that has no quotes: what is in the value field before a comment, without the
//! blanks around it.
ghost use Rattle.std.specs.Prelude.{◌≡◌, ◌==◌, position};
ghost use Rattle.fz_card.specs.Plain.{before_comment, skip_blanks, cut_blanks, plain_text, ReadsField, ReadsPlainText};
ghost use Rattle.fz_card.specs.Laws.{ValueTextLaw, BlankLaws};

use crate::card::{Card, FIELD_START, NAME_LEN};

/// What is in columns 9 and 10 of a card with a value (FITS 4.0, section 4.1.2.2).
const VALUE_INDICATOR: [u8; 2] = *b"= ";

impl Card {
    /// The value field, or `None` if columns 9 and 10 say that there is no value.
    pub(crate) fn value_field(&self) -> Option<&[u8]>
        ensures { ReadsField self.now.bytes result }
    {
        let (front, field) = self.bytes.split_at(FIELD_START);
        if &front[NAME_LEN..] == VALUE_INDICATOR.as_slice() {
            Some(field)
        } else {
            None
        }
    }

    /// The text of a value without quotes: what is in the value field before the first `/`, without the blanks
    /// around it, or `None` if columns 9 and 10 say that there is no value (FITS 4.0, sections 4.1.2.2 and
    /// 4.1.2.3).
    pub fn value_text(&self) -> Option<&[u8]>
        ensures { ReadsPlainText self.now.bytes result }
    {
        Some(plain_text(self.value_field()?))
    }
}

/// What is in the field before a comment, without the blanks around it.
pub(crate) fn plain_text(field: &[u8]) -> &[u8]
    ensures { result.now ≡ plain_text field.now }
{
    without_last_blanks(without_first_blanks(without_comment(field)))
}

/// The front of the field up to the first `/`.
fn without_comment(field: &[u8]) -> &[u8]
    ensures { result.now ≡ before_comment field.now }
{
    match comment_start(field) {
        Some(start) => &field[..start],
        None => field,
    }
}

fn comment_start(field: &[u8]) -> Option<usize>
    ensures { result ≡ position (λ b. b == 47) field.now }
{
    field.iter().position(|byte| *byte == b'/')
}

/// The text without the blanks at its front.
pub fn without_first_blanks(mut text: &[u8]) -> &[u8]
    ensures { result.now ≡ skip_blanks text.entry.now }
{
    while let [b' ', rest @ ..] = text {
        text = rest;
    }
    text
}

pub(crate) fn without_last_blanks(text: &[u8]) -> &[u8]
    ensures { result.now ≡ cut_blanks text.now }
{
    let mut len = text.len();
    while len > 0 && text[len - 1] == b' ' {
        len -= 1;
    }
    &text[..len]
}

/// A card has a text without blanks and `/` as the text of its value exactly if `Card::value_text` finds it.
pub fn value_text_law()
    ensures { ValueTextLaw }
{}

/// What is before a text without the blanks at its front is blanks, and blanks before a text change nothing.
pub fn blanks_law()
    ensures { BlankLaws }
{}

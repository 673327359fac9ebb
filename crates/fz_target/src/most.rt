//! The greatest count that TFORMi says.
ghost use Rattle.std.specs.Prelude.{◌≡◌, ◌<◌, ◌≤◌, ◌^◌, Some, length as len};
ghost use Rattle.std.specs.Str.Parse.{AllDigits, digits_value};
ghost use Rattle.fz_block.specs.Facts.{IsHeaderOf};
ghost use Rattle.fz_laws.specs.Writes.{most_in as most_in_form, number_in_parentheses, said_most};

use fz_block::{Header, card};
use fz_card::{FIELD_LEN, numbered};
use fz_table::{first_digits, first_named};

/// The most digits of a number, so that it fits 64 bits.
const MOST_DIGITS: usize = 18;

/// The greatest count that the form of column i says, in parentheses directly after the letter of the elements; 0 if it
/// says none.
pub fn said_most(header: &Header, buf: &[u8], i: u32) -> u64
    requires header { IsHeaderOf buf.now header.now }
    requires column { i < 1000 }
    ensures { result ≡ said_most buf.now i }
{
    let Some(found) = first_named(buf, header, &numbered(b"TFORM", i)) else {
        return 0;
    };
    let mut text = [0; FIELD_LEN];
    match card(buf, found).text(&mut text) {
        Some(count) => most_in(&text[..count]),
        None => 0,
    }
}

// The same of the text of the form.
fn most_in(text: &[u8]) -> u64
    ensures { result ≡ most_in_form (Some text.now) }
{
    let digits = first_digits(text).len();
    match &text[digits..] {
        [_, _, rest @ ..] => number_in_parentheses(rest).unwrap_or(0),
        _ => 0,
    }
}

// The number of 1 to 18 digits that a text has in parentheses at its front.
fn number_in_parentheses(text: &[u8]) -> Option<u64>
    ensures { result ≡ number_in_parentheses text.now }
{
    let [b'(', rest @ ..] = text else {
        return None;
    };
    let digits = first_digits(rest);
    if digits.is_empty() || digits.len() > MOST_DIGITS {
        return None;
    }
    match &rest[digits.len()..] {
        [b')', ..] => Some(number_in(digits)),
        _ => None,
    }
}

// The number that the digits write.
fn number_in(digits: &[u8]) -> u64
    requires few { len digits.now ≤ 18 }
    requires digits { AllDigits 10 digits.now }
    ensures value { result ≡ digits_value 10 digits.now }
    ensures short { result < 10 ^ 18 }
{
    let mut number = 0;
    for digit in digits {
        number = 10 * number + u64::from(*digit - b'0');
    }
    number
}

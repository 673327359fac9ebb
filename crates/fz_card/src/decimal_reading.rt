//! The decimal that a text writes.
ghost use Rattle.std.specs.Prelude.{◌≡◌, ◌≤◌, ◌^◌, IfSome, length, take, drop, unsigned_abs};
ghost use Rattle.std.specs.Str.Parse.{without_leading_sign};
ghost use Rattle.fz_card.specs.DecimalScans.{before, behind, is_letter, is_point, exponent_in as exponent_of, small_integer_in};
ghost use Rattle.fz_card.specs.DecimalScans.{joined_integer as joined_integer_of, decimal_in as decimal_of};

use crate::decimal::{Decimal, scaled};
use crate::line::Line;
use crate::value::integer;
use crate::zero::{are_digits, without_point};

/// The most characters of a sign and digits.
const MOST_CHARACTERS: usize = 19;

/// The most digits of an exponent.
const MOST_EXPONENT_DIGITS: usize = 3;

/// The decimal that the text writes, if it writes one.
pub(crate) fn decimal_in(text: &[u8]) -> Option<Decimal>
    ensures value { result ≡ decimal_of text.now }
    ensures few { IfSome result (λ d. d.places ≤ 28) }
    ensures low { IfSome result (λ d. unsigned_abs d.number ≤ 10 ^ 28) }
{
    let (mantissa, exponent) = text.split_at(mantissa_len(text));
    let (front, rest) = mantissa.split_at(front_len(mantissa));
    let fraction = without_point(rest);
    let integer = joined_integer(front, fraction)?;
    let exponent = exponent_in(exponent)?;
    Some(scaled(integer, fraction.len() as u32, exponent))
}

/// How many characters are before the letter of an exponent.
fn mantissa_len(text: &[u8]) -> usize
    ensures before { take result text.now ≡ before is_letter text.now }
    ensures behind { drop result text.now ≡ behind is_letter text.now }
    ensures within { result ≤ length text.now }
{
    let mut len = 0;
    while len < text.len() && !is_letter(text[len]) {
        len += 1;
    }
    len
}

fn is_letter(byte: u8) -> bool
    ensures { result ≡ is_letter byte }
{
    byte == b'E' || byte == b'D'
}

/// How many characters are before the point.
fn front_len(text: &[u8]) -> usize
    ensures before { take result text.now ≡ before is_point text.now }
    ensures behind { drop result text.now ≡ behind is_point text.now }
    ensures within { result ≤ length text.now }
{
    let mut len = 0;
    while len < text.len() && !is_point(text[len]) {
        len += 1;
    }
    len
}

fn is_point(byte: u8) -> bool
    ensures { result ≡ is_point byte }
{
    byte == b'.'
}

/// The integer that both parts write together, if the second is only digits.
fn joined_integer(front: &[u8], fraction: &[u8]) -> Option<i64>
    ensures value { result ≡ joined_integer_of front.now fraction.now }
    ensures few { IfSome result (λ _. length fraction.now ≤ 19) }
{
    if !are_digits(fraction) || front.len() + fraction.len() > MOST_CHARACTERS {
        return None;
    }
    let mut both: Line<MOST_CHARACTERS> = Line::new();
    both.push(front);
    both.push(fraction);
    integer(both.text())
}

/// The exponent that the text writes, if it is one; 0 for no text.
fn exponent_in(text: &[u8]) -> Option<i32>
    ensures { result ≡ exponent_of text.now }
{
    match text {
        [] => Some(0),
        [b'E' | b'D', rest @ ..] => small_integer(rest),
        _ => None,
    }
}

/// The integer of at most three digits that the text writes, if it is from -9 to 9.
fn small_integer(text: &[u8]) -> Option<i32>
    ensures { result ≡ small_integer_in text.now }
{
    if digit_count(text) > MOST_EXPONENT_DIGITS {
        return None;
    }
    match integer(text)? {
        small @ -9..=9 => Some(small as i32),
        _ => None,
    }
}

/// How many characters are after a sign.
fn digit_count(text: &[u8]) -> usize
    ensures { result ≡ length (without_leading_sign text.now) }
{
    match text {
        [b'+' | b'-', digits @ ..] => digits.len(),
        _ => text.len(),
    }
}

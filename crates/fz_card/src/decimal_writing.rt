//! The text of a decimal.
ghost use Rattle.std.specs.Prelude.{◌≡◌, ◌+◌, ◌^◌, ◌<◌, ◌≤◌, ◌++◌, unsigned_abs, length};
ghost use Rattle.fz_card.specs.Decimals.{decimal_text, sign_text, last_digits};

use crate::card::FIELD_LEN;
use crate::decimal::{Decimal, power_of_ten};
use crate::line::Line;
use itoa::Buffer;

/// The text of the decimal.
pub(crate) fn decimal_line(decimal: Decimal) -> Line<FIELD_LEN>
    requires few { decimal.places ≤ 28 }
    requires low { unsigned_abs decimal.number < 10 ^ 38 }
    ensures { result ≡ decimal_text decimal }
{
    let size = decimal.number.unsigned_abs();
    let mut line = sign_line(decimal.number);
    let mut buffer = Buffer::new();
    line.push(
        buffer
            .format(size / power_of_ten(decimal.places))
            .as_bytes(),
    );
    if decimal.places > 0 {
        line.push(b".");
        push_last_digits(&mut line, size, decimal.places);
    }
    line
}

/// The sign of a number below 0.
fn sign_line(number: i128) -> Line<FIELD_LEN>
    ensures value { result ≡ sign_text number }
    ensures short { length result ≤ 1 }
{
    let mut line = Line::new();
    if number < 0 {
        line.push(b"-");
    }
    line
}

/// Writes the last so many digits of the number, with zeros at the front.
fn push_last_digits(line: &mut Line<FIELD_LEN>, number: u128, count: u32)
    requires few { count ≤ 28 }
    requires room { length line.old + count ≤ FIELD_LEN }
    ensures { line.new ≡ line.old ++ last_digits count number }
{
    let mut left = count;
    while left > 0 {
        left -= 1;
        line.push(&[b'0' + (number / power_of_ten(left) % 10) as u8]);
    }
}

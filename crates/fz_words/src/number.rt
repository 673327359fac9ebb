//! Numbers of the command line.
ghost use Rattle.std.specs.Prelude.{◌≡◌, ◌≤◌, ◌<◌, ◌^◌, IfSome, Some, None, length};
ghost use Rattle.std.specs.Str.{all_ascii_digits};
ghost use Rattle.std.specs.Str.Parse.{digits_value};
ghost use Rattle.fz_card.specs.Reading.{is_short_numeral};
ghost use Rattle.fz_words.specs.Values.{digits_in, length_in, number_in};

/// The longest axis, and so the greatest place on one.
pub(crate) const LONGEST_AXIS: u32 = 2_147_483_647;

/// The most digits of a number, so that each fits 64 bits.
const MOST_DIGITS: usize = 18;

/// The number that 1 to 18 decimal digits write, if it lies in this range.
pub(crate) fn number_in(text: &str, least: u64, most: u64) -> Option<u64>
    ensures value { result ≡ number_in least most text.now }
    ensures inside { IfSome result (λ number. (least ≤ number) × (number ≤ most)) }
{
    let number = digits_in(text)?;
    if least <= number && number <= most {
        Some(number)
    } else {
        None
    }
}

/// The same of a number of 32 bits.
pub(crate) fn short_in(text: &str, least: u32, most: u32) -> Option<u32>
    ensures value { result ≡ number_in least most text.now }
    ensures inside { IfSome result (λ number. (least ≤ number) × (number ≤ most)) }
{
    let number = number_in(text, u64::from(least), u64::from(most))?;
    Some(number as u32)
}

/// The length of an axis, or a place on one, counted from 1.
pub(crate) fn length_in(text: &str) -> Option<u32>
    ensures value { result ≡ length_in text.now }
    ensures inside { IfSome result (λ number. (1 ≤ number) × (number < 2 ^ 31)) }
{
    short_in(text, 1, LONGEST_AXIS)
}

// The number that 1 to 18 decimal digits write.
fn digits_in(text: &str) -> Option<u64>
    ensures { result ≡ digits_in text.now }
{
    if !is_short_numeral(text) {
        return None;
    }
    text.parse().ok()
}

// Whether the text is 1 to 18 decimal digits.
fn is_short_numeral(text: &str) -> bool
    ensures { result ≡ is_short_numeral text.now }
{
    !text.is_empty() && text.len() <= MOST_DIGITS && are_digits(text)
}

fn are_digits(text: &str) -> bool
    ensures { result ≡ all_ascii_digits text.now }
{
    text.as_bytes().iter().all(u8::is_ascii_digit)
}

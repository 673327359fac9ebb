//! The form of a column, as TFORMi writes it.
ghost use Rattle.std.specs.Prelude.{◌≡◌, ◌*◌, ◌<◌, ◌≤◌, ◌^◌, ◌==◌, length as len, codes, take, drop, slice_get, not, position, IfSome};
ghost use Rattle.std.specs.Char.{is_ascii_digit};
ghost use Rattle.std.specs.Str.Parse.{AllDigits};
ghost use Rattle.fz_table.specs.Forms.{is_any, elements_len, first_digits, repeat_in, may_repeat, lettered, form_in};

/// A form (FITS 4.0, section 7.3.1 and table 18).
#[derive(Clone, Copy)]
pub(crate) struct Form {
    /// The repeat count.
    pub(crate) repeat: u32,
    /// The letter of the form.
    pub(crate) letter: u8,
    /// The bytes that the column takes in a row.
    pub(crate) len: u64,
    /// What is directly after the letter: in an array descriptor the letter of the elements.
    pub(crate) element: Option<u8>,
}

/// The most digits of a repeat count.
const MAX_DIGITS: usize = 9;

/// The form that the text writes: up to 9 digits, a letter, and anything.
#[tactic(auto, unfolding(crate::specs::Forms::form_in))]
pub(crate) fn form_in(text: &[u8]) -> Option<Form>
    ensures form { result ≡ form_in text.now }
    ensures short { IfSome result (λ f. f.len < 2 ^ 34) }
{
    let digits = first_digits(text);
    if digits.len() > MAX_DIGITS {
        return None;
    }
    lettered(repeat_in(digits), &text[digits.len()..])
}

/// The digits at the front of the text.
pub fn first_digits(text: &[u8]) -> &[u8]
    ensures value { result.now ≡ first_digits text.now }
    ensures digits { AllDigits 10 result.now }
{
    match first_other(text) {
        Some(end) => &text[..end],
        None => text,
    }
}

// The place of the first byte that is no digit.
fn first_other(text: &[u8]) -> Option<usize>
    ensures { result ≡ position (λ b. not (is_ascii_digit b)) text.now }
{
    text.iter().position(|byte| !byte.is_ascii_digit())
}

// The repeat count that the digits write: 1 if there are none.
fn repeat_in(digits: &[u8]) -> u32
    requires few { len digits.now ≤ 9 }
    requires digits { AllDigits 10 digits.now }
    ensures value { result ≡ repeat_in digits.now }
    ensures short { result < 10 ^ 9 }
{
    if digits.is_empty() {
        return 1;
    }
    let mut number = 0;
    for digit in digits {
        number = 10 * number + u32::from(*digit - b'0');
    }
    number
}

// The form with this repeat count whose letter is first in the text.
fn lettered(repeat: u32, text: &[u8]) -> Option<Form>
    requires { repeat < 10 ^ 9 }
    ensures form { result ≡ lettered repeat text.now }
    ensures short { IfSome result (λ f. f.len < 2 ^ 34) }
{
    let (letter, behind) = text.split_first()?;
    let len = elements_len(*letter, repeat)?;
    if is_descriptor(*letter) && repeat > 1 {
        return None;
    }
    Some(Form {
        repeat,
        letter: *letter,
        len,
        element: behind.first().copied(),
    })
}

// The bytes that so many elements of a letter take, if it is the letter of a form.
#[tactic(auto, unfolding(crate::specs::Forms::elements_len))]
pub(crate) fn elements_len(letter: u8, count: u32) -> Option<u64>
    requires { count < 10 ^ 9 }
    ensures len { result ≡ elements_len letter count }
    ensures short { IfSome result (λ n. n ≤ 16 * count) }
{
    let count = u64::from(count);
    match letter {
        b'L' | b'B' | b'A' => Some(count),
        b'I' => Some(2 * count),
        b'J' | b'E' => Some(4 * count),
        b'K' | b'D' | b'C' | b'P' => Some(8 * count),
        b'M' | b'Q' => Some(16 * count),
        b'X' => Some(count.div_ceil(8)),
        _ => None,
    }
}

// Whether the letter is one of array descriptors.
pub(crate) fn is_descriptor(letter: u8) -> bool
    ensures { result ≡ is_any (codes "PQ") letter }
{
    matches!(letter, b'P' | b'Q')
}

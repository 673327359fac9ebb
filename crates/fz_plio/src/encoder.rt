//! Line lists written.

ghost use Rattle.std.specs.Prelude.{◌≡◌, ℕ, ◌+◌, ◌*◌, ◌^◌, ◌<◌, ◌≤◌, ◌↔◌, ◌++◌, length, drop, true, All, IfOk, OnOk, IsErr, Ok, Err, MatchOption};
ghost use Rattle.fz_plio.specs.Laws.{TestsRange, MeansItsNumbers};
ghost use Rattle.fz_plio.specs.Producer.{InRange, IsFirstOutside, header, body_words, line_list};
ghost use Rattle.fz_plio.specs.Writing.{Puts, magnitudes};

use crate::list_writer::{Full, ListWriter};
use crate::operation::Operation;
use crate::run::next_run;
use crate::step::HIGH_END;
use crate::word::{HEADER_LEN, HEADER_WORDS, PART_END, WORD_LEN};

/// Word 2 of a list, which is -100 as a signed number.
const VERSION: u16 = 0xff9c;

/// Why no list is written.
#[derive(Clone, Copy, Debug, PartialEq, Eq)]
pub enum PlioStop {
    /// The number with this index, the first such one, is outside 0 to 2^24 - 1.
    Range { index: u32 },
    /// The list is longer than the bytes for it.
    Full,
}

/// Writes the list of a line at the front of `out`, and answers its length in bytes
/// (FITS 4.0, section 10.4.3).
///
/// After `Full` the bytes of `out` are some values.
pub fn encode(numbers: &[i32], out: &mut [u8]) -> Result<usize, PlioStop>
    requires { length numbers.now ≤ 2 ^ 26 }
    ensures in_range { OnOk result (All InRange numbers.now) }
    ensures len { IfOk result (λ len. len ≡ length (line_list numbers.now)) }
    ensures within { IfOk result (λ len. len ≤ length out.old) }
    ensures list { IfOk result (λ len. out.new ≡ line_list numbers.now ++ drop len out.old) }

    ensures range { (index : ℕ)
        → (result ≡ Err (PlioStop.Range index)) ↔ IsFirstOutside numbers.now index }
    ensures untouched { (index : ℕ) → result ≡ Err (PlioStop.Range index) → out.new ≡ out.old }
    ensures full { (result ≡ Err PlioStop.Full)
        ↔ (All InRange numbers.now × (length out.old < length (line_list numbers.now))) }
{
    if let Some(index) = first_outside(numbers) {
        return Err(PlioStop::Range { index });
    }
    match write_list(numbers, out) {
        Ok(len) => Ok(len),
        Err(Full) => Err(PlioStop::Full),
    }
}

/// The index of the first number that no list can hold.
fn first_outside(numbers: &[i32]) -> Option<u32>
    requires { length numbers.now ≤ 2 ^ 26 }
    ensures { MatchOption result (All InRange numbers.now) (IsFirstOutside numbers.now) }
{
    if all_inside(numbers) {
        return None;
    }
    for (index, &number) in numbers.iter().enumerate() {
        if number < 0 || number >= HIGH_END as i32 {
            return Some(index as u32);
        }
    }
    None
}

// Whether a list can hold all of them. No early answer: so several are compared at once.
fn all_inside(numbers: &[i32]) -> bool
    ensures { result ≡ true → All InRange numbers.now }
{
    let mut fine = true;
    for i in 0..numbers.len() {
        fine = fine & is_inside(numbers[i]);
    }
    fine
}

// Whether a list can hold it.
#[inline]
fn is_inside(number: i32) -> bool
    ensures { result ≡ true → InRange number }
{
    0 <= number && number < HIGH_END as i32
}

/// Writes the list of a line whose numbers are in range.
fn write_list(numbers: &[i32], out: &mut [u8]) -> Result<usize, Full>
    requires len { length numbers.now ≤ 2 ^ 26 }
    requires in_range { All InRange numbers.now }
    ensures len { IfOk result (λ len. len ≡ length (line_list numbers.now)) }
    ensures list { IfOk result (λ len. out.new ≡ line_list numbers.now ++ drop len out.old) }
    ensures full { IsErr result ↔ (length out.old < length (line_list numbers.now)) }
{
    if out.len() < HEADER_LEN {
        return Err(Full);
    }
    let mut list = ListWriter {
        out,
        at: HEADER_LEN,
    };
    put_list(&mut list, numbers)
}

/// Puts the instructions after the place of the header, and then the header.
fn put_list(list: &mut ListWriter, numbers: &[i32]) -> Result<usize, Full>
    requires len { length numbers.now ≤ 2 ^ 26 }
    requires in_range { All InRange numbers.now }
    requires at { list.old.at ≡ 14 }
    ensures same { list.new.out.ghost_name ≡ list.old.out.ghost_name }
    ensures len { IfOk result (λ len. len ≡ length (line_list numbers.now)) }
    ensures list { IfOk result
        (λ len. list.new.out.now ≡ line_list numbers.now ++ drop len list.old.out.now) }
    ensures full { IsErr result ↔ (length list.old.out.now < length (line_list numbers.now)) }
{
    put_line(list, numbers)?;
    let len = list.at;
    list.at = 0;
    list.put_words(&header(len / WORD_LEN))?;
    Ok(len)
}

/// Puts the instructions of a line.
fn put_line(list: &mut ListWriter, numbers: &[i32]) -> Result<(), Full>
    requires { All InRange numbers.now }
    ensures same { list.new.out.ghost_name ≡ list.old.out.ghost_name }
    ensures puts { Puts list.old.out.now list.new.out.now list.old.at list.new.at
        (body_words 1 (magnitudes numbers.now)) result }
{
    let mut rest = numbers;
    let mut high = 1;
    while let Some((run, behind)) = next_run(rest) {
        list.put_run(high, run)?;
        high = run.value;
        rest = behind;
    }
    list.put_pieces(Operation::Zeros, rest.len())
}

/// The header of a list of so many words.
fn header(len: usize) -> [u16; HEADER_WORDS]
    requires { len < 2 ^ 30 }
    ensures { result ≡ header len }
{
    const RANGE: usize = PART_END as usize;
    [
        0,
        HEADER_WORDS as u16,
        VERSION,
        (len % RANGE) as u16,
        (len / RANGE) as u16,
        0,
        0,
    ]
}

/// `can_hold_all` is the test whether a line list can hold all numbers of a line.
pub fn can_hold_law()
    ensures { TestsRange }
{}

/// What is written means the numbers: for every line that `encode` takes, its list is a lawful one
/// of so many numbers, and these are they.
pub fn line_list_law()
    ensures { MeansItsNumbers }
{}

//! Runs of equal numbers in a line.

ghost use Rattle.std.specs.Prelude.{◌≡◌, ◌≢◌, ◌+◌, ◌^◌, ◌<◌, ◌≤◌, [], ◌∷◌, length, take, replicate, slice_index_or, true, All, IfNone, IfSome};
ghost use Rattle.fz_plio.specs.Producer.{InRange, runs};
ghost use Rattle.fz_plio.specs.Writing.{magnitudes, run_of};

use crate::step::NUMBER_END;

/// A maximal run of equal numbers above 0, and the length of the zero run directly before it.
#[derive(Clone, Copy, Debug)]
pub struct Run {
    pub zeros: usize,
    pub value: u32,
    pub count: usize,
}

impl Run {
    ghost use Rattle.fz_plio.specs.Producer.{is_single_step};
    ghost use Rattle.fz_plio.specs.Writing.{run_of};

    /// The run is a single number, no zeros before it, near the high value and not the same.
    pub fn is_single_step(self, high: u32) -> bool
        ensures { result ≡ is_single_step high (run_of self) }
    {
        const RANGE: u32 = NUMBER_END as u32;
        let is_near = high != self.value && high.abs_diff(self.value) < RANGE;
        self.count == 1 && self.zeros == 0 && is_near
    }
}

/// The first run of a line, and the numbers after it; none if no number is above 0.
pub fn next_run(numbers: &[i32]) -> Option<(Run, &[i32])>
    requires { All InRange numbers.now }
    ensures none { IfNone result (runs (magnitudes numbers.now) ≡ []) }
    ensures first { IfSome result (λ found. runs (magnitudes numbers.now)
        ≡ run_of found.0 ∷ runs (magnitudes found.1.now)) }
    ensures lengths { IfSome result (λ found.
        found.0.zeros + found.0.count + length found.1.now ≡ length numbers.now) }
    ensures counted { IfSome result (λ found. 0 < found.0.count) }
    ensures value { IfSome result (λ found. found.0.value < 2 ^ 24) }
    ensures in_range { IfSome result (λ found. All InRange found.1.now) }
{
    let zeros = front_len(numbers, 0);
    if zeros == numbers.len() {
        return None;
    }
    let (_, behind) = numbers.split_at(zeros);
    let value = behind[0];
    let count = front_len(behind, value);
    let (_, rest) = behind.split_at(count);
    Some((
        Run {
            zeros,
            value: value as u32,
            count,
        },
        rest,
    ))
}

// So many numbers are looked at together.
const STRETCH: usize = 16;

/// How many numbers at the front are this one.
pub fn front_len(numbers: &[i32], number: i32) -> usize
    ensures within { result ≤ length numbers.now }
    ensures front { take result numbers.now ≡ replicate result number }
    ensures end { result < length numbers.now → slice_index_or numbers.now result number ≢ number }
{
    let mut at = whole_len(numbers, number);
    while at < numbers.len() && numbers[at] == number {
        at += 1;
    }
    at
}

// How many are in the stretches at the front that have only this number.
fn whole_len(numbers: &[i32], number: i32) -> usize
    ensures within { result ≤ length numbers.now }
    ensures front { take result numbers.now ≡ replicate result number }
{
    let mut at = 0;
    while numbers.len() - at >= STRETCH && all_are(&numbers[at..at + STRETCH], number) {
        at += STRETCH;
    }
    at
}

// Whether all of them are this one. No early answer: so they are compared several at once.
#[inline]
fn all_are(numbers: &[i32], number: i32) -> bool
    ensures { result ≡ true → numbers.now ≡ replicate (length numbers.now) number }
{
    let mut same = true;
    for i in 0..numbers.len() {
        same = same & (numbers[i] == number);
    }
    same
}

//! What one instruction does to a line.

ghost use Rattle.std.specs.Prelude.{◌≡◌, ◌%◌, ◌^◌, ◌<◌, ◌≤◌, IfSome, length};
ghost use Rattle.std.specs.Option.{option_map};
ghost use Rattle.fz_plio.specs.Operation.{code_of};
ghost use Rattle.fz_plio.specs.Words.{words};
ghost use Rattle.fz_plio.specs.Reading.{one_word_effect, two_word_effect, raised, lowered, next_effect};
ghost use Rattle.fz_plio.specs.Step.{effect_of};

use crate::operation::Operation;
use crate::word::{WORD_LEN, split_word};

/// The high value stays below this number.
pub const HIGH_END: u32 = 1 << 24;

/// The number N of an instruction stays below this number.
pub const NUMBER_END: u16 = 4096;

/// What an instruction does: the high value that it leaves, the zeros that it writes, and how
/// often it then writes the high value.
#[derive(Clone, Copy, Debug)]
pub struct Step {
    pub high: u32,
    pub zeros: u32,
    pub highs: u32,
}

/// The step of the first instruction, from this high value, and the bytes after the instruction;
/// none if the instruction is refused.
#[inline]
pub fn next_step(bytes: &[u8], high: u32) -> Option<(Step, &[u8])>
    requires word { 2 ≤ length bytes.now }
    requires high { high < 2 ^ 24 }
    ensures step { option_map (λ found. (effect_of found.0, words found.1.now)) result
        ≡ next_effect high (words bytes.now) }
    ensures high { IfSome result (λ found. found.0.high < 2 ^ 24) }
    ensures whole { IfSome result (λ found. length found.1.now % 2 ≡ length bytes.now % 2) }
    ensures shorter { IfSome result (λ found. length found.1.now < length bytes.now) }
{
    let (word, rest) = split_word(bytes);
    let number = u32::from(word % NUMBER_END);
    let Some(operation) = Operation::of(word / NUMBER_END) else {
        return None;
    };
    if let Operation::SetHigh = operation {
        return set_high(number, rest);
    }
    let Some(step) = one_word_step(operation, number, high) else {
        return None;
    };
    Some((step, rest))
}

/// The step of operation 1, whose second word is the first of these bytes.
#[tactic(auto, using(crate::proofs::WordLemmas::words_nil))]
fn set_high(number: u32, bytes: &[u8]) -> Option<(Step, &[u8])>
    requires { number < 4096 }
    ensures step { option_map (λ found. (effect_of found.0, words found.1.now)) result
        ≡ two_word_effect number (words bytes.now) }
    ensures high { IfSome result (λ found. found.0.high < 2 ^ 24) }
    ensures whole { IfSome result (λ found. length found.1.now % 2 ≡ length bytes.now % 2) }
    ensures shorter { IfSome result (λ found. length found.1.now < length bytes.now) }
{
    if bytes.len() < WORD_LEN {
        return None;
    }
    let (second, rest) = split_word(bytes);
    if second >= NUMBER_END {
        return None;
    }
    let high = number + u32::from(NUMBER_END) * u32::from(second);
    Some((
        Step {
            high,
            zeros: 0,
            highs: 0,
        },
        rest,
    ))
}

/// The step of an instruction of one word.
fn one_word_step(operation: Operation, number: u32, high: u32) -> Option<Step>
    requires number { number < 4096 }
    requires high { high < 2 ^ 24 }
    ensures step { option_map effect_of result ≡ one_word_effect high (code_of operation) number }
    ensures high { IfSome result (λ step. step.high < 2 ^ 24) }
{
    match operation {
        Operation::Zeros => Some(Step {
            high,
            zeros: number,
            highs: 0,
        }),
        Operation::SetHigh => None,
        Operation::Raise => raised(high, number, 0),
        Operation::Lower => lowered(high, number, 0),
        Operation::Highs => Some(Step {
            high,
            zeros: 0,
            highs: number,
        }),
        Operation::ZerosThenHigh if number == 0 => None,
        Operation::ZerosThenHigh => Some(Step {
            high,
            zeros: number - 1,
            highs: 1,
        }),
        Operation::RaiseThenHigh => raised(high, number, 1),
        Operation::LowerThenHigh => lowered(high, number, 1),
    }
}

/// The high value grows, and is then written so often.
fn raised(high: u32, number: u32, highs: u32) -> Option<Step>
    requires number { number < 4096 }
    requires high { high < 2 ^ 24 }
    ensures step { option_map effect_of result ≡ raised high number highs }
    ensures high { IfSome result (λ step. step.high < 2 ^ 24) }
{
    let high = high + number;
    (high < HIGH_END).then_some(Step {
        high,
        zeros: 0,
        highs,
    })
}

/// The high value falls, and is then written so often.
fn lowered(high: u32, number: u32, highs: u32) -> Option<Step>
    requires { high < 2 ^ 24 }
    ensures step { option_map effect_of result ≡ lowered high number highs }
    ensures high { IfSome result (λ step. step.high < 2 ^ 24) }
{
    let high = high.checked_sub(number)?;
    Some(Step {
        high,
        zeros: 0,
        highs,
    })
}

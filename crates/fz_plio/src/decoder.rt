//! Line lists read.

ghost use Rattle.std.specs.Prelude.{◌≡◌, ℕ, ◌+◌, ◌%◌, ◌^◌, ◌<◌, ◌≤◌, ◌↔◌, ◌++◌, take, length};
ghost use Rattle.std.specs.Prelude.{replicate, IfOk, OnOk, OnErr, IsErr, Some, None, MatchResult};
ghost use Rattle.fz_plio.specs.Words.{words};
ghost use Rattle.fz_plio.specs.Instructions.{instructions};
ghost use Rattle.fz_plio.specs.Meaning.{IsRefused, IsLineList, instructions_of, written};
ghost use Rattle.fz_plio.specs.Reading.{line_from, HasHeader};
ghost use Rattle.fz_plio.specs.Step.{effect_of};

use crate::step::{Step, next_step};
use crate::word::{HEADER_LEN, HEADER_WORDS, PART_END, WORD_LEN, word_at};

/// A list that is refused: it gives no numbers.
#[derive(Clone, Copy, Debug, PartialEq, Eq)]
pub struct LineFault;

/// Reads the numbers of a line from its list (FITS 4.0, section 10.4.3).
///
/// `LineFault` comes if a byte is left over, if the header is faulty, and if an instruction
/// is unknown or cut off, writes past the line or takes the high value out of 0 to 2^24 - 1. The
/// numbers are then some values.
pub fn decode(code: &[u8], numbers: &mut [i32]) -> Result<(), LineFault>
    ensures fault { IsErr result ↔ IsRefused (length numbers.old) code.now }
    ensures numbers { OnOk result (IsLineList (length numbers.old) code.now numbers.new) }
{
    let bytes = instruction_bytes(code)?;
    read_line(bytes, numbers)
}

/// The bytes of the instructions of a list, whose header is looked at first.
fn instruction_bytes(code: &[u8]) -> Result<&[u8], LineFault>
    ensures fault { OnErr result ((n : ℕ) → IsRefused n code.now) }
    ensures header { OnOk result (HasHeader code.now) }
    ensures whole { IfOk result (λ bytes. length bytes.now % 2 ≡ 0) }
    ensures instructions { IfOk result
        (λ bytes. instructions (words bytes.now) ≡ instructions_of code.now) }
{
    if code.len() % WORD_LEN != 0 || code.len() < HEADER_LEN {
        return Err(LineFault);
    }
    if usize::from(word_at(code, 1)) != HEADER_WORDS {
        return Err(LineFault);
    }
    let version = word_at(code, 2);
    if version > 0 && version < PART_END {
        return Err(LineFault);
    }
    let low = word_at(code, 3);
    let high = word_at(code, 4);
    if low >= PART_END || high >= PART_END {
        return Err(LineFault);
    }
    let len = usize::from(low) + PART_END as usize * usize::from(high);
    if len < HEADER_WORDS || len > code.len() / WORD_LEN {
        return Err(LineFault);
    }
    Ok(&code[HEADER_LEN..len * WORD_LEN])
}

/// Follows the instructions, and fills the line with zeros.
fn read_line(bytes: &[u8], numbers: &mut [i32]) -> Result<(), LineFault>
    requires { length bytes.now % 2 ≡ 0 }
    ensures { let line = line_from (length numbers.old) 1 (instructions (words bytes.now)) in
        MatchResult result (λ _. line ≡ Some numbers.new) (λ _. line ≡ None) }
{
    let mut rest = bytes;
    let mut high = 1;
    let mut at = 0;
    while rest.len() >= WORD_LEN {
        let Some((step, behind)) = next_step(rest, high) else {
            return Err(LineFault);
        };
        at = write_step(numbers, at, step)?;
        high = step.high;
        rest = behind;
    }
    write_run(numbers, at, numbers.len() - at, 0);
    Ok(())
}

/// Writes what a step writes from a place on, and answers the place after it.
fn write_step(numbers: &mut [i32], at: usize, step: Step) -> Result<usize, LineFault>
    requires at { at ≤ length numbers.old }
    requires high { step.high < 2 ^ 24 }
    ensures fault { IsErr result ↔ (length numbers.old < at + (step.zeros + step.highs)) }
    ensures end { IfOk result (λ end. end ≡ at + (step.zeros + step.highs)) }
    ensures within { IfOk result (λ end. end ≤ length numbers.old) }
    ensures written { IfOk result
        (λ end. take end numbers.new ≡ take at numbers.old ++ written (effect_of step)) }
{
    let zeros = step.zeros as usize;
    let highs = step.highs as usize;
    if zeros + highs > numbers.len() - at {
        return Err(LineFault);
    }
    write_run(numbers, at, zeros, 0);
    write_run(numbers, at + zeros, highs, step.high as i32);
    Ok(at + zeros + highs)
}

/// Writes a number so many times from a place on.
#[inline]
fn write_run(numbers: &mut [i32], at: usize, count: usize, number: i32)
    requires { at + count ≤ length numbers.old }
    ensures { take (at + count) numbers.new ≡ take at numbers.old ++ replicate count number }
{
    numbers[at..at + count].fill(number);
}

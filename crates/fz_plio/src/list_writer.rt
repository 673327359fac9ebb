//! Words and instructions put one after the other into the bytes of a list.

ghost use Rattle.std.specs.Prelude.{◌≡◌, ◌+◌, ◌*◌, ◌^◌, ◌<◌, ◌≤◌, ◌%◌, ◌/◌, ◌∷◌, [], length};
ghost use Rattle.fz_plio.specs.Operation.{code_of};
ghost use Rattle.fz_plio.specs.Producer.{in_pieces, high_change, zeros_and_highs, run_instructions};

use crate::operation::Operation;
use crate::run::Run;
use crate::step::NUMBER_END;
use crate::word::WORD_LEN;
use byteorder::{BigEndian, ByteOrder};

/// The greatest number N of an instruction.
const NUMBER_MAX: usize = 4095;

/// The list does not fit.
#[derive(Clone, Copy, Debug, PartialEq, Eq)]
pub struct Full;

/// The bytes of a list, and the place of its next word.
#[derive(Drop)]
pub struct ListWriter<'a> {
    pub out: &'a mut [u8],
    pub at: usize,
    ghost within: { at ≤ length out.now },
}

impl ListWriter<'_> {
    ghost use Rattle.fz_plio.specs.Writing.{Puts, words_of, run_of};

    /// Puts the words.
    pub fn put_words(&mut self, words: &[u16]) -> Result<(), Full>
        ensures same { self.new.out.ghost_name ≡ self.old.out.ghost_name }
        ensures puts { Puts self.old.out.now self.new.out.now self.old.at self.new.at words.now result }
    {
        for &word in words {
            self.put_word(word)?;
        }
        Ok(())
    }

    /// Puts the instructions of a run, if the high value is this one.
    pub fn put_run(&mut self, high: u32, run: Run) -> Result<(), Full>
        requires high { high < 2 ^ 24 }
        requires value { run.value < 2 ^ 24 }
        ensures same { self.new.out.ghost_name ≡ self.old.out.ghost_name }
        ensures puts { Puts self.old.out.now self.new.out.now self.old.at self.new.at
            (words_of (run_instructions high (run_of run))) result }
    {
        if run.is_single_step(high) {
            return if high < run.value {
                self.put(Operation::RaiseThenHigh, (run.value - high) as usize)
            } else {
                self.put(Operation::LowerThenHigh, (high - run.value) as usize)
            };
        }
        self.put_high_change(high, run.value)?;
        self.put_zeros_and_highs(run.zeros, run.count)
    }

    /// Puts what makes the high value `value`.
    #[tactic(auto, unfolding(crate::specs::Producer::high_change))]
    fn put_high_change(&mut self, high: u32, value: u32) -> Result<(), Full>
        requires high { high < 2 ^ 24 }
        requires value { value < 2 ^ 24 }
        ensures same { self.new.out.ghost_name ≡ self.old.out.ghost_name }
        ensures puts { Puts self.old.out.now self.new.out.now self.old.at self.new.at
            (words_of (high_change high value)) result }
    {
        if high == value {
            Ok(())
        } else if high.abs_diff(value) as usize > NUMBER_MAX {
            self.put_set_high(value)
        } else if high < value {
            self.put(Operation::Raise, (value - high) as usize)
        } else {
            self.put(Operation::Lower, (high - value) as usize)
        }
    }

    /// Puts the two words of operation 1.
    fn put_set_high(&mut self, value: u32) -> Result<(), Full>
        requires { value < 2 ^ 24 }
        ensures same { self.new.out.ghost_name ≡ self.old.out.ghost_name }
        ensures puts { Puts self.old.out.now self.new.out.now self.old.at self.new.at
            ((4096 + value % 4096) ∷ (value / 4096) ∷ []) result }
    {
        const RANGE: u32 = NUMBER_END as u32;
        self.put(Operation::SetHigh, (value % RANGE) as usize)?;
        self.put_word((value / RANGE) as u16)
    }

    /// Puts zeros and the numbers of the run after them. A single number goes with the last piece
    /// of zeros, if there is room for it.
    fn put_zeros_and_highs(&mut self, zeros: usize, count: usize) -> Result<(), Full>
        ensures same { self.new.out.ghost_name ≡ self.old.out.ghost_name }
        ensures puts { Puts self.old.out.now self.new.out.now self.old.at self.new.at
            (words_of (zeros_and_highs zeros count)) result }
    {
        let last = zeros % NUMBER_MAX;
        if count == 1 && last > 0 {
            self.put_pieces(Operation::Zeros, zeros - last)?;
            return self.put(Operation::ZerosThenHigh, last + 1);
        }
        self.put_pieces(Operation::Zeros, zeros)?;
        self.put_pieces(Operation::Highs, count)
    }

    /// Puts an operation so many times: in pieces of 4095, and what is left.
    pub fn put_pieces(&mut self, operation: Operation, count: usize) -> Result<(), Full>
        ensures same { self.new.out.ghost_name ≡ self.old.out.ghost_name }
        ensures puts { Puts self.old.out.now self.new.out.now self.old.at self.new.at
            (words_of (in_pieces (code_of operation) count)) result }
    {
        let mut left = count;
        while left > NUMBER_MAX {
            self.put(operation, NUMBER_MAX)?;
            left -= NUMBER_MAX;
        }
        if left > 0 {
            self.put(operation, left)
        } else {
            Ok(())
        }
    }

    /// Puts an instruction of one word.
    #[inline]
    fn put(&mut self, operation: Operation, number: usize) -> Result<(), Full>
        requires { number < 4096 }
        ensures same { self.new.out.ghost_name ≡ self.old.out.ghost_name }
        ensures puts { Puts self.old.out.now self.new.out.now self.old.at self.new.at
            ((4096 * code_of operation + number) ∷ []) result }
    {
        self.put_word(NUMBER_END * operation as u16 + number as u16)
    }

    /// Puts a word.
    #[inline]
    fn put_word(&mut self, word: u16) -> Result<(), Full>
        ensures same { self.new.out.ghost_name ≡ self.old.out.ghost_name }
        ensures puts { Puts self.old.out.now self.new.out.now self.old.at self.new.at (word ∷ []) result }
    {
        if self.out.len() - self.at < WORD_LEN {
            return Err(Full);
        }
        BigEndian::write_u16(&mut self.out[self.at..self.at + WORD_LEN], word);
        self.at += WORD_LEN;
        Ok(())
    }
}

//! Reading a code on from the middle.
#![tactic(auto)]

ghost use Rattle.std.specs.Prelude.{◌≡◌, ℕ, ◌+◌, ◌*◌, ◌/◌, ◌^◌, ◌<◌, ◌≤◌, List, [], Err, length, drop, IfOk, IfErr};
ghost use Rattle.fz_bits.specs.Bits.{bits_of};
ghost use Rattle.fz_bits.specs.Reader.{left, place};
ghost use Rattle.fz_rice.specs.Numbers.{IsWidth};
ghost use Rattle.fz_rice.specs.Reading.{number_at, bit_count};
ghost use Rattle.fz_rice.specs.Marks.{IsMark, ReadsOn, StopsAfter};

use crate::coder::{CodeFault, Coder};
use crate::decode::{read_blocks, read_number};
use fz_bits::{BitReader, bytes_law, number_law};

/// Where a code is read on.
#[derive(Clone, Copy, Debug, PartialEq, Eq)]
pub struct Mark {
    /// The number of bits before it.
    pub bit: u64,
    /// The residue of the number before it, or the start value.
    pub last: u32,
}

impl<const W: u32> Coder<W> {
    /// The mark before the first block.
    pub fn first_mark(code: &[u8]) -> Result<Mark, CodeFault>
        requires width { IsWidth W }
        requires code { length code.now ≤ 2 ^ 60 }
        ensures mark { IfOk result (λ mark. (block : ℕ) → IsMark W block [] (bits_of code.now) mark) }
        ensures fault { IfErr result (λ e. number_at W (bits_of code.now) ≡ Err e) }
    {
        number_law();
        let mut reader = BitReader::new(code);
        let last = read_number(&mut reader, W)?;
        Ok(Mark {
            bit: reader.place(),
            last,
        })
    }

    /// Reads as many numbers as there are places from the mark on, and answers the mark after them.
    /// After a fault `numbers` holds some values.
    pub fn decode_on(
        code: &[u8],
        mark: Mark,
        block: u32,
        numbers: &mut [i32],
    ) -> Result<Mark, CodeFault>
        requires width { IsWidth W }
        requires code { length code.now ≤ 2 ^ 60 }
        requires block { (1 ≤ block) × (block ≤ 32767) }
        requires within { mark.bit ≤ 8 * length code.now }
        requires last { mark.last < 2 ^ W }
        ensures numbers { IfOk result
            (λ next. ReadsOn W block (bits_of code.now) mark numbers.new next) }
        ensures fault { IfErr result
            (λ e. StopsAfter W block (bits_of code.now) mark (length numbers.old) e) }
    {
        number_law();
        bytes_law();
        let mut reader = reader_from(code, mark.bit);
        let last = read_blocks::<W>(&mut reader, mark.last, block, numbers)?;
        Ok(Mark {
            bit: mark.bit / 8 * 8 + reader.place(),
            last,
        })
    }
}

/// A reader of the bits from `bit` on. It has passed over those before it in its byte.
fn reader_from<'a>(code: &'a [u8], bit: u64) -> BitReader<'a>
    requires code { length code.now ≤ 2 ^ 60 }
    requires within { bit ≤ 8 * length code.now }
    ensures left { left result ≡ drop bit (bits_of code.now) }
    ensures count { bit / 8 * 8 + bit_count result ≡ 8 * length code.now }
{
    number_law();
    bytes_law();
    let mut reader = BitReader::new(&code[(bit / 8) as usize..]);
    let Ok(_) = reader.get((bit % 8) as u32) else {
        unreachable!()
    };
    reader
}

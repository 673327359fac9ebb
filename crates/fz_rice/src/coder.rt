//! The two calls.
#![tactic(auto)]

ghost use Rattle.std.specs.Prelude.{◌≡◌, ℕ, ◌+◌, ◌-◌, ◌*◌, ◌/◌, ◌%◌, ◌^◌, ◌<◌, ◌≤◌, ◌↔◌, ℤ};
ghost use Rattle.std.specs.Prelude.{List, ◌++◌, length, take, All, IsOk, IsErr, IsErrOf, IfOk};
ghost use Rattle.fz_bits.specs.Bits.{bits_of};
ghost use Rattle.fz_rice.specs.Numbers.{IsWidth, IsNumber};
ghost use Rattle.fz_rice.specs.Producer.{rice_bytes};
ghost use Rattle.fz_rice.specs.Prefix.{BeginsWith, BeginsWithCode, IsBeginning};

use crate::decode::{read_blocks, read_number};
use crate::encode::{write_blocks, write_number};
use crate::numbers::residue;
use fz_bits::{BitReader, BitWriter, Full, bytes_law, number_law};

/// Why a code gives no numbers.
#[derive(Clone, Copy, Debug, PartialEq, Eq)]
pub enum CodeFault {
    /// The bits end before the code does.
    Ended,
    /// No code begins so.
    Unlawful,
}

/// The code at `W` bits, which is 8, 16 or 32.
pub struct Coder<const W: u32>;

impl<const W: u32> Coder<W> {
    /// Writes the code of the numbers into `out`, and answers its bytes. After `Full` `out` holds
    /// some bytes.
    pub fn encode(numbers: &[i32], block: u32, out: &mut [u8]) -> Result<usize, Full>
        requires width { IsWidth W }
        requires some { 0 < length numbers.now }
        requires numbers { All (IsNumber W) numbers.now }
        requires block { (1 ≤ block) × (block ≤ 32767) }
        ensures within { IfOk result (λ len. len ≤ length out.new) }
        ensures code { IfOk result (λ len. take len out.new ≡ rice_bytes W block numbers.now) }
        ensures full { IsErr result ↔ (length out.old < length (rice_bytes W block numbers.now)) }
    {
        bytes_law();
        let start = residue::<W>(numbers[0]);
        let mut writer = BitWriter::new(out);
        write_number(&mut writer, start, W)?;
        write_blocks::<W>(&mut writer, start, block, numbers)?;
        Ok(writer.finish())
    }

    /// Reads as many numbers as there are places, and answers the bytes that their code takes. After
    /// a fault `numbers` holds some values.
    pub fn decode(code: &[u8], block: u32, numbers: &mut [i32]) -> Result<usize, CodeFault>
        requires width { IsWidth W }
        requires code { length code.now ≤ 2 ^ 60 }
        requires block { (1 ≤ block) × (block ≤ 32767) }
        ensures numbers { IfOk result
            (λ len. BeginsWith W block numbers.new len (bits_of code.now)) }
        ensures ok { IsOk result ↔ BeginsWithCode W block (length numbers.old) (bits_of code.now) }
        ensures ended { IsErrOf result CodeFault.Ended
            ↔ IsBeginning W block (length numbers.old) (bits_of code.now) }
        ensures unlawful { IsErrOf result CodeFault.Unlawful
            ↔ (¬ BeginsWithCode W block (length numbers.old) (bits_of code.now)
            × ¬ IsBeginning W block (length numbers.old) (bits_of code.now)) }
    {
        number_law();
        let mut reader = BitReader::new(code);
        let start = read_number(&mut reader, W)?;
        read_blocks::<W>(&mut reader, start, block, numbers)?;
        Ok(reader.place().div_ceil(8) as usize)
    }
}

//! A number of 64 bits, taken apart at a bit and joined.
#![tactic(auto)]

ghost use Rattle.fz_bits.specs.Bits.{number_bits};
ghost use Rattle.std.specs.Int.{w64, to_be_bytes};
ghost use Rattle.std.specs.Prelude.{◌≡◌, ℕ, ◌+◌, ◌-◌, ◌*◌, ◌/◌, ◌%◌, ◌^◌, ◌<◌, ◌≤◌, false, ◌++◌, take, drop, replicate};

use std::simd::u64x1;

/// `high` with `width` bits of `low` after it.
#[inline]
pub fn joined(high: u64, low: u64, width: u32) -> u64
    requires width { width < 64 }
    requires high { high < 2 ^ (64 - width) }
    requires low { low < 2 ^ width }
    ensures { result ≡ high * 2 ^ width + low }
{
    (high << width) | low
}

/// The last `rest` bits.
#[inline]
pub fn back(bits: u64, rest: u32) -> u64
    requires { rest < 64 }
    ensures { result ≡ bits % 2 ^ rest }
{
    bits & ((1 << rest) - 1)
}

/// The number of the first `width` bits of 64.
#[inline]
pub fn first(bits: u64, width: u32) -> u32
    requires { width ≤ 32 }
    ensures bits { number_bits width result ≡ take width (number_bits 64 bits) }
    ensures fits { result < 2 ^ width }
{
    (bits >> 1 >> (63 - width)) as u32
}

/// The bits after the first `width` of 64, and zeros after them.
#[inline]
pub fn behind(bits: u64, width: u32) -> u64
    requires { width < 64 }
    ensures { number_bits 64 result ≡ drop width (number_bits 64 bits) ++ replicate width false }
{
    bits << width
}

/// The eight bytes of a number, the most significant first: by the turn of a vector, which is one instruction, where
/// `to_be_bytes` divides.
#[inline]
pub fn high_first(number: u64) -> [u8; 8]
    ensures { result ≡ to_be_bytes w64 number }
{
    u64x1::from_array([number])
        .to_le_bytes()
        .reverse()
        .to_array()
}

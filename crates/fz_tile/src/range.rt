//! The range of pixels (FITS 4.0, section 5.2).
ghost use Rattle.std.specs.Prelude.{◌≡◌, ◌↔◌, ◌*◌, All, IsTrue, MatchResult, unsigned_abs};
ghost use Rattle.fz_bits.specs.Numbers.{IsNumber};
ghost use Rattle.fz_rice.specs.Numbers.{IsWidth};
ghost use Rattle.fz_tile.specs.Pixels.{IsBitpix};
ghost use Rattle.fz_tile.specs.Refusals.{SomeOutside};

use crate::TileFault;

/// Refuses numbers that are not all in the range of BITPIX.
pub fn check_range(bitpix: i32, numbers: &[i32]) -> Result<(), TileFault>
    requires size { IsBitpix bitpix }
    requires words { All (IsNumber 32) numbers.now }
    ensures { MatchResult result (λ _. All (IsNumber (unsigned_abs bitpix)) numbers.now)
        (λ fault. (fault ≡ TileFault.PixelRange) × SomeOutside (unsigned_abs bitpix) numbers.now) }
{
    let lawful = match bitpix {
        8 => are_bytes(numbers),
        16 => are_short(numbers),
        _ => true,
    };
    if lawful {
        Ok(())
    } else {
        Err(TileFault::PixelRange)
    }
}

/// The same for numbers of a code of so many bits, which are in the range of these: if BITPIX has as many, none is
/// outside.
pub fn check_width(width: u32, bitpix: i32, numbers: &[i32]) -> Result<(), TileFault>
    requires size { IsBitpix bitpix }
    requires width { IsWidth width }
    requires numbers { All (IsNumber width) numbers.now }
    ensures { MatchResult result (λ _. All (IsNumber (unsigned_abs bitpix)) numbers.now)
        (λ fault. (fault ≡ TileFault.PixelRange) × SomeOutside (unsigned_abs bitpix) numbers.now) }
{
    if width == bitpix.unsigned_abs() {
        return Ok(());
    }
    check_range(bitpix, numbers)
}

// The loops below have no early end, so that they are compiled to vector instructions.

/// All numbers are in the range of 8 bits.
fn are_bytes(numbers: &[i32]) -> bool
    ensures { IsTrue result ↔ All (IsNumber 8) numbers.now }
{
    let mut fine = true;
    for &number in numbers {
        fine = fine & is_byte(number);
    }
    fine
}

/// All numbers are in the range of 16 bits.
fn are_short(numbers: &[i32]) -> bool
    ensures { IsTrue result ↔ All (IsNumber 16) numbers.now }
{
    let mut fine = true;
    for &number in numbers {
        fine = fine & is_short(number);
    }
    fine
}

/// The number is in the range of 8 bits.
#[inline]
fn is_byte(number: i32) -> bool
    ensures { IsTrue result ↔ IsNumber 8 number }
{
    number >= 0 && number <= 255
}

/// The number is in the range of 16 bits.
#[inline]
fn is_short(number: i32) -> bool
    ensures { IsTrue result ↔ IsNumber 16 number }
{
    number >= -32_768 && number <= 32_767
}

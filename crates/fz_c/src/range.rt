//! Numbers in the range of their code, and places that hold pixels (FITS 4.0, section 5.2).
ghost use Rattle.std.specs.Prelude.{◌↔◌, All, IsTrue, length, unsigned_abs};
ghost use Rattle.fz_bits.specs.Numbers.{IsNumber};
ghost use Rattle.fz_rice.specs.Numbers.{IsWidth};
ghost use Rattle.fz_tile.specs.Pixels.{IsBitpix, HoldWhole};
ghost use Rattle.fz_c.specs.Asked.{HoldSome};

/// The places hold pixels, each in the range of BITPIX.
pub fn hold_pixels(bitpix: i32, numbers: &[i32]) -> bool
    requires size { IsBitpix bitpix }
    requires whole { HoldWhole (unsigned_abs bitpix) (length numbers.now) }
    ensures { IsTrue result ↔ HoldSome (unsigned_abs bitpix) numbers.now }
{
    match bitpix {
        8 => are_numbers::<8>(numbers),
        16 => are_numbers::<16>(numbers),
        _ => are_numbers::<32>(numbers),
    }
}

/// All numbers are in the range of `W` bits. No early answer: so several are compared at once.
pub fn are_numbers<const W: u32>(numbers: &[i32]) -> bool
    requires { IsWidth W }
    ensures { IsTrue result ↔ All (IsNumber W) numbers.now }
{
    let mut fine = true;
    for &number in numbers {
        fine = fine & is_number::<W>(number);
    }
    fine
}

/// The number is in the range of `W` bits.
#[inline]
fn is_number<const W: u32>(number: i32) -> bool
    requires { IsWidth W }
    ensures { IsTrue result ↔ IsNumber W number }
{
    if W == 8 {
        number >= 0 && number <= 255
    } else if W == 16 {
        number >= -32_768 && number <= 32_767
    } else {
        number >= -2_147_483_648 && number <= 2_147_483_647
    }
}

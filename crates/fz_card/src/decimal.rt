//! Decimals, as numbers and how many of their digits are after the point.
ghost use Rattle.std.specs.Prelude.{◌≡◌, ◌^◌, ◌<◌, ◌≤◌, ◌*ℤ◌, pos, unsigned_abs};
ghost use Rattle.fz_card.specs.Decimals.{scaled as scaled_to, less as less_by, IsSmall};

/// The number `number / 10^places`.
#[derive(Clone, Copy, Debug, PartialEq, Eq)]
pub struct Decimal {
    pub number: i128,
    pub places: u32,
}

/// The decimal of an integer of which so many digits are after the point, and its exponent.
pub(crate) fn scaled(integer: i64, behind: u32, exponent: i32) -> Decimal
    requires few { behind ≤ 19 }
    requires small { IsSmall exponent }
    ensures value { result ≡ scaled_to integer behind exponent }
    ensures few { result.places ≤ 28 }
    ensures low { unsigned_abs result.number ≤ 10 ^ 28 }
{
    let size = exponent.unsigned_abs();
    if exponent < 0 {
        return Decimal {
            number: i128::from(integer),
            places: behind + size,
        };
    }
    Decimal {
        number: multiplied(integer, size.saturating_sub(behind)),
        places: behind.saturating_sub(size),
    }
}

/// The integer times a power of ten.
fn multiplied(integer: i64, exponent: u32) -> i128
    requires { exponent ≤ 9 }
    ensures value { result ≡ integer *ℤ pos (10 ^ exponent) }
    ensures low { unsigned_abs result ≤ 10 ^ 28 }
{
    i128::from(integer) * power(exponent)
}

/// The decimal less a whole number.
pub(crate) fn less(decimal: Decimal, by: u32) -> Decimal
    requires few { decimal.places ≤ 28 }
    requires low { unsigned_abs decimal.number ≤ 10 ^ 28 }
    ensures value { result ≡ less_by decimal by }
    ensures few { result.places ≤ 28 }
    ensures low { unsigned_abs result.number < 10 ^ 38 }
{
    Decimal {
        number: decimal.number - i128::from(by) * power(decimal.places),
        places: decimal.places,
    }
}

/// A power of ten as a signed number.
fn power(exponent: u32) -> i128
    requires { exponent ≤ 28 }
    ensures value { result ≡ pos (10 ^ exponent) }
    ensures small { 10 ^ exponent ≤ 10 ^ 28 }
{
    power_of_ten(exponent) as i128
}

/// A power of ten.
pub(crate) fn power_of_ten(exponent: u32) -> u128
    requires { exponent ≤ 28 }
    ensures value { result ≡ 10 ^ exponent }
    ensures small { 10 ^ exponent ≤ 10 ^ 28 }
{
    10u128.pow(exponent)
}

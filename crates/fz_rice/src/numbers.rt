//! Numbers as residues, their mapped differences, and the parameters of a width.
#![tactic(auto)]

ghost use Rattle.std.specs.Prelude.{◌≡◌, ℕ, ◌+◌, ◌-◌, ◌*◌, ◌/◌, ◌%◌, ◌^◌, ◌<◌, ◌≤◌};
ghost use Rattle.fz_rice.specs.Numbers.{IsWidth, residue};
ghost use Rattle.fz_rice.specs.Code.{row, difference, mapped};
ghost use Rattle.fz_rice.specs.Reading.{number, next_residue};

/// The bits of an id.
#[inline]
pub fn id_len<const W: u32>() -> u32
    requires { IsWidth W }
    ensures { result ≡ (row W).id_len }
{
    if W == 8 {
        3
    } else if W == 16 {
        4
    } else {
        5
    }
}

/// The id of a raw block, which is the greatest lawful one.
#[inline]
pub fn raw_id<const W: u32>() -> u32
    requires { IsWidth W }
    ensures { result ≡ (row W).raw_id }
{
    if W == 8 {
        7
    } else if W == 16 {
        15
    } else {
        26
    }
}

/// The greatest value of `W` bits.
#[inline]
pub fn greatest<const W: u32>() -> u32
    requires { IsWidth W }
    ensures { result + 1 ≡ 2 ^ W }
{
    u32::MAX >> (32 - W)
}

/// A number modulo `2 ^ W`.
#[inline]
pub fn residue<const W: u32>(number: i32) -> u32
    requires { IsWidth W }
    ensures { result ≡ residue W number }
{
    number.cast_unsigned() & greatest::<W>()
}

/// The number of a residue: unsigned at 8 bits, otherwise two's complement.
#[inline]
pub fn number<const W: u32>(residue: u32) -> i32
    requires width { IsWidth W }
    requires fits { residue < 2 ^ W }
    ensures { result ≡ number W residue }
{
    if W == 8 {
        residue.cast_signed()
    } else {
        (residue << (32 - W)).cast_signed() >> (32 - W)
    }
}

/// The mapped difference from one residue to the next.
#[inline]
pub fn mapped<const W: u32>(last: u32, next: u32) -> u32
    requires width { IsWidth W }
    requires last { last < 2 ^ W }
    requires next { next < 2 ^ W }
    ensures { result ≡ mapped W (difference W last next) }
{
    let top = (next.wrapping_sub(last) << (32 - W)).cast_signed();
    let twice = if W == 32 { top << 1 } else { top >> (31 - W) };
    if top < 0 {
        (!twice).cast_unsigned()
    } else {
        twice.cast_unsigned()
    }
}

/// The residue after `last` whose mapped difference is `value`.
#[inline]
pub fn next_residue<const W: u32>(last: u32, value: u32) -> u32
    requires width { IsWidth W }
    requires last { last < 2 ^ W }
    requires value { value < 2 ^ W }
    ensures { result ≡ next_residue W last value }
{
    let half = value >> 1;
    let difference = if value & 1 == 0 {
        half
    } else {
        greatest::<W>() - half
    };
    last.wrapping_add(difference) & greatest::<W>()
}

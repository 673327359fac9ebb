//! Bits of values, joined before they are written.
#![tactic(auto)]

ghost use Rattle.std.specs.Prelude.{◌≡◌, ℕ, ◌+◌, ◌*◌, ◌/◌, ◌^◌, ◌<◌, ◌++◌, IfSome};
ghost use Rattle.fz_bits.specs.Bits.{number_bits};
ghost use Rattle.fz_rice.specs.Code.{split_bits};

use fz_bits::{BitWriter, Full, number_law};

/// The `width` bits of a number.
#[derive(Clone, Copy)]
pub struct Field {
    pub bits: u64,
    pub width: u32,
    ghost few: { width < 64 },
    ghost fits: { bits < 2 ^ width },
}

impl Field {
    ghost use Rattle.fz_bits.specs.Bits.{number_bits};
    ghost use Rattle.fz_rice.specs.Code.{split_bits};
    ghost use Rattle.fz_rice.specs.Writing.{Writes};

    /// `value >> k` zeros, a one, and the last `k` bits of a value.
    #[inline]
    pub fn of_value(k: u32, value: u32) -> Field
        requires k { k < 32 }
        requires few { value / 2 ^ k + 1 + k < 64 }
        ensures bits { number_bits result.width result.bits ≡ split_bits k value }
        ensures width { result.width ≡ value / 2 ^ k + 1 + k }
    {
        number_law();
        let low = u64::from(value) & ((1 << k) - 1);
        Field {
            bits: (1 << k) | low,
            width: (value >> k) + 1 + k,
        }
    }

    /// The bits, and those of `next` after them.
    #[inline]
    pub fn joined(self, next: Field) -> Field
        requires { self.width + next.width < 64 }
        ensures bits { number_bits result.width result.bits
            ≡ number_bits self.width self.bits ++ number_bits next.width next.bits }
        ensures width { result.width ≡ self.width + next.width }
    {
        number_law();
        Field {
            bits: (self.bits << next.width) | next.bits,
            width: self.width + next.width,
        }
    }

    /// The bits of four values, `None` if they are more than 63.
    #[inline]
    pub fn of_four(k: u32, front: (u32, u32), back: (u32, u32)) -> Option<Field>
        requires { k < 32 }
        ensures { IfSome result (λ field. number_bits field.width field.bits
            ≡ split_bits k front.0 ++ (split_bits k front.1 ++ (split_bits k back.0 ++ split_bits k back.1))) }
    {
        let zeros = u64::from(front.0 >> k)
            + u64::from(front.1 >> k)
            + u64::from(back.0 >> k)
            + u64::from(back.1 >> k);
        if zeros + 4 * (u64::from(k) + 1) >= 64 {
            return None;
        }
        let front = Field::of_value(k, front.0).joined(Field::of_value(k, front.1));
        let back = Field::of_value(k, back.0).joined(Field::of_value(k, back.1));
        Some(front.joined(back))
    }

    /// The bits of four fields, one after another, `None` if they are more than 63.
    #[inline]
    pub fn of_fields(bits: (u32, u32, u32, u32), widths: (u32, u32, u32, u32)) -> Option<Field>
        requires few { widths.0 + widths.1 + widths.2 + widths.3 < 2 ^ 32 }
        requires first { bits.0 < 2 ^ widths.0 }
        requires second { bits.1 < 2 ^ widths.1 }
        requires third { bits.2 < 2 ^ widths.2 }
        requires fourth { bits.3 < 2 ^ widths.3 }
        ensures bits { IfSome result (λ field. number_bits field.width field.bits
            ≡ number_bits widths.0 bits.0 ++ (number_bits widths.1 bits.1
            ++ (number_bits widths.2 bits.2 ++ number_bits widths.3 bits.3))) }
        ensures few { IfSome result (λ _. widths.0 + widths.1 + widths.2 + widths.3 < 64) }
    {
        if widths.0 + widths.1 + widths.2 + widths.3 >= 64 {
            return None;
        }
        let front = Field::of_bits(bits.0, widths.0).joined(Field::of_bits(bits.1, widths.1));
        let back = Field::of_bits(bits.2, widths.2).joined(Field::of_bits(bits.3, widths.3));
        Some(front.joined(back))
    }

    /// Writes the bits.
    #[inline]
    pub fn write(self, writer: &mut BitWriter) -> Result<(), Full>
        ensures { Writes result (number_bits self.width self.bits) writer.old writer.new }
    {
        number_law();
        writer.put_long(self.bits, self.width)
    }

    /// The `width` bits of a number.
    #[inline]
    fn of_bits(bits: u32, width: u32) -> Field
        requires few { width < 64 }
        requires fits { bits < 2 ^ width }
        ensures bits { result.bits ≡ bits }
        ensures width { result.width ≡ width }
    {
        Field {
            bits: u64::from(bits),
            width,
        }
    }
}

//! Writing a block of 32 numbers, the length that the usual tools write.
#![tactic(auto)]

ghost use Rattle.std.specs.Prelude.{◌≡◌, ℕ, ◌+◌, ◌-◌, ◌*◌, ◌/◌, ◌%◌, ◌^◌, ◌<◌, ◌≤◌, List, length, sum, slice_index, replicate, IsTrue};
ghost use Rattle.std.specs.List.{flat_map};
ghost use Rattle.fz_bits.specs.Bits.{number_bits};
ghost use Rattle.fz_rice.specs.Numbers.{IsWidth};
ghost use Rattle.fz_rice.specs.Code.{differences, split_bits};
ghost use Rattle.fz_rice.specs.Producer.{chosen_id, chosen_block};
ghost use Rattle.fz_rice.specs.Writing.{Writes, IsField};

use crate::encode::{chosen_id, write_number, write_raw, write_value};
use crate::fields::Field;
use crate::numbers::{id_len, mapped, number, raw_id, residue};
use fz_bits::{BitWriter, Full, number_law, room_law};

/// Writes a block of 32 numbers.
pub fn write_full_block<const W: u32>(
    writer: &mut BitWriter,
    last: u32,
    numbers: &[i32],
) -> Result<(), Full>
    requires width { IsWidth W }
    requires last { last < 2 ^ W }
    requires len { length numbers.now ≡ 32 }
    ensures { Writes result (chosen_block W (differences W last numbers.now)) writer.old writer.new }
{
    if repeats::<W>(last, numbers) {
        return write_number(writer, 0, id_len::<W>());
    }
    write_values_of::<W>(writer, last, numbers)
}

/// Writes a block of 32 numbers after the id that their differences ask for.
fn write_values_of<const W: u32>(
    writer: &mut BitWriter,
    last: u32,
    numbers: &[i32],
) -> Result<(), Full>
    requires width { IsWidth W }
    requires last { last < 2 ^ W }
    requires len { length numbers.now ≡ 32 }
    ensures { Writes result (chosen_block W (differences W last numbers.now)) writer.old writer.new }
{
    let values = values_of::<W>(last, numbers);
    let id = chosen_id::<W>(sum_of(&values), 32);
    write_number(writer, id, id_len::<W>())?;
    if id == 0 {
        Ok(())
    } else if id == raw_id::<W>() {
        write_raw::<W>(writer, last, numbers)
    } else {
        write_split_values(writer, id - 1, &values)
    }
}

/// All numbers are that of the residue `last`. The last one, which is looked at first, mostly shows that they are not.
#[inline]
fn repeats<const W: u32>(last: u32, numbers: &[i32]) -> bool
    requires width { IsWidth W }
    requires last { last < 2 ^ W }
    requires len { length numbers.now ≡ 32 }
    ensures { IsTrue result → differences W last numbers.now ≡ replicate 32 0 }
{
    let same = number::<W>(last);
    numbers[31] == same && all_are(numbers, same)
}

/// All numbers are this one. The loop has no early end, so that it is compiled to vector instructions.
#[inline]
fn all_are(numbers: &[i32], number: i32) -> bool
    ensures { IsTrue result → numbers.now ≡ replicate (length numbers.now) number }
{
    let mut same = true;
    for i in 0..numbers.len() {
        same = same & (numbers[i] == number);
    }
    same
}

/// The mapped differences.
#[inline]
fn values_of<const W: u32>(last: u32, numbers: &[i32]) -> [u32; 32]
    requires width { IsWidth W }
    requires last { last < 2 ^ W }
    requires len { length numbers.now ≡ 32 }
    ensures { result ≡ differences W last numbers.now }
{
    let mut values = [0u32; 32];
    values[0] = mapped::<W>(last, residue::<W>(numbers[0]));
    for i in 1..32usize {
        values[i] = mapped::<W>(residue::<W>(numbers[i - 1]), residue::<W>(numbers[i]));
    }
    values
}

/// The sum of the values.
#[inline]
fn sum_of(values: &[u32; 32]) -> u64
    ensures { result ≡ sum values.now }
{
    let mut sum = 0;
    for value in values {
        sum += u64::from(*value);
    }
    sum
}

/// Writes each value in unary and `k` bits.
fn write_split_values(writer: &mut BitWriter, k: u32, values: &[u32; 32]) -> Result<(), Full>
    requires { k < 32 }
    ensures { Writes result (flat_map (split_bits k) values.now) writer.old writer.new }
{
    room_law();
    let fields = Fields::of(k, values);
    for q in 0..8usize {
        let i = 4 * q;
        let bits = (
            fields.bits[i],
            fields.bits[i + 1],
            fields.bits[i + 2],
            fields.bits[i + 3],
        );
        let widths = (
            fields.widths[i],
            fields.widths[i + 1],
            fields.widths[i + 2],
            fields.widths[i + 3],
        );
        write_four(writer, k, &values[i..i + 4], bits, widths)?;
    }
    Ok(())
}

/// Writes four values, whose fields are given: at once if 63 bits hold them.
#[inline]
fn write_four(
    writer: &mut BitWriter,
    k: u32,
    values: &[u32],
    bits: (u32, u32, u32, u32),
    widths: (u32, u32, u32, u32),
) -> Result<(), Full>
    requires k { k < 32 }
    requires len { length values.now ≡ 4 }
    requires first { IsField k (slice_index values.now 0) bits.0 widths.0 }
    requires second { IsField k (slice_index values.now 1) bits.1 widths.1 }
    requires third { IsField k (slice_index values.now 2) bits.2 widths.2 }
    requires fourth { IsField k (slice_index values.now 3) bits.3 widths.3 }
    ensures { Writes result (flat_map (split_bits k) values.now) writer.old writer.new }
{
    if let Some(four) = Field::of_fields(bits, widths) {
        return four.write(writer);
    }
    write_values(writer, k, values)
}

/// Writes each value in unary and `k` bits, one by one.
#[cold]
#[inline(never)]
fn write_values(writer: &mut BitWriter, k: u32, values: &[u32]) -> Result<(), Full>
    requires { k < 32 }
    ensures { Writes result (flat_map (split_bits k) values.now) writer.old writer.new }
{
    room_law();
    for value in values {
        write_value(writer, k, *value)?;
    }
    Ok(())
}

/// The fields of 32 values in unary and `k` bits, side by side.
#[derive(Clone, Copy)]
struct Fields {
    bits: [u32; 32],
    widths: [u32; 32],
}

impl Fields {
    ghost use Rattle.fz_rice.specs.Writing.{IsField};

    /// The fields of the values.
    #[inline]
    fn of(k: u32, values: &[u32; 32]) -> Fields
        requires { k < 32 }
        ensures { (i : ℕ) → i < 32 → IsField k (slice_index values.now i)
            (slice_index result.bits i) (slice_index result.widths i) }
    {
        let mut bits = [0u32; 32];
        let mut widths = [0u32; 32];
        for i in 0..32usize {
            let field = field_of(k, values[i]);
            bits[i] = field.0;
            widths[i] = field.1;
        }
        Fields { bits, widths }
    }
}

/// The bits and the width of a value's field. Zeros that no word holds are cut, and their width still
/// says so.
#[inline]
fn field_of(k: u32, value: u32) -> (u32, u32)
    requires { k < 32 }
    ensures { IsField k value result.0 result.1 }
{
    number_law();
    let one = 1u32 << k;
    (one | (value & (one - 1)), (value >> k).min(64) + (k + 1))
}

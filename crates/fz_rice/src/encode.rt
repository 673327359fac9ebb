//! Writing the blocks of a code.
#![tactic(auto)]

ghost use Rattle.std.specs.Prelude.{◌≡◌, ℕ, ◌+◌, ◌-◌, ◌*◌, ◌/◌, ◌%◌, ◌^◌, ◌<◌, ◌≤◌, List, length, sum};
ghost use Rattle.std.specs.List.{flat_map};
ghost use Rattle.fz_bits.specs.Bits.{number_bits};
ghost use Rattle.fz_rice.specs.Numbers.{IsWidth};
ghost use Rattle.fz_rice.specs.Code.{differences, split_bits, pieces};
ghost use Rattle.fz_rice.specs.Producer.{chosen_id, chosen_block};
ghost use Rattle.fz_rice.specs.Writing.{Writes};

use crate::fields::Field;
use crate::full_block::write_full_block;
use crate::numbers::{id_len, mapped, raw_id, residue};
use fz_bits::{BitWriter, Full, number_law, room_law};

/// Writes the numbers in blocks, the first difference from the residue `start`.
pub fn write_blocks<const W: u32>(
    writer: &mut BitWriter,
    start: u32,
    block: u32,
    numbers: &[i32],
) -> Result<(), Full>
    requires width { IsWidth W }
    requires start { start < 2 ^ W }
    requires block { (1 ≤ block) × (block ≤ 32767) }
    ensures { Writes result
        (flat_map (chosen_block W) (pieces block (differences W start numbers.now)))
        writer.old writer.new }
{
    room_law();
    let mut last = start;
    let mut at = 0;
    while at < numbers.len() {
        let end = at + (block as usize).min(numbers.len() - at);
        write_block::<W>(writer, last, &numbers[at..end])?;
        last = residue::<W>(numbers[end - 1]);
        at = end;
    }
    Ok(())
}

/// Writes a block.
fn write_block<const W: u32>(writer: &mut BitWriter, last: u32, numbers: &[i32]) -> Result<(), Full>
    requires width { IsWidth W }
    requires last { last < 2 ^ W }
    requires some { 0 < length numbers.now }
    requires few { length numbers.now ≤ 32767 }
    ensures { Writes result (chosen_block W (differences W last numbers.now)) writer.old writer.new }
{
    if numbers.len() == 32 {
        return write_full_block::<W>(writer, last, numbers);
    }
    let id = chosen_id::<W>(total::<W>(last, numbers), numbers.len() as u32);
    write_number(writer, id, id_len::<W>())?;
    if id == 0 {
        Ok(())
    } else if id == raw_id::<W>() {
        write_raw::<W>(writer, last, numbers)
    } else {
        write_split::<W>(writer, last, id - 1, numbers)
    }
}

/// The sum of the mapped differences.
fn total<const W: u32>(start: u32, numbers: &[i32]) -> u64
    requires width { IsWidth W }
    requires start { start < 2 ^ W }
    requires few { length numbers.now ≤ 32767 }
    ensures { result ≡ sum (differences W start numbers.now) }
{
    let mut last = start;
    let mut sum = 0;
    for number in numbers {
        let next = residue::<W>(*number);
        sum += u64::from(mapped::<W>(last, next));
        last = next;
    }
    sum
}

/// The id of a block of so many mapped differences with this sum.
#[inline]
pub fn chosen_id<const W: u32>(total: u64, count: u32) -> u32
    requires width { IsWidth W }
    requires some { 0 < count }
    ensures { result ≡ chosen_id W count total }
{
    if total == 0 {
        return 0;
    }
    let count = u64::from(count);
    let half_mean = total.saturating_sub(count / 2).saturating_sub(1) / count / 2;
    let k = 64 - half_mean.leading_zeros();
    (k + 1).min(raw_id::<W>())
}

/// Writes each mapped difference in `W` bits.
pub fn write_raw<const W: u32>(
    writer: &mut BitWriter,
    start: u32,
    numbers: &[i32],
) -> Result<(), Full>
    requires width { IsWidth W }
    requires start { start < 2 ^ W }
    ensures { Writes result (flat_map (number_bits W) (differences W start numbers.now))
        writer.old writer.new }
{
    room_law();
    let mut last = start;
    for number in numbers {
        let next = residue::<W>(*number);
        write_number(writer, mapped::<W>(last, next), W)?;
        last = next;
    }
    Ok(())
}

/// Writes each mapped difference in unary and `k` bits.
fn write_split<const W: u32>(
    writer: &mut BitWriter,
    start: u32,
    k: u32,
    numbers: &[i32],
) -> Result<(), Full>
    requires width { IsWidth W }
    requires start { start < 2 ^ W }
    requires k { k < W }
    ensures { Writes result (flat_map (split_bits k) (differences W start numbers.now))
        writer.old writer.new }
{
    room_law();
    let mut last = start;
    let mut at = 0;
    while at < numbers.len() {
        let end = at + (numbers.len() - at).min(4);
        write_few::<W>(writer, last, k, &numbers[at..end])?;
        last = residue::<W>(numbers[end - 1]);
        at = end;
    }
    Ok(())
}

/// `write_split` of a few numbers. The bits of four go to the writer at once if 63 hold them.
#[inline]
fn write_few<const W: u32>(
    writer: &mut BitWriter,
    start: u32,
    k: u32,
    numbers: &[i32],
) -> Result<(), Full>
    requires width { IsWidth W }
    requires start { start < 2 ^ W }
    requires k { k < W }
    ensures { Writes result (flat_map (split_bits k) (differences W start numbers.now))
        writer.old writer.new }
{
    if let [a, b, c, d] = numbers {
        let (a, b) = (residue::<W>(*a), residue::<W>(*b));
        let (c, d) = (residue::<W>(*c), residue::<W>(*d));
        let front = (mapped::<W>(start, a), mapped::<W>(a, b));
        let back = (mapped::<W>(b, c), mapped::<W>(c, d));
        if let Some(four) = Field::of_four(k, front, back) {
            return four.write(writer);
        }
    }
    write_each::<W>(writer, start, k, numbers)
}

/// Writes each mapped difference in unary and `k` bits, one by one.
fn write_each<const W: u32>(
    writer: &mut BitWriter,
    start: u32,
    k: u32,
    numbers: &[i32],
) -> Result<(), Full>
    requires width { IsWidth W }
    requires start { start < 2 ^ W }
    requires k { k < W }
    ensures { Writes result (flat_map (split_bits k) (differences W start numbers.now))
        writer.old writer.new }
{
    room_law();
    let mut last = start;
    for number in numbers {
        let next = residue::<W>(*number);
        write_value(writer, k, mapped::<W>(last, next))?;
        last = next;
    }
    Ok(())
}

/// Writes a value as `value >> k` zeros, a one, and the last `k` bits.
#[inline]
pub fn write_value(writer: &mut BitWriter, k: u32, value: u32) -> Result<(), Full>
    requires { k < 32 }
    ensures { Writes result (split_bits k value) writer.old writer.new }
{
    let zeros = value >> k;
    if zeros < 63 - k {
        return Field::of_value(k, value).write(writer);
    }
    number_law();
    writer.unary(zeros)?;
    write_number(writer, value & ((1 << k) - 1), k)
}

/// Writes the `width` bits of a number.
#[inline]
pub fn write_number(writer: &mut BitWriter, number: u32, width: u32) -> Result<(), Full>
    requires width { width ≤ 32 }
    requires fits { number < 2 ^ width }
    ensures { Writes result (number_bits width number) writer.old writer.new }
{
    number_law();
    writer.put(number, width)
}

//! Reading the blocks of a code.
#![tactic(auto)]

ghost use Rattle.std.specs.Prelude.{◌≡◌, ℕ, ◌+◌, ◌-◌, ◌*◌, ◌/◌, ◌%◌, ◌^◌, ◌<◌, ◌≤◌, ℤ, List, length, replicate, IfOk, OnOk};
ghost use Rattle.fz_bits.specs.Reader.{left};
ghost use Rattle.fz_rice.specs.Numbers.{IsWidth};
ghost use Rattle.fz_rice.specs.Code.{row};
ghost use Rattle.fz_rice.specs.Reading.{number_at, zeros_at, split_at, many_at, id_at, block_at};
ghost use Rattle.fz_rice.specs.Reading.{blocks_at, number, Reads, ReadsNumbers, bit_count};

use crate::coder::CodeFault;
use crate::numbers::{greatest, id_len, next_residue, number, raw_id};
use crate::several::{Shape, put_four, put_two, take_four, take_ones, take_two};
use fz_bits::{BitReader, ZeroStop, number_law};

/// Reads the numbers in blocks, the first difference from the residue `start`, and answers the residue
/// of the last number.
pub fn read_blocks<const W: u32>(
    reader: &mut BitReader,
    start: u32,
    block: u32,
    numbers: &mut [i32],
) -> Result<u32, CodeFault>
    requires width { IsWidth W }
    requires start { start < 2 ^ W }
    requires block { (1 ≤ block) × (block ≤ 32767) }
    ensures numbers { ReadsNumbers W start
        (blocks_at W block (length numbers.old) (length numbers.old) (left reader.old))
        numbers.new result (left reader.new) }
    ensures count { OnOk result (bit_count reader.new ≡ bit_count reader.old) }
{
    let mut last = start;
    let mut at = 0;
    while at < numbers.len() {
        let end = at + (block as usize).min(numbers.len() - at);
        last = read_block::<W>(reader, last, &mut numbers[at..end])?;
        at = end;
    }
    Ok(last)
}

/// Reads a block, and answers the residue of its last number.
fn read_block<const W: u32>(
    reader: &mut BitReader,
    last: u32,
    numbers: &mut [i32],
) -> Result<u32, CodeFault>
    requires width { IsWidth W }
    requires last { last < 2 ^ W }
    ensures numbers { ReadsNumbers W last (block_at W (length numbers.old) (left reader.old))
        numbers.new result (left reader.new) }
    ensures count { OnOk result (bit_count reader.new ≡ bit_count reader.old) }
{
    let id = read_id::<W>(reader)?;
    if id == 0 {
        repeat::<W>(last, numbers);
        Ok(last)
    } else if id == raw_id::<W>() {
        read_raw::<W>(reader, last, numbers)
    } else {
        read_split::<W>(reader, last, id - 1, numbers)
    }
}

/// Puts the number of a residue into each place.
fn repeat<const W: u32>(last: u32, numbers: &mut [i32])
    requires width { IsWidth W }
    requires last { last < 2 ^ W }
    ensures { numbers.new ≡ replicate (length numbers.old) (number W last) }
{
    let same = number::<W>(last);
    for i in 0..numbers.len() {
        numbers[i] = same;
    }
}

/// Reads mapped differences in `W` bits.
fn read_raw<const W: u32>(
    reader: &mut BitReader,
    start: u32,
    numbers: &mut [i32],
) -> Result<u32, CodeFault>
    requires width { IsWidth W }
    requires start { start < 2 ^ W }
    ensures numbers { ReadsNumbers W start
        (many_at (number_at W) (length numbers.old) (left reader.old))
        numbers.new result (left reader.new) }
    ensures count { OnOk result (bit_count reader.new ≡ bit_count reader.old) }
{
    let mut last = start;
    for i in 0..numbers.len() {
        let value = read_number(reader, W)?;
        last = next_residue::<W>(last, value);
        numbers[i] = number::<W>(last);
    }
    Ok(last)
}

/// Reads mapped differences in unary and `k` bits.
fn read_split<const W: u32>(
    reader: &mut BitReader,
    start: u32,
    k: u32,
    numbers: &mut [i32],
) -> Result<u32, CodeFault>
    requires width { IsWidth W }
    requires start { start < 2 ^ W }
    requires k { k < W }
    ensures numbers { ReadsNumbers W start
        (many_at (split_at W k) (length numbers.old) (left reader.old))
        numbers.new result (left reader.new) }
    ensures count { OnOk result (bit_count reader.new ≡ bit_count reader.old) }
{
    // Four longer values are seldom in one word.
    if k == 0 {
        read_unary::<W>(reader, start, numbers)
    } else if k < 11 {
        read_fours::<W>(reader, start, k, numbers)
    } else {
        read_twos::<W>(reader, start, k, numbers)
    }
}

/// `read_split` of values in only unary: many that are 0, or four values, at once if they are in one word.
fn read_unary<const W: u32>(
    reader: &mut BitReader,
    start: u32,
    numbers: &mut [i32],
) -> Result<u32, CodeFault>
    requires width { IsWidth W }
    requires start { start < 2 ^ W }
    ensures numbers { ReadsNumbers W start
        (many_at (split_at W 0) (length numbers.old) (left reader.old))
        numbers.new result (left reader.new) }
    ensures count { OnOk result (bit_count reader.new ≡ bit_count reader.old) }
{
    number_law();
    let shape = Shape::of::<W>(0, 4);
    let mut ahead = *reader;
    let mut last = start;
    let mut i = 0;
    while i < numbers.len() {
        let same = take_ones(&mut ahead, numbers.len() - i);
        if same > 0 {
            repeat::<W>(last, &mut numbers[i..i + same]);
            i += same;
            continue;
        }
        if let Some(four) = take_four::<W>(&mut ahead, 0, shape, numbers.len() - i) {
            last = put_four::<W>(last, four, &mut numbers[i..i + 4]);
            i += 4;
            continue;
        }
        // The copy keeps the fields of `ahead` in registers: its address is handed out.
        let mut exact = ahead;
        let value = read_value::<W>(&mut exact, 0)?;
        ahead = exact;
        last = next_residue::<W>(last, value);
        numbers[i] = number::<W>(last);
        i += 1;
    }
    *reader = ahead;
    Ok(last)
}

/// `read_split` with four values at once if they are in one word.
fn read_fours<const W: u32>(
    reader: &mut BitReader,
    start: u32,
    k: u32,
    numbers: &mut [i32],
) -> Result<u32, CodeFault>
    requires width { IsWidth W }
    requires start { start < 2 ^ W }
    requires k { k < W }
    ensures numbers { ReadsNumbers W start
        (many_at (split_at W k) (length numbers.old) (left reader.old))
        numbers.new result (left reader.new) }
    ensures count { OnOk result (bit_count reader.new ≡ bit_count reader.old) }
{
    let shape = Shape::of::<W>(k, 4);
    let mut ahead = *reader;
    let mut last = start;
    let mut i = 0;
    while i < numbers.len() {
        if let Some(four) = take_four::<W>(&mut ahead, k, shape, numbers.len() - i) {
            last = put_four::<W>(last, four, &mut numbers[i..i + 4]);
            i += 4;
            continue;
        }
        // The copy keeps the fields of `ahead` in registers: its address is handed out.
        let mut exact = ahead;
        let value = read_value::<W>(&mut exact, k)?;
        ahead = exact;
        last = next_residue::<W>(last, value);
        numbers[i] = number::<W>(last);
        i += 1;
    }
    *reader = ahead;
    Ok(last)
}

/// `read_split` with two values at once if they are in one word.
fn read_twos<const W: u32>(
    reader: &mut BitReader,
    start: u32,
    k: u32,
    numbers: &mut [i32],
) -> Result<u32, CodeFault>
    requires width { IsWidth W }
    requires start { start < 2 ^ W }
    requires k { k < W }
    ensures numbers { ReadsNumbers W start
        (many_at (split_at W k) (length numbers.old) (left reader.old))
        numbers.new result (left reader.new) }
    ensures count { OnOk result (bit_count reader.new ≡ bit_count reader.old) }
{
    let shape = Shape::of::<W>(k, 2);
    let mut ahead = *reader;
    let mut last = start;
    let mut i = 0;
    while i < numbers.len() {
        if let Some(two) = take_two::<W>(&mut ahead, k, shape, numbers.len() - i) {
            last = put_two::<W>(last, two, &mut numbers[i..i + 2]);
            i += 2;
            continue;
        }
        // The copy keeps the fields of `ahead` in registers: its address is handed out.
        let mut exact = ahead;
        let value = read_value::<W>(&mut exact, k)?;
        ahead = exact;
        last = next_residue::<W>(last, value);
        numbers[i] = number::<W>(last);
        i += 1;
    }
    *reader = ahead;
    Ok(last)
}

/// Reads zeros, a one and `k` bits.
#[cold]
#[inline(never)]
fn read_value<const W: u32>(reader: &mut BitReader, k: u32) -> Result<u32, CodeFault>
    requires width { IsWidth W }
    requires k { k < W }
    ensures value { Reads (split_at W k (left reader.old)) result (left reader.new) }
    ensures fits { IfOk result (λ v. v < 2 ^ W) }
    ensures count { OnOk result (bit_count reader.new ≡ bit_count reader.old) }
{
    let zeros = read_zeros(reader, greatest::<W>() >> k)?;
    let low = read_number(reader, k)?;
    Ok((zeros << k) | low)
}

/// Reads zeros and the one after them.
#[inline]
fn read_zeros(reader: &mut BitReader, max: u32) -> Result<u32, CodeFault>
    ensures zeros { Reads (zeros_at max (left reader.old)) result (left reader.new) }
    ensures most { IfOk result (λ n. n ≤ max) }
    ensures count { OnOk result (bit_count reader.new ≡ bit_count reader.old) }
{
    match reader.zeros(max) {
        Ok(zeros) => Ok(zeros),
        Err(ZeroStop::TooMany) => Err(CodeFault::Unlawful),
        Err(ZeroStop::Ended) => Err(CodeFault::Ended),
    }
}

/// Reads a number of so many bits.
#[inline]
pub fn read_number(reader: &mut BitReader, width: u32) -> Result<u32, CodeFault>
    requires { width ≤ 32 }
    ensures number { Reads (number_at width (left reader.old)) result (left reader.new) }
    ensures fits { IfOk result (λ v. v < 2 ^ width) }
    ensures count { OnOk result (bit_count reader.new ≡ bit_count reader.old) }
{
    number_law();
    match reader.get(width) {
        Ok(number) => Ok(number),
        Err(_) => Err(CodeFault::Ended),
    }
}

/// Reads an id.
fn read_id<const W: u32>(reader: &mut BitReader) -> Result<u32, CodeFault>
    requires width { IsWidth W }
    ensures id { Reads (id_at (row W).id_len (row W).raw_id (left reader.old)) result
        (left reader.new) }
    ensures lawful { IfOk result (λ id. id ≤ (row W).raw_id) }
    ensures count { OnOk result (bit_count reader.new ≡ bit_count reader.old) }
{
    number_law();
    match reader.get(id_len::<W>()) {
        Ok(id) if id <= raw_id::<W>() => Ok(id),
        Ok(_) => Err(CodeFault::Unlawful),
        Err(_) => Err(cut_id::<W>(reader)),
    }
}

/// Why there is no id if the bits end in it: `Unlawful` if no lawful id begins with them.
#[cold]
fn cut_id<const W: u32>(reader: &BitReader) -> CodeFault
    requires width { IsWidth W }
    requires cut { length (left reader.now) < (row W).id_len }
    ensures { id_at (row W).id_len (row W).raw_id (left reader.now) ≡ Err result }
{
    number_law();
    for missing in 1..id_len::<W>() {
        let mut ahead = *reader;
        if let Ok(front) = ahead.get(id_len::<W>() - missing) {
            if front << missing > raw_id::<W>() {
                return CodeFault::Unlawful;
            }
            return CodeFault::Ended;
        }
    }
    CodeFault::Ended
}

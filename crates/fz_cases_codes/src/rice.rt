//! Codes worked out by hand, and random numbers there and back.
ghost use Rattle.std.specs.Prelude.{◌≡◌, ℕ, ◌<◌, ◌≤◌, length, All, IfOk, vec_len};
ghost use Rattle.fz_rice.specs.Numbers.{IsWidth, IsNumber};

use crate::asserts::alike;
use crate::random::next_word;
use fz_bits::Full;
use fz_rice::{
    CodeFault, Coder, Mark, marks_law, one_code_law, producer_law, reading_law, round_trip_law,
};
use std::alloc::{AllocError, Global};
use std::process::Abort;
use std::test::Fail;

#[test]
fn codes_of_8_bits(rt: HostRuntime) {
    let mut out = [0u8; 3];
    let len = Coder::<8>::encode(&[0, 255, 0, 255], 32, &mut out);
    let mut short = [0u8; 2];
    let full = Coder::<8>::encode(&[0, 255, 0, 255], 32, &mut short);
    let one = Coder::<8>::encode(&[7], 32, &mut short);
    alike(
        &rt,
        (len, out, full, one),
        (Ok(3), [0x00, 0x34, 0xa0], Err(Full), Ok(2)),
    );
}

/// Encodes the numbers in blocks of 32 and compares the code.
fn expect_code<const W: u32>(rt: &impl Abort, numbers: &[i32], code: &[u8])
    requires width { IsWidth W }
    requires some { 0 < length numbers.now }
    requires numbers { All (IsNumber W) numbers.now }
{
    let mut out = [0u8; 16];
    let len = Coder::<W>::encode(numbers, 32, &mut out);
    let front = out.get(0..code.len());
    alike(rt, (len, front), (Ok(code.len()), Some(code)));
}

#[test]
fn codes_of_16_bits(rt: HostRuntime) {
    expect_code::<16>(&rt, &[0, 1, 0, 1], &[0x00, 0x00, 0x19, 0x48]);
    expect_code::<16>(
        &rt,
        &[0, -32768],
        &[0x00, 0x00, 0xf0, 0x00, 0x0f, 0xff, 0xf0],
    );
    expect_code::<16>(&rt, &[-32768, 32767], &[0x80, 0x00, 0x1a]);
    expect_code::<16>(&rt, &[1000, 1000, 1003], &[0x03, 0xe8, 0x1c, 0x08]);
    let tens_and_twelve = [
        10, 10, 10, 10, 10, 10, 10, 10, 10, 10, 10, 10, 10, 10, 10, 10, 10, 10, 10, 10, 10, 10, 10,
        10, 10, 10, 10, 10, 10, 10, 10, 10, 12,
    ];
    expect_code::<16>(&rt, &tens_and_twelve, &[0x00, 0x0a, 0x02, 0x20]);
}

#[test]
fn codes_of_32_bits(rt: HostRuntime) {
    expect_code::<32>(
        &rt,
        &[1000, 1000, 1003],
        &[0x00, 0x00, 0x03, 0xe8, 0x0e, 0x04],
    );
    expect_code::<32>(&rt, &[5, 5, 5, 5], &[0x00, 0x00, 0x00, 0x05, 0x00]);
}

/// The greatest k of each width, and the least sum that is raw.
#[test]
fn greatest_k(rt: HostRuntime) {
    expect_code::<8>(&rt, &[0, 191], &[0x00, 0xd0, 0x04, 0x20]);
    expect_code::<8>(&rt, &[0, 65], &[0x00, 0xe0, 0x10, 0x40]);
    let code = [0x00, 0x00, 0xe8, 0x00, 0x02, 0x00, 0x10];
    expect_code::<16>(&rt, &[0, -16385], &code);
    let code = [0x00, 0x00, 0xf0, 0x00, 0x08, 0x00, 0x20];
    expect_code::<16>(&rt, &[0, 16385], &code);
    let code = [
        0x00, 0x00, 0x00, 0x00, 0xcc, 0x00, 0x00, 0x00, 0x20, 0x00, 0x00, 0x20,
    ];
    expect_code::<32>(&rt, &[0, -33_554_433], &code);
    let code = [
        0x00, 0x00, 0x00, 0x00, 0xd0, 0x00, 0x00, 0x00, 0x00, 0x20, 0x00, 0x00, 0x10,
    ];
    expect_code::<32>(&rt, &[0, 33_554_433], &code);
}

#[test]
fn laws() {
    marks_law();
    one_code_law();
    producer_law();
    reading_law();
    round_trip_law();
}

#[test]
fn answers_of_decode(rt: HostRuntime) {
    let mut one = [0i32; 1];
    let unlawful = [0x00, 0x00, 0x00, 0x05, 0xd8];
    let unlawful = Coder::<32>::decode(&unlawful, 32, &mut one);
    let ended = [0x00, 0x00, 0x00, 0x05];
    let ended = Coder::<32>::decode(&ended, 32, &mut one);
    let longer = [0x00, 0x00, 0x00, 0x05, 0x00, 0xff];
    let longer = Coder::<32>::decode(&longer, 32, &mut one);
    alike(
        &rt,
        (unlawful, ended, longer, one),
        (Err(CodeFault::Unlawful), Err(CodeFault::Ended), Ok(5), [5]),
    );
    let none: &mut [i32] = &mut [];
    alike(
        &rt,
        Coder::<16>::decode(&[0x12, 0x34, 0x56], 32, none),
        Ok(2),
    );
}

/// Codes that are cut: unlawful if what is left of them begins no lawful one, and else ended.
#[test]
fn codes_that_are_cut(rt: HostRuntime) {
    // A block of one number with id 1, and then the bits 11 of the next id: 26 begins so. The bits
    // 111 begin no id.
    let mut two = [0i32; 2];
    let cut = [0x00, 0x00, 0x00, 0x05, 0x07];
    let no_id = Coder::<32>::decode(&cut, 1, &mut two);
    let cut = [0x00, 0x00, 0x00, 0x05, 0x0b];
    let some_id = Coder::<32>::decode(&cut, 1, &mut two);
    // Zeros that pass what 8 bits hold are unlawful although the bits end in them.
    let mut zeros = [0u8; 40];
    zeros[1] = 0x20;
    let mut one = [0i32; 1];
    let too_many = Coder::<8>::decode(&zeros, 32, &mut one);
    let fewer = Coder::<8>::decode(&zeros[..30], 32, &mut one);
    let (unlawful, ended) = (Err(CodeFault::Unlawful), Err(CodeFault::Ended));
    alike(
        &rt,
        [no_id, some_id, too_many, fewer],
        [unlawful, ended, unlawful, ended],
    );
}

/// Marks: after the start value, after a block of 32 equal numbers, whose id is 0, and after one more
/// number, whose mapped difference is 4, in a block with id 2 (`k` is 1).
#[test]
fn codes_in_parts(rt: HostRuntime) {
    let code = [0x00, 0x0a, 0x02, 0x20];
    alike(
        &rt,
        Coder::<16>::first_mark(&code),
        Ok(Mark { bit: 16, last: 10 }),
    );
    alike(
        &rt,
        Coder::<16>::first_mark(&code[..1]),
        Err(CodeFault::Ended),
    );
    let mut tens = [0i32; 32];
    let next = Coder::<16>::decode_on(&code, Mark { bit: 16, last: 10 }, 32, &mut tens);
    alike(
        &rt,
        (next, tens),
        (Ok(Mark { bit: 20, last: 10 }), [10; 32]),
    );
    let mut one = [0i32; 1];
    let next = Coder::<16>::decode_on(&code, Mark { bit: 20, last: 10 }, 32, &mut one);
    alike(&rt, (next, one), (Ok(Mark { bit: 28, last: 12 }), [12]));
    // The same in the bytes from the third one on, and where these end in the second id's value.
    let next = Coder::<16>::decode_on(&code[2..], Mark { bit: 4, last: 10 }, 32, &mut one);
    alike(&rt, (next, one), (Ok(Mark { bit: 12, last: 12 }), [12]));
    let cut = Coder::<16>::decode_on(&code[2..3], Mark { bit: 4, last: 10 }, 32, &mut one);
    alike(&rt, cut, Err(CodeFault::Ended));
}

/// The number of `W` bits in which a word ends: unsigned at 8, else in two's complement.
fn number_of<const W: u32>(word: u32) -> i32
    requires { IsWidth W }
    ensures { IsNumber W result }
{
    if W == 8 {
        return (word % 256) as i32;
    }
    if W == 32 {
        return word.cast_signed();
    }
    let low = (word % 65_536) as i32;
    if low < 32_768 { low } else { low - 65_536 }
}

/// 10,000 numbers whose differences have random signs and lengths, and runs of equal ones.
fn random_numbers<const W: u32>(alloc: Global, seed: u32) -> Result<Vec<i32>, AllocError>
    requires { IsWidth W }
    ensures { IfOk result (λ v. (vec_len v ≡ 10000) × All (IsNumber W) v.items) }
{
    let mut numbers = Vec::new(alloc);
    let mut word = seed;
    let mut last = 0u32;
    for _made in 0..10_000usize {
        word = next_word(word);
        let step = next_word(word) >> (word & 31);
        if word & 32 == 0 {
            last = last.wrapping_add(step);
        } else {
            last = last.wrapping_sub(step);
        }
        numbers.push(number_of::<W>(last))?;
    }
    Ok(numbers)
}

/// Encodes and decodes random numbers. A code without its last byte ends early.
fn there_and_back<const W: u32>(
    rt: &impl Abort,
    alloc: Global,
    seed: u32,
    block: u32,
) -> Result<(), Fail>
    requires width { IsWidth W }
    requires block { (1 ≤ block) × (block ≤ 32767) }
{
    let numbers = random_numbers::<W>(alloc, seed)?;
    let mut code = vec![in alloc; 0u8; 100_000]?;
    let mut back = vec![in alloc; 0i32; 10_000]?;
    let answer = Coder::<W>::encode(&numbers, block, code.as_mut_slice());
    let len = answer.unwrap_or(0);
    let code = code.as_slice();
    assert!(rt; 0 < len);
    assert!(rt; len <= code.len());
    let decoded = Coder::<W>::decode(&code[..len], block, back.as_mut_slice());
    let are_back = numbers.as_slice() == back.as_slice();
    let cut = Coder::<W>::decode(&code[..len - 1], block, back.as_mut_slice());
    alike(
        rt,
        (decoded, are_back, cut),
        (Ok(len), true, Err(CodeFault::Ended)),
    );
    Ok(())
}

/// The same in blocks of four lengths.
fn in_all_blocks<const W: u32>(rt: &impl Abort, alloc: Global, seed: u32) -> Result<(), Fail>
    requires { IsWidth W }
{
    there_and_back::<W>(rt, alloc, seed, 1)?;
    there_and_back::<W>(rt, alloc, seed, 16)?;
    there_and_back::<W>(rt, alloc, seed, 32)?;
    there_and_back::<W>(rt, alloc, seed, 32767)
}

#[test]
fn random_numbers_there_and_back(rt: HostRuntime) -> Result<(), Fail> {
    in_all_blocks::<8>(&rt, rt.alloc(), 2_463_534_242)?;
    in_all_blocks::<16>(&rt, rt.alloc(), 123_456_789)?;
    in_all_blocks::<32>(&rt, rt.alloc(), 362_436_069)?;
    Ok(())
}

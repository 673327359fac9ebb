//! Rows of lists that were worked out by hand, and masks there and back.

ghost use Rattle.std.specs.Prelude.{◌≤◌, ◌^◌, length};

use crate::asserts::alike;
use fz_plio::{LineFault, PlioStop, can_hold_law, decode, encode, line_list_law};
use std::alloc::{AllocError, Global};
use std::process::Abort;
use std::test::Fail;

/// The bytes of words.
fn bytes_of(alloc: Global, words: &[u16]) -> Result<Vec<u8>, AllocError> {
    let mut bytes = Vec::new(alloc);
    for word in words {
        bytes.extend_from_slice(&word.to_be_bytes())?;
    }
    Ok(bytes)
}

/// Encodes the numbers, and compares the words of the list and the byte after it.
fn expect_words(rt: &impl Abort, alloc: Global, numbers: &[i32], words: &[u16]) -> Result<(), Fail>
    requires { length numbers.now ≤ 2 ^ 26 }
{
    let mut out = [0xa5; 64];
    let len = encode(numbers, &mut out)?;
    let list = bytes_of(alloc, words)?;
    assert!(rt; len < out.len());
    alike(rt, (&out[..len], out[len]), (list.as_slice(), 0xa5));
    Ok(())
}

#[test]
fn encodes_rows(rt: HostRuntime) -> Result<(), Fail> {
    static ROWS: [(&[i32], &[u16]); 10] = [
        (
            &[0, 0, 5, 5, 0],
            &[0, 7, 0xff9c, 11, 0, 0, 0, 0x2004, 0x0002, 0x4002, 0x0001],
        ),
        (
            &[0, 0, 0, 0, 0, 0, 0, 0, 0, 0],
            &[0, 7, 0xff9c, 8, 0, 0, 0, 0x000a],
        ),
        (
            &[5000],
            &[0, 7, 0xff9c, 10, 0, 0, 0, 0x1388, 0x0001, 0x4001],
        ),
        (&[5, 3], &[0, 7, 0xff9c, 9, 0, 0, 0, 0x6004, 0x7002]),
        (
            &[5, 5, 0, 3],
            &[0, 7, 0xff9c, 11, 0, 0, 0, 0x2004, 0x4002, 0x3002, 0x5002],
        ),
        (&[1], &[0, 7, 0xff9c, 8, 0, 0, 0, 0x4001]),
        // differences of 4095 and 4096, and the greatest number
        (&[4096], &[0, 7, 0xff9c, 8, 0, 0, 0, 0x6fff]),
        (
            &[4097],
            &[0, 7, 0xff9c, 10, 0, 0, 0, 0x1001, 0x0001, 0x4001],
        ),
        (
            &[16_777_215],
            &[0, 7, 0xff9c, 10, 0, 0, 0, 0x1fff, 0x0fff, 0x4001],
        ),
        (
            &[0, 5000],
            &[0, 7, 0xff9c, 10, 0, 0, 0, 0x1388, 0x0001, 0x5002],
        ),
    ];
    for &(numbers, words) in &ROWS {
        assert!(rt; numbers.len() <= 64);
        expect_words(&rt, rt.alloc(), numbers, words)?;
    }
    Ok(())
}

#[test]
fn encodes_long_runs(rt: HostRuntime) -> Result<(), Fail> {
    static ROWS: [(usize, &[u16]); 5] = [
        (4094, &[0, 7, 0xff9c, 8, 0, 0, 0, 0x5fff]),
        (4095, &[0, 7, 0xff9c, 9, 0, 0, 0, 0x0fff, 0x4001]),
        (4096, &[0, 7, 0xff9c, 9, 0, 0, 0, 0x0fff, 0x5002]),
        (8190, &[0, 7, 0xff9c, 10, 0, 0, 0, 0x0fff, 0x0fff, 0x4001]),
        (8191, &[0, 7, 0xff9c, 10, 0, 0, 0, 0x0fff, 0x0fff, 0x5002]),
    ];
    for &(zeros, words) in &ROWS {
        let mut numbers = vec![in rt.alloc(); 0; zeros]?;
        numbers.push(1)?;
        assert!(rt; numbers.len() <= 9000);
        expect_words(&rt, rt.alloc(), numbers.as_slice(), words)?;
    }
    let words = [0, 7, 0xff9c, 9, 0, 0, 0, 0x2004, 0x4064];
    expect_words(&rt, rt.alloc(), &[5; 100], &words)?;
    let words = [0, 7, 0xff9c, 9, 0, 0, 0, 0x4fff, 0x4001];
    expect_words(&rt, rt.alloc(), &[1; 4096], &words)?;
    let mut numbers = vec![in rt.alloc(); 0; 4095]?;
    numbers.push(1)?;
    numbers.push(1)?;
    assert!(rt; numbers.len() <= 5000);
    let words = [0, 7, 0xff9c, 9, 0, 0, 0, 0x0fff, 0x4002];
    expect_words(&rt, rt.alloc(), numbers.as_slice(), &words)
}

/// A list of more than 32,767 words: 6,000 times 1 and 5000.
#[test]
fn encodes_a_long_list(rt: HostRuntime) -> Result<(), Fail> {
    let mut numbers = Vec::new(rt.alloc());
    for _made in 0..6000u32 {
        numbers.push(1)?;
        numbers.push(5000)?;
    }
    assert!(rt; numbers.len() <= 12_000);
    let mut out = vec![in rt.alloc(); 0; 80_000]?;
    let len = encode(numbers.as_slice(), out.as_mut_slice())?;
    let header = bytes_of(rt.alloc(), &[0, 7, 0xff9c, 0x0ca5, 1, 0, 0])?;
    let begins = out.as_slice().starts_with(header.as_slice());
    alike(&rt, (len, begins), (72_010, true));
    Ok(())
}

#[test]
fn stops(rt: HostRuntime) {
    let mut out = [7; 22];
    let negative = encode(&[3, -1], &mut out);
    let large = encode(&[1 << 24], &mut out);
    alike(
        &rt,
        (negative, large, out),
        (
            Err(PlioStop::Range { index: 1 }),
            Err(PlioStop::Range { index: 0 }),
            [7; 22],
        ),
    );
    let whole = encode(&[0, 0, 5, 5, 0], &mut out);
    let full = encode(&[0, 0, 5, 5, 0], &mut [7; 21]);
    alike(&rt, (whole, full), (Ok(22), Err(PlioStop::Full)));
}

#[test]
fn decodes_rows(rt: HostRuntime) -> Result<(), Fail> {
    static ROWS: [(&[u16], Result<[i32; 3], LineFault>); 18] = [
        (&[0, 7, 0xff9c, 8, 0, 0, 0, 0x4002], Ok([1, 1, 0])),
        (&[0, 7, 0xff9c, 7, 0, 0, 0], Ok([0, 0, 0])),
        (&[9, 7, 0, 8, 0, 9, 9, 0x4002, 0xffff], Ok([1, 1, 0])),
        (
            &[0, 7, 0xff9c, 9, 0, 0, 0, 0x1388, 0x0001, 0x4001],
            Ok([0, 0, 0]),
        ),
        (
            &[0, 7, 0xff9c, 10, 0, 0, 0, 0x1388, 0x0001, 0x4001],
            Ok([5000, 0, 0]),
        ),
        (&[0, 7, 0xff9c, 8, 0, 0, 0, 0x4004], Err(LineFault)),
        (&[0, 7, 0xff9c, 8, 0, 0, 0, 0x5000], Err(LineFault)),
        (&[0, 7, 0xff9c, 8, 0, 0, 0, 0x8001], Err(LineFault)),
        (&[0, 7, 0xff9c, 8, 0, 0, 0, 0x1001, 0x0000], Err(LineFault)),
        (&[0, 8, 0xff9c, 8, 0, 0, 0, 0x4002], Err(LineFault)),
        (&[0, 7, 1, 8, 0, 0, 0, 0x4002], Err(LineFault)),
        (&[0, 7, 0xff9c, 0x8000, 0, 0, 0, 0x4002], Err(LineFault)),
        (&[0, 7, 0xff9c, 6, 0, 0, 0, 0x4002], Err(LineFault)),
        (&[0, 7, 0xff9c, 9, 0, 0, 0, 0x4002], Err(LineFault)),
        (&[0, 7, 0xff9c, 8, 0x8000, 0, 0, 0x4002], Err(LineFault)),
        (&[0, 7, 0xff9c, 9, 0, 0, 0, 0x1000, 0x1000], Err(LineFault)),
        (&[0, 7, 0xff9c, 8, 0, 0, 0, 0x3002], Err(LineFault)),
        (
            &[0, 7, 0xff9c, 10, 0, 0, 0, 0x1fff, 0x0fff, 0x2001],
            Err(LineFault),
        ),
    ];
    for &(words, want) in &ROWS {
        let bytes = bytes_of(rt.alloc(), words)?;
        let mut numbers = [-1; 3];
        let answer = decode(bytes.as_slice(), &mut numbers);
        alike(&rt, answer.map(|()| numbers), want);
    }
    let bytes = bytes_of(rt.alloc(), &[0, 7, 0xff9c, 7, 0, 0, 0, 0])?;
    assert!(rt; bytes.len() == 16);
    let odd = decode(&bytes.as_slice()[..15], &mut [0; 3]);
    let short = decode(&bytes.as_slice()[..13], &mut [0; 3]);
    alike(&rt, (odd, short), (Err(LineFault), Err(LineFault)));
    Ok(())
}

/// The next number of a sequence that a seed fixes.
fn next(state: u64) -> u64 {
    state
        .wrapping_mul(6364136223846793005)
        .wrapping_add(1442695040888963407)
}

/// Runs of a few values, of lengths that the seed fixes.
fn fill_mask(mask: &mut [i32], seed: u64) {
    let mut state = next(seed);
    for number in mask.iter_mut() {
        if state >> 60 < 6 {
            state = next(state);
        }
        *number = match state >> 33 & 3 {
            0 | 1 => 0,
            2 => 1,
            _ => (state >> 36 & 0xffff) as i32,
        };
        state = state.wrapping_add(1 << 60);
    }
}

#[test]
fn masks_there_and_back(rt: HostRuntime) -> Result<(), Fail> {
    can_hold_law();
    line_list_law();
    let mut out = [0; 2048];
    for seed in 0..10_000u64 {
        let mut mask = [0; 200];
        let mut back = [-1; 200];
        fill_mask(&mut mask, seed);
        let len = encode(&mask, &mut out)?;
        assert!(rt; len <= out.len());
        let read = decode(&out[..len], &mut back);
        assert!(rt; read.is_ok() && mask == back, "at seed {seed}");
    }
    Ok(())
}

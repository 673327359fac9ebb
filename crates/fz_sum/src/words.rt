//! The total of bytes as words of 32 bits, whole words at a time.
ghost use Rattle.std.specs.Prelude.{◌≡◌, ◌+◌, ◌*◌, ◌%◌, ◌<◌, ◌≤◌, ◌^◌, length, ◌⊎◌};
ghost use Rattle.fz_sum.specs.Pieces.{total_at};

use byteorder::{BigEndian, ByteOrder};

/// The length of a word in bytes.
const WORD_LEN: usize = 4;

/// So many bytes are totalled in 64 bits, which they cannot pass.
const STRETCH_LEN: usize = 1 << 24;

/// The total of bytes, the first of which is at this position.
pub(crate) fn total_from(at: u64, bytes: &[u8]) -> u128
    requires { length bytes.now < 2 ^ 63 }
    ensures total { result ≡ total_at at bytes.now }
    ensures within { result ≤ 2 ^ 32 * length bytes.now }
{
    let at = at % 4;
    let (front, rest) = bytes.split_at(front_len(at, bytes.len()));
    let (words, tail) = rest.split_at(rest.len() - rest.len() % WORD_LEN);
    u128::from(part_total(at, front)) + total_of_words(words) + u128::from(part_total(0, tail))
}

/// How many of so many bytes are before the next word, if the first is at this place in a word.
fn front_len(at: u64, len: usize) -> usize
    requires { at < 4 }
    ensures within { result ≤ len }
    ensures short { result < 4 }
    ensures whole { ((at + result) % 4 ≡ 0) ⊎ (result ≡ len) }
{
    len.min((WORD_LEN - at as usize) % WORD_LEN)
}

/// The total of less than a word, of which the first byte is at this place in a word.
fn part_total(at: u64, part: &[u8]) -> u64
    requires at { at < 4 }
    requires short { length part.now < 4 }
    ensures total { result ≡ total_at at part.now }
    ensures within { result ≤ 2 ^ 32 * length part.now }
{
    let mut total = 0;
    for (i, byte) in part.iter().enumerate() {
        total += u64::from(*byte) << (24 - 8 * ((at + i as u64) % 4));
    }
    total
}

/// The total of whole words.
fn total_of_words(mut words: &[u8]) -> u128
    requires whole { length words.now % 4 ≡ 0 }
    requires fits { length words.now < 2 ^ 63 }
    ensures total { result ≡ total_at 0 words.entry.now }
    ensures within { result ≤ 2 ^ 32 * length words.entry.now }
{
    let mut total = 0u128;
    while words.len() > STRETCH_LEN {
        let (stretch, rest) = words.split_at(STRETCH_LEN);
        total += u128::from(stretch_total(stretch));
        words = rest;
    }
    total + u128::from(stretch_total(words))
}

/// The same for so few words that 64 bits hold their total.
fn stretch_total(words: &[u8]) -> u64
    requires whole { length words.now % 4 ≡ 0 }
    requires short { length words.now ≤ STRETCH_LEN }
    ensures total { result ≡ total_at 0 words.now }
    ensures within { result ≤ 2 ^ 32 * length words.now }
{
    let mut total = 0u64;
    for i in 0..words.len() / WORD_LEN {
        let at = WORD_LEN * i;
        total += u64::from(BigEndian::read_u32(&words[at..at + WORD_LEN]));
    }
    total
}

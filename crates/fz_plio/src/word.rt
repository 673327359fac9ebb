//! The 16-bit big-endian words of a list.

ghost use Rattle.std.specs.Prelude.{◌≡◌, ◌+◌, ◌*◌, ◌<◌, ◌≤◌, length, slice_index, drop, ◌∷◌};
ghost use Rattle.fz_plio.specs.Words.{words};

use byteorder::{BigEndian, ByteOrder};

/// The length of the header in words.
pub const HEADER_WORDS: usize = 7;

/// The length of the header in bytes.
pub const HEADER_LEN: usize = HEADER_WORDS * WORD_LEN;

/// Each of the two header words that give the length of a list stays below this number; so does a
/// word that is positive as a signed number.
pub const PART_END: u16 = 1 << 15;

/// The bytes of a word.
pub const WORD_LEN: usize = 2;

/// The word at an index, counted from 0.
#[inline]
pub fn word_at(bytes: &[u8], index: usize) -> u16
    requires { 2 * index + 2 ≤ length bytes.now }
    ensures { result ≡ slice_index (words bytes.now) index }
{
    BigEndian::read_u16(&bytes[WORD_LEN * index..])
}

/// The first word, and the bytes after it.
#[inline]
pub fn split_word(bytes: &[u8]) -> (u16, &[u8])
    requires { 2 ≤ length bytes.now }
    ensures words { words bytes.now ≡ result.0 ∷ words result.1.now }
    ensures rest { result.1.now ≡ drop 2 bytes.now }
{
    let (_, rest) = bytes.split_at(WORD_LEN);
    (word_at(bytes, 0), rest)
}

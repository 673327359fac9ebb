//! Random words.

/// The next of a sequence of random words (a xorshift).
pub(crate) fn next_word(word: u32) -> u32 {
    let word = word ^ (word << 13);
    let word = word ^ (word >> 17);
    word ^ (word << 5)
}

//! The words of a line.
use crate::amiss::Amiss;
use std::alloc::{AllocError, Global};

/// The first word of a line, and what is after the blank that ends it.
pub(crate) fn first_word(line: &str) -> (&str, &str) {
    line.split_once(' ').unwrap_or((line, ""))
}

/// A number that is written in digits, of at most 32 bits.
pub(crate) fn number(word: &str) -> Result<u32, Amiss> {
    match word.parse::<u32>() {
        Ok(number) => Ok(number),
        Err(_) => Err(Amiss::NotUnderstood),
    }
}

/// A number that is written in digits, of at most 64 bits.
pub(crate) fn long_number(word: &str) -> Result<u64, Amiss> {
    match word.parse::<u64>() {
        Ok(number) => Ok(number),
        Err(_) => Err(Amiss::NotUnderstood),
    }
}

/// Numbers with blanks between.
pub(crate) fn numbers(alloc: Global, text: &str) -> Result<Vec<u32>, Amiss> {
    let mut all = Vec::new(alloc);
    for word in text.split(' ') {
        all.push(number(word)?)?;
    }
    Ok(all)
}

/// A range as `A-B`, from A to before B.
pub(crate) fn range(word: &str) -> Result<(u64, u64), Amiss> {
    let (from, to) = word.split_once('-').unwrap_or(("", ""));
    Ok((long_number(from)?, long_number(to)?))
}

/// A word in which each sign for a blank has become one; the sign for nothing is an empty word.
pub(crate) fn with_blanks(alloc: Global, word: &str) -> Result<String, AllocError> {
    let mut all = String::new(alloc);
    if word == "∅" {
        return Ok(all);
    }
    for (i, part) in word.split('␣').enumerate() {
        if i > 0 {
            all.push_str(" ")?;
        }
        all.push_str(part)?;
    }
    Ok(all)
}

/// The words of a command, between single blanks; nothing is no word.
pub(crate) fn command(alloc: Global, text: &str) -> Result<Vec<String>, AllocError> {
    let mut words = Vec::new(alloc);
    if text.is_empty() {
        return Ok(words);
    }
    for word in text.split(' ') {
        words.push(with_blanks(alloc, word)?)?;
    }
    Ok(words)
}

/// Adds the words, with blanks between.
pub(crate) fn join(said: &mut String, words: &[String]) -> Result<(), AllocError> {
    for (i, word) in words.iter().enumerate() {
        if i > 0 {
            said.push_str(" ")?;
        }
        said.push_str(word)?;
    }
    Ok(())
}

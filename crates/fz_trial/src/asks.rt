//! The facts that a run is to print.
use crate::amiss::Amiss;
use crate::words::{first_word, long_number, range};
use std::alloc::Global;

/// A fact that a run is to print.
#[derive(Drop)]
pub(crate) enum Ask {
    Opened,
    Made,
    Peak,
    Within(u64),
    /// Whether the reads are within these ranges.
    Reads(Vec<(u64, u64)>),
    /// Whether each byte of the range is read.
    Covers(u64, u64),
    Writes,
    Settled,
}

impl Ask {
    /// What a line asks for.
    pub(crate) fn of(alloc: Global, line: &str) -> Result<Ask, Amiss> {
        let (head, rest) = first_word(line);
        match head {
            "opened" => Ok(Ask::Opened),
            "made" => Ok(Ask::Made),
            "peak" => Ok(Ask::Peak),
            "within" => Ok(Ask::Within(long_number(rest)?)),
            "reads" => Ok(Ask::Reads(ranges(alloc, rest)?)),
            "covers" => {
                let (from, to) = range(rest)?;
                Ok(Ask::Covers(from, to))
            }
            "writes" => Ok(Ask::Writes),
            "settled" => Ok(Ask::Settled),
            _ => Err(Amiss::NotUnderstood),
        }
    }
}

// Ranges with blanks between.
fn ranges(alloc: Global, text: &str) -> Result<Vec<(u64, u64)>, Amiss> {
    let mut all = Vec::new(alloc);
    for word in text.split(' ') {
        all.push(range(word)?)?;
    }
    Ok(all)
}

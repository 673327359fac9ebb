//! The conditions of a run.
use crate::amiss::Amiss;
use crate::gates::Watch;
use crate::words::{first_word, long_number, number, with_blanks};
use std::alloc::{AllocError, Global};

/// The number of a call that does not come.
const NEVER: u32 = u32::MAX;

/// The names of the files, the numbers of the calls that fail, what a failing write keeps, the meter's limit, and what the gate
/// does.
#[derive(Drop)]
pub(crate) struct Conditions {
    pub(crate) input: String,
    pub(crate) output: String,
    pub(crate) source: u32,
    pub(crate) sink: u32,
    pub(crate) text: u32,
    pub(crate) store: u32,
    pub(crate) keep: u32,
    pub(crate) limit: u64,
    pub(crate) watch: Watch,
}

impl Conditions {
    /// Nothing fails, and there is room.
    pub(crate) fn free(alloc: Global) -> Result<Conditions, AllocError> {
        Ok(Conditions {
            input: String::from_str(alloc, "IN")?,
            output: String::from_str(alloc, "OUT")?,
            source: NEVER,
            sink: NEVER,
            text: NEVER,
            store: NEVER,
            keep: 0,
            limit: 1 << 40,
            watch: Watch::Nothing,
        })
    }

    /// Adds what a line says.
    pub(crate) fn add(&mut self, alloc: Global, line: &str) -> Result<(), Amiss> {
        let (head, rest) = first_word(line);
        match head {
            "input" => self.input = with_blanks(alloc, rest)?,
            "output" => self.output = with_blanks(alloc, rest)?,
            "limit" => self.limit = long_number(rest)?,
            "hold" | "count" => self.watch = Watch::of(head, rest)?,
            _ => return self.fail(head, rest),
        }
        Ok(())
    }

    // Sets which call fails, or what a failing write keeps.
    fn fail(&mut self, head: &str, rest: &str) -> Result<(), Amiss> {
        let n = number(rest)?;
        match head {
            "source" => self.source = n,
            "sink" => self.sink = n,
            "text" => self.text = n,
            "store" => self.store = n,
            "keep" => self.keep = n,
            _ => return Err(Amiss::NotUnderstood),
        }
        Ok(())
    }
}

//! The facts of a run.
use crate::asks::Ask;
use std::alloc::AllocError;

/// What can be asked of a run: how often its files were opened, made and waited for, what was read, how many writes a patch made,
/// and how many bytes were live at most.
#[derive(Clone, Copy)]
pub(crate) struct Facts<'a> {
    pub(crate) opened: u64,
    /// How often PATCH was opened, of a patch.
    pub(crate) given: Option<u64>,
    pub(crate) made: u64,
    pub(crate) settled: u64,
    pub(crate) reads: &'a [(u64, u64)],
    pub(crate) writes: usize,
    pub(crate) peak: u64,
}

impl Facts<'_> {
    /// Adds the facts that are asked for, a line each.
    pub(crate) fn add_to(&self, said: &mut String, asks: &[Ask]) -> Result<(), AllocError> {
        for ask in asks {
            self.add_line(said, ask)?;
        }
        Ok(())
    }

    // Adds the line of a fact.
    fn add_line(&self, said: &mut String, ask: &Ask) -> Result<(), AllocError> {
        match ask {
            Ask::Opened => self.add_opened(said),
            Ask::Made => add_count(said, "made", self.made),
            Ask::Peak => add_count(said, "peak", self.peak),
            Ask::Within(bound) => self.add_within(said, *bound),
            Ask::Reads(ranges) => self.add_reads(said, ranges),
            Ask::Covers(from, to) => self.add_covers(said, *from, *to),
            Ask::Writes => add_count(said, "writes", self.writes as u64),
            Ask::Settled => add_count(said, "settled", self.settled),
        }
    }

    fn add_opened(&self, said: &mut String) -> Result<(), AllocError> {
        let opened = self.opened;
        match self.given {
            None => add_count(said, "opened", opened),
            Some(given) => writeln!(said, "opened {opened} {given}"),
        }
    }

    fn add_within(&self, said: &mut String, bound: u64) -> Result<(), AllocError> {
        let peak = self.peak;
        if peak <= bound {
            return add_count(said, "within", bound);
        }
        writeln!(said, "peak {peak} above {bound}")
    }

    fn add_reads(&self, said: &mut String, ranges: &[(u64, u64)]) -> Result<(), AllocError> {
        for &(at, len) in self.reads {
            let end = at.saturating_add(len);
            if !is_within(ranges, at, end) {
                return writeln!(said, "reads {at}-{end} beyond these");
            }
        }
        said.push_str("reads within these\n")
    }

    fn add_covers(&self, said: &mut String, from: u64, to: u64) -> Result<(), AllocError> {
        let at = self.end_of_reads_from(from);
        if at < to {
            return writeln!(said, "does not read byte {at}");
        }
        writeln!(said, "reads all of {from}-{to}")
    }

    // The first byte from this one on that is not read.
    fn end_of_reads_from(&self, byte: u64) -> u64 {
        let mut at = byte;
        for _ in self.reads {
            at = self.end_of_reads_over(at);
        }
        at
    }

    // Where the reads of this byte end, or the byte itself if it is not read.
    fn end_of_reads_over(&self, byte: u64) -> u64 {
        let mut far = byte;
        for &(at, len) in self.reads {
            if at <= byte {
                far = far.max(at.saturating_add(len));
            }
        }
        far
    }
}

// Whether one of the ranges has all of another.
fn is_within(ranges: &[(u64, u64)], at: u64, end: u64) -> bool {
    for &(from, to) in ranges {
        if from <= at && end <= to {
            return true;
        }
    }
    false
}

// Adds a line of a word and a number.
fn add_count(said: &mut String, word: &str, count: u64) -> Result<(), AllocError> {
    writeln!(said, "{word} {count}")
}

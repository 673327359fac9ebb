//! How a run ended, as far as that is explained.
use fz_base::Fault;

/// How a run ended.
#[derive(Clone, Copy, Debug, PartialEq, Eq)]
pub enum Ended {
    /// There is nothing to explain.
    Quiet,
    /// The words ask for nothing.
    Usage,
    /// A file is refused.
    Refused(Fault),
    /// A file could not be read.
    ReadFault,
    /// A file or standard output could not be written.
    WriteFault,
    /// A buffer would have passed the limit on memory.
    OverLimit { live: u64, asked: u64, limit: u64 },
}

/// The call that failed first of the file that a run writes: OUT, or FILE of `patch`.
#[derive(Clone, Copy, Debug, PartialEq, Eq)]
pub enum Failing {
    /// None did.
    Nothing,
    /// It could not be made, or opened.
    Opening,
    /// It could not be read.
    Reading,
    /// It could not be written.
    Writing,
}

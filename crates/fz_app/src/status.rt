//! How a run ends.
ghost use Rattle.std.specs.Prelude.{◌≡◌};
ghost use Rattle.fz_app.specs.Answer.{status_of, status_of_verify};
ghost use Rattle.fz_app.specs.Status.{status_number};

use fz_base::{Fault, Stop};

/// How a run of the program ends. Its number is the exit status.
#[derive(Clone, Copy, Debug, PartialEq, Eq)]
pub enum Status {
    /// The job's output is as defined.
    Done,
    /// `verify` printed all its lines, and one says `wrong` or `strict no`.
    Different,
    /// The words are outside the grammar.
    Usage,
    /// The file is refused.
    Refused(Fault),
    /// The source could not be read.
    ReadFault,
    /// The sink or the text could not be written.
    WriteFault,
    /// A buffer would have passed the limit on memory.
    OverLimit { live: u64, asked: u64, limit: u64 },
    /// There was no memory.
    NoMemory,
}

impl Status {
    /// The exit status, from 0 to 7.
    pub fn number(&self) -> u32
        ensures { result ≡ status_number self.now }
    {
        match self {
            Status::Done => 0,
            Status::Different => 1,
            Status::Usage => 2,
            Status::Refused(_) => 3,
            Status::ReadFault => 4,
            Status::WriteFault => 5,
            Status::OverLimit { .. } => 6,
            Status::NoMemory => 7,
        }
    }
}

/// How a run ends whose job answered.
pub(crate) fn ended(answer: Result<(), Stop>) -> Status
    ensures { result ≡ status_of answer }
{
    match answer {
        Ok(()) => Status::Done,
        Err(Stop::Refused(fault)) => Status::Refused(fault),
        Err(Stop::ReadFault) => Status::ReadFault,
        Err(Stop::WriteFault) => Status::WriteFault,
        Err(Stop::OverLimit { live, asked, limit }) => Status::OverLimit { live, asked, limit },
        Err(Stop::NoMemory) => Status::NoMemory,
    }
}

/// How a run ends whose verifying answered whether all is right.
pub(crate) fn verified(answer: Result<bool, Stop>) -> Status
    ensures { result ≡ status_of_verify answer }
{
    match answer {
        Ok(true) => Status::Done,
        Ok(false) => Status::Different,
        Err(stop) => ended(Err(stop)),
    }
}

//! What a call answers if it could not do its work.
ghost use Rattle.std.specs.Prelude.{◌≡◌};
ghost use Rattle.fz_base.specs.Stop.{stop_of_read, stop_of_write, stop_of_short};

use crate::Fault;
use thiserror::Error;

/// Why a call of a source, a sink or a text failed.
#[derive(Clone, Copy, Debug, PartialEq, Eq, Error)]
pub enum Failed {
    /// The object's count of faults rose in this call.
    #[error("Fault")]
    Fault,
    /// The object's count of wants rose in this call: there was no memory for it.
    #[error("NoMemory")]
    NoMemory,
}

/// There was no memory.
#[derive(Clone, Copy, Debug, PartialEq, Eq)]
pub struct NoMemory;

/// Why a meter did not give a buffer.
#[derive(Clone, Copy, Debug, PartialEq, Eq, Error)]
pub enum Short {
    /// There was no memory.
    #[error("NoMemory")]
    NoMemory,
    /// The bytes that are live and those asked for pass the limit.
    #[error("OverLimit")]
    OverLimit { live: u64, asked: u64, limit: u64 },
}

/// Why a job or a part of it stopped.
#[derive(Clone, Copy, Debug, PartialEq, Eq, Error)]
pub enum Stop {
    /// The file is refused.
    #[error("Refused")]
    Refused(Fault),
    /// The source could not be read.
    #[error("ReadFault")]
    ReadFault,
    /// The sink or the text could not be written.
    #[error("WriteFault")]
    WriteFault,
    /// A buffer would have passed the meter's limit.
    #[error("OverLimit")]
    OverLimit { live: u64, asked: u64, limit: u64 },
    /// There was no memory.
    #[error("NoMemory")]
    NoMemory,
}

impl Stop {
    /// What a failed read makes of the call that read.
    pub fn reading(failed: Failed) -> Stop
        ensures { result ≡ stop_of_read failed }
    {
        match failed {
            Failed::Fault => Stop::ReadFault,
            Failed::NoMemory => Stop::NoMemory,
        }
    }

    /// What a failed write makes of the call that wrote.
    pub fn writing(failed: Failed) -> Stop
        ensures { result ≡ stop_of_write failed }
    {
        match failed {
            Failed::Fault => Stop::WriteFault,
            Failed::NoMemory => Stop::NoMemory,
        }
    }
}

impl From<Short> for Stop {
    ghost from_gives = { λ short stop. stop ≡ stop_of_short short };

    fn from(short: Short) -> Stop {
        match short {
            Short::NoMemory => Stop::NoMemory,
            Short::OverLimit { live, asked, limit } => Stop::OverLimit { live, asked, limit },
        }
    }
}

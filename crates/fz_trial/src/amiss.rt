//! Why a line was not done.
use std::alloc::{AllocError, AllocFailed};

/// Why a line was not done.
#[derive(Clone, Copy)]
pub(crate) enum Amiss {
    /// It is none of the language.
    NotUnderstood,
    NoMemory,
}

impl From<AllocError> for Amiss {
    fn from(_error: AllocError) -> Amiss {
        Amiss::NoMemory
    }
}

impl<T: Drop> From<AllocFailed<T>> for Amiss {
    fn from(_error: AllocFailed<T>) -> Amiss {
        Amiss::NoMemory
    }
}

//! What the workers do with their tiles, and how they begin.
ghost use Rattle.std.specs.Prelude.{◌≡◌};
ghost use Rattle.fz_pool.specs.Slots.{task_of};

use crate::Slot;

// From so many pixels on a tile takes longer than the start of some threads.
const LARGE: u32 = 16_384;

/// What is done with the tiles of a call.
#[derive(Clone, Copy, Debug, PartialEq, Eq)]
pub enum Task {
    /// Each becomes bytes.
    Encode,
    /// Each becomes numbers.
    Decode,
}

impl Task {
    /// To encode, or else to decode.
    pub(crate) fn of(encode: bool) -> Task
        ensures { result ≡ task_of encode }
    {
        if encode { Task::Encode } else { Task::Decode }
    }
}

/// How the workers of a call begin.
#[derive(Clone, Copy)]
pub(crate) enum Start {
    /// All at once, as many as there are processors: for large tiles.
    AtOnce,
    /// One after the other, while that pays.
    OnDemand,
    /// Beside a job, for so many pixels.
    Beside(u64),
}

impl Start {
    /// The start of a call that does nothing beside its tiles, of which this is the first.
    pub(crate) fn of(first: &Slot) -> Start {
        if first.job.pixels >= LARGE {
            Start::AtOnce
        } else {
            Start::OnDemand
        }
    }

    /// The start of a call that does a job beside so many tiles, of which this is the first.
    pub(crate) fn with_job(first: &Slot, count: u32) -> Start {
        Start::Beside(u64::from(first.job.pixels) * u64::from(count))
    }
}

//! What the bounds of the jobs promise: no code runs.
ghost use Rattle.fz_job.specs.Bounds.{NoBoundIsGreater};

use fz_files::{buffers_law, limits_law};

/// The bound of a job on a file is at most the greatest bound of the job, for every file and every number of workers.
pub fn greatest_bound_law()
    ensures { NoBoundIsGreater }
{
    buffers_law();
    limits_law();
}

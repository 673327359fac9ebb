//! How the promises of a job follow from its stages: no code runs.
ghost use Rattle.fz_job.specs.Ends.{BlockEnds, BuffersComeBack, CausesAnswer, LookEnds, PassesLater, PeaksAreReached, PeaksStayWithin, SizesFit, WorkEnds};

use crate::survey_laws::workspace_law;
use fz_base::takings_law;
use fz_files::buffers_law;

/// A job on a file takes one block, looks at the headers, takes the buffers that its work wants, and works: what these
/// stages say of why they ended, of the takings and of the peak gives the job's cause, its answer and its peak.
///
/// `T` is what the job answers with if it is done: a law of its clauses for every answer has it.
pub fn stages_law<T>()
    ensures block { BlockEnds T }
    ensures look { LookEnds T }
    ensures work { WorkEnds T }
    ensures answers { CausesAnswer T }
    ensures peaks { PeaksStayWithin }
    ensures reached { PeaksAreReached }
    ensures passes { PassesLater }
    ensures sizes { SizesFit }
    ensures back { BuffersComeBack }
{
    buffers_law();
    takings_law();
    workspace_law();
}

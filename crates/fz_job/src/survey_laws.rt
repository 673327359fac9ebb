//! What the definitions of a job's first look and of its buffers promise together: no code runs.
ghost use Rattle.fz_job.specs.SurveyLaws.{AmendLooksOver, CutLooksOver, EveryLooksOver, PackLooksOver, UnpackLooksOver};
ghost use Rattle.fz_job.specs.Workspace.{BoundGrows, HoldsWhatItTook, PassesNoLimit, PassesWithinAll, StaysInBound};

use fz_pool::sizes_law;

/// What is held is what was taken, as long as no buffer changes its length. With the block that is live before,
/// all that a job takes is within its bound, and passes no limit that is at least that. The bound is no smaller for
/// a longer header and a larger tile; a taking that passes the limit first passes none that all together do not.
pub fn workspace_law()
    ensures held { HoldsWhatItTook }
    ensures bound { StaysInBound }
    ensures grows { BoundGrows }
    ensures within { PassesNoLimit }
    ensures past { PassesWithinAll }
{
    sizes_law();
}

/// The first look of a job goes over the headers that the job's judge goes over: it sees these, learns what is
/// learnt of them, and takes each of them once.
pub fn survey_law()
    ensures pack { PackLooksOver }
    ensures unpack { UnpackLooksOver }
    ensures cut { CutLooksOver }
    ensures amend { AmendLooksOver }
    ensures every { EveryLooksOver }
{}

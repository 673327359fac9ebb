//! What the first look says of a file: no code runs.
ghost use Rattle.fz_pack.specs.Known.{SurveysKnow, SurveysRefuse};
ghost use Rattle.fz_pack.specs.Reads.{HdusAreTouched, LooksAreTouched};

use fz_block::{found_hdus_law, found_law, hdu_law, hdu_list_law, walk_law};
use fz_files::reached_law;

/// A survey of a file knows its HDUs, the longest header and the largest tile; a fault that it gives is the first of
/// the file's headers.
pub(crate) fn known_law()
    ensures know { SurveysKnow }
    ensures refuse { SurveysRefuse }
{
    found_hdus_law();
    found_law();
    hdu_law();
    hdu_list_law();
    walk_law();
}

/// What the first look reads, and what is read after it of the HDUs that it saw, are bytes that the job may read.
pub(crate) fn touched_law()
    ensures look { LooksAreTouched }
    ensures hdus { HdusAreTouched }
{
    reached_law();
}

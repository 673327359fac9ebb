//! What the first look says of a file: no code runs.
ghost use Rattle.fz_files.specs.declared.job.Job.{Job};
ghost use Rattle.fz_job.specs.Hdus.{UnpacksWithin, VerifiesWithin, DataAreOfHdus, HeaderIsOfHdus, KnownAreTouched, TilesAreOfImage};
ghost use Rattle.fz_job.specs.Headers.{HeadersAreSeen, LooksReadHeaders};
ghost use Rattle.fz_job.specs.Known.{ChecksAsUnpack, SurveysKnow, SurveysRefuse};

use fz_base::ranges_law;
use fz_block::{found_hdus_law, found_law, hdu_law, walk_law};
use fz_files::reached_law;

/// A survey of a file with the checks of `unpack` knows its headers, the longest of them and the largest tile, and a
/// fault that it gives is the first of the file's headers: for each job that makes these checks.
pub fn known_law()
    ensures know { (job : Job) → ChecksAsUnpack job → SurveysKnow job }
    ensures refuse { (job : Job) → ChecksAsUnpack job → SurveysRefuse job }
{
    found_hdus_law();
    found_law();
    hdu_law();
    walk_law();
}

/// The first look with the checks of `unpack` reads the headers that the job comes to and nothing else, and these are
/// the headers that it saw: for each job that makes these checks.
pub fn headers_law()
    ensures look { (job : Job) → ChecksAsUnpack job → LooksReadHeaders job }
    ensures seen { (job : Job) → ChecksAsUnpack job → HeadersAreSeen job }
{
    reached_law();
}

/// What is read of one of the HDUs of a file, after the first look, is what the job reads of all of them; and if the
/// file is known, that is what the job reads of the file.
pub fn hdus_law()
    ensures header { (job : Job) → HeaderIsOfHdus job }
    ensures payload { (job : Job) → DataAreOfHdus job }
    ensures tiles { TilesAreOfImage }
    ensures unpacked { UnpacksWithin }
    ensures verified { VerifiesWithin }
    ensures known { (job : Job) → ChecksAsUnpack job → KnownAreTouched job }
{
    headers_law();
    ranges_law();
}

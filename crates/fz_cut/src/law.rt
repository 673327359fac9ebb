//! What the first look says of a file, what a cut reads of it, and what a cutout is: no code runs.
ghost use Rattle.fz_cut.specs.Laws.{LooksAreTouched, PartsBegin, WorkIsTouched};
ghost use Rattle.fz_files.specs.Picks.{HasPicks};
ghost use Rattle.fz_cut.specs.Slices.{CutoutsAreSlices, SinksHoldSlices};
ghost use Rattle.fz_cut.specs.Known.{SurveysKnow, SurveysRefuse};

use crate::boxes::tables_law;
use fz_block::{found_hdus_law, hdu_at_law, walk_law};
use fz_card::{card_laws, first_of_name_law};
use fz_checks::packed_image_law;
use fz_files::one_cutout_law;
use fz_grid::{Sieve, shape_law, tile_pixels_law};

/// A survey of a file that a part is cut from knows the HDU, the longest header and the largest tile; a fault that it
/// gives is the first of the file's headers.
pub(crate) fn known_law()
    ensures know { SurveysKnow }
    ensures refuse { SurveysRefuse }
{
    found_hdus_law();
    hdu_at_law();
    packed_image_law();
    shape_law();
    tile_pixels_law();
    walk_law();
}

/// What the first look reads, and the work after it, lies in the touched ranges.
pub(crate) fn touched_law()
    ensures look { LooksAreTouched }
    ensures work { WorkIsTouched }
{
    hdu_at_law();
    walk_law();
}

/// A part begins with the S of SIMPLE.
pub(crate) fn parts_law()
    ensures { PartsBegin }
{
    card_laws();
    first_of_name_law();
}

/// A cutout by this sieve is a slice of the whole: for every file that the packed file stands for, its data are the
/// numbers of the image there at the picks, axis 1 fastest.
pub fn slice_law(sieve: &Sieve)
    requires { HasPicks sieve.now }
    ensures files { CutoutsAreSlices sieve.now }
    ensures sink { SinksHoldSlices sieve.now }
{
    tables_law(sieve);
    one_cutout_law();
    found_hdus_law();
    walk_law();
}

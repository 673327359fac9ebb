//! The laws of the definitions: no code runs.
ghost use Rattle.fz_files.specs.Buffers.{AreBounded};
ghost use Rattle.fz_files.specs.Laws.{BoundRises, CutsOutOneFile, DrillIsBounded, HasOneFirstFault, HdusArePacked};
ghost use Rattle.fz_files.specs.Laws.{ListRefusesHeaders, PicksCutOneFile, PrimariesStandFirst, ReachedAreFound};
ghost use Rattle.fz_files.specs.Laws.{ReachedLieWithin, StandsForOneFile, TablesAreHdus, TablesAreAccepted, TablesAreRefused};
ghost use Rattle.fz_files.specs.Laws.{TablesPass, TablesStandForImages, TablesWerePrimary, VerifyRefusesAsUnpack};

use fz_block::{cards_law, found_law, hdu_at_law, walk_law};
use fz_checks::{image_to_pack_law, packed_image_law, plan_to_pack_law, primary_law};
use fz_grid::{picked_tiles_law, shape_law, tile_pixels_law, tiles_law};
use fz_head::{accepted_law, sum_cards_law, there_and_back_law, whole_cards_law};
use fz_sum::sum_law;
use fz_table::descriptor_law;
use fz_tile::{column_law, one_fault_law, one_record_law, plain_law, slice_law, tile_code_law};

/// No taking of a job on a file passes its bound, for every file and every number of workers: the bound is that of
/// the longest header and the largest tile that the job meets. The bound rises with these and with the workers; and no
/// taking of `drill` passes its bound, if the bounds of the jobs that it runs do not.
pub fn buffers_law()
    ensures bounded { AreBounded }
    ensures monotone { BoundRises }
    ensures drill { DrillIsBounded }
{}

/// A file has at most one first fault for a job: it has none, or it has this one.
pub fn one_first_fault_law()
    ensures { HasOneFirstFault }
{
    one_fault_law();
    packed_image_law();
    walk_law();
}

/// The first fault of a file for `verify` is that for `unpack`, and for `list` it is that of the headers for `unpack`.
pub fn same_faults_law()
    ensures verify { VerifyRefusesAsUnpack }
    ensures list { ListRefusesHeaders }
{}

/// The HDUs that the checks of a job come to are those whose headers it looks at, if none is refused; and what is
/// read of their headers lies within the file.
pub fn reached_law()
    ensures found { ReachedAreFound }
    ensures within { ReachedLieWithin }
{
    hdu_at_law();
}

/// A packed file stands for at most one file.
pub fn one_file_law()
    ensures { StandsForOneFile }
{
    one_record_law();
    packed_image_law();
    tiles_law();
    walk_law();
}

/// At most one file is cut from a packed file by a sieve of the image.
pub fn one_cutout_law()
    ensures { CutsOutOneFile }
{
    one_record_law();
    packed_image_law();
    picked_tiles_law();
    walk_law();
}

/// The same of every sieve that a cut may be asked for, with no premise on the file.
pub fn one_picked_file_law()
    ensures { PicksCutOneFile }
{
    one_record_law();
    packed_image_law();
    picked_tiles_law();
    walk_law();
}

/// The table of an image that `pack` takes, after the first HDU of whatever file: no check of `unpack` refuses it, it
/// stands for the image, it was a primary if the image is one, and `pack` refuses it at its card ZIMAGE.
pub fn table_law()
    ensures passes { TablesPass }
    ensures accepted { TablesAreAccepted }
    ensures stands { TablesStandForImages }
    ensures primary { TablesWerePrimary }
    ensures refused { TablesAreRefused }
{
    accepted_law();
    cards_law();
    column_law();
    descriptor_law();
    found_law();
    image_to_pack_law();
    plain_law();
    shape_law();
    slice_law();
    sum_cards_law();
    sum_law();
    there_and_back_law();
    tile_code_law();
    tile_pixels_law();
    tiles_law();
    whole_cards_law();
}

/// What an HDU becomes in a packed file, by the facts at its own place: the table of an image that can be packed,
/// which is one HDU, after the empty primary if the image is the primary; or its own bytes.
pub fn packed_hdu_law()
    ensures packed { HdusArePacked }
    ensures before { PrimariesStandFirst }
    ensures table { TablesAreHdus }
{
    plan_to_pack_law();
    primary_law();
}

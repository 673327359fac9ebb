//! The laws of restored files and of cutouts: no code runs.
ghost use Rattle.fz_laws.specs.Outputs.{CutoutIsFound, CutoutIsPlain, PackedNumbers, RestoredCount, RestoredIsFound, RestoredIsPlain};
ghost use Rattle.fz_laws.specs.PackedCuts.{CutoutsAreAlike, CutoutsAreParts, CutsAreRefused, CutsAreSound, FaultsAreAlike};
ghost use Rattle.fz_laws.specs.PackedCuts.{PartsAreCutouts, WholeCutoutsHaveAll};
ghost use Rattle.fz_laws.specs.OutputsTaken.{CutsLaws, OutLaws, WalkLaws};

use crate::round_trip::{cutout_file_law, packed_hdus_law, round_trip_law};
use fz_block::{cards_law, found_hdus_law, found_law, passing_law, walk_law};
use fz_card::{card_laws, renamed_value_law, shifted_card_law};
use fz_checks::{packed_image_law, packed_primary_law};
use fz_files::{one_first_fault_law, one_picked_file_law, same_faults_law, table_law};
use fz_grid::{cutout_law, place_law};
use fz_head::{sizes_law, whole_cards_law};
use fz_tile::{plain_law, slice_law};

// What the laws of HDUs that come out take from those of the crates below.
fn out_laws()
    ensures { OutLaws }
{
    card_laws();
    cards_law();
    packed_image_law();
    packed_primary_law();
    passing_law();
    plain_law();
    renamed_value_law();
    sizes_law();
    whole_cards_law();
}

// What the laws of their files take.
fn walk_laws()
    ensures { WalkLaws }
{
    found_hdus_law();
    passing_law();
    same_faults_law();
    walk_law();
}

// What the laws of cuts of a packed file take.
fn cuts_laws()
    ensures { CutsLaws }
{
    one_first_fault_law();
    packed_hdus_law();
    round_trip_law();
    table_law();
    walk_law();
    walk_laws();
}

/// Every HDU of the file that a packed file stands for, whoever packed it, passes the checks that all jobs have in
/// common, and the file ends with the last of them, if it has at most 2^62 bytes. No HDU of it is a packed image, and `unpack`,
/// `verify` and `list` find no fault in it. It has an HDU for each of the packed file that stands for something: of the
/// same number, or one less if the packed file has a primary before a packed primary.
pub fn restored_output_law()
    ensures found { RestoredIsFound }
    ensures plain { RestoredIsPlain }
    ensures count { RestoredCount }
    ensures numbers { PackedNumbers }
{
    out_laws();
    walk_laws();
}

/// A cutout of at most 2^62 bytes, by a box with a pick along each axis, is one primary image that passes the checks
/// that all jobs have in common, with the BITPIX of the image that it is cut from and along each axis as many pixels as
/// picks; nothing follows it. `unpack`, `verify` and
/// `list` find no fault in it.
pub fn cutout_output_law()
    ensures found { CutoutIsFound }
    ensures plain { CutoutIsPlain }
{
    cutout_law();
    found_hdus_law();
    out_laws();
    packed_image_law();
    shifted_card_law();
    sizes_law();
    walk_laws();
    whole_cards_law();
}

/// What a cut of a packed file finds, by the file that was packed: whether it is rejected, of which HDU and with which
/// kind. So that does not depend on the options that the file was packed with; the place of the fault in the HDU may.
/// A packed file has at most 2^62 bytes.
pub fn packed_refusal_law()
    ensures refused { CutsAreRefused }
    ensures sound { CutsAreSound }
    ensures options { FaultsAreAlike }
{
    cuts_laws();
}

/// A cutout of a packed file is a slice of the file that was packed: the cards of the image that is asked for, with
/// other lengths, and its pixels at the picks; and if no cut is rejected, that slice is the cutout. One of all pixels
/// has all data of the image. So a cutout does not depend on the options that the file was packed with.
pub fn packed_slice_law()
    ensures part { CutoutsAreParts }
    ensures made { PartsAreCutouts }
    ensures whole { WholeCutoutsHaveAll }
    ensures options { CutoutsAreAlike }
{
    cutout_file_law();
    cuts_laws();
    found_law();
    one_picked_file_law();
    out_laws();
    place_law();
    plain_law();
    slice_law();
    table_law();
}

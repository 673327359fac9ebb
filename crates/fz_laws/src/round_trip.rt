//! The laws of first faults, of the packed file, and of both ways: no code runs.
ghost use Rattle.fz_files.specs.Laws.{PicksCutOneFile};
ghost use Rattle.fz_laws.specs.PackedHdus.{HdusBecome, TablesHaveSums};
ghost use Rattle.fz_laws.specs.RoundTrip.{ComesBack, OnlyTheFileComesBack, HasCutout, HasFirstFault, HasNoOtherFault};
ghost use Rattle.fz_laws.specs.RoundTrip.{HasOnePackedFile, HasPackedFile, HasRestoredFile, ImageArraysStand, LosesNothing};
ghost use Rattle.fz_laws.specs.RoundTrip.{OptionsDoNotMatter, PackCopies, RestoredAreBytes, StandsForNoOther, StandsForRestored};
ghost use Rattle.fz_laws.specs.RoundTrip.{SumsAreRight, UnpackCopies, WorkersDoNotMatter, PackedIsFound, StandsForExactly};
ghost use Rattle.fz_laws.specs.RoundTripTaken.{RestoringLaws, SumLaws, WayLaws};

use fz_block::{cards_law, found_hdus_law, hdu_list_law, passing_law, start_law, walk_law};
use fz_card::card_laws;
use fz_checks::{image_to_pack_law, packed_image_law};
use fz_files::{one_file_law, one_picked_file_law, table_law};
use fz_grid::{shape_law, tiles_law};
use fz_head::{sum_cards_law, whole_cards_law};
use fz_sum::{all_ones_law, characters_law, datasum_law, sum_law, verdicts_law};
use fz_tile::{one_fault_law, one_record_law, plain_law};

// What the laws of first faults, of restored files and of cutouts take from those of the crates below.
fn image_laws()
    ensures { RestoringLaws }
{
    found_hdus_law();
    one_fault_law();
    one_record_law();
    packed_image_law();
    plain_law();
    shape_law();
    tiles_law();
    walk_law();
}

// What the laws of the way there and back take.
fn way_laws()
    ensures { WayLaws }
{
    found_hdus_law();
    hdu_list_law();
    passing_law();
    start_law();
    table_law();
    walk_law();
}

// What the laws of the sums of a table take.
fn sum_laws()
    ensures { SumLaws }
{
    all_ones_law();
    card_laws();
    cards_law();
    characters_law();
    datasum_law();
    image_to_pack_law();
    sum_cards_law();
    sum_law();
    table_law();
    verdicts_law();
    whole_cards_law();
}

/// Every file of bytes has a first fault or none for a job, which a plain function of its bytes says, and no file has
/// another.
pub fn first_fault_law()
    ensures some { HasFirstFault }
    ensures only { HasNoOtherFault }
{
    image_laws();
}

/// A file in which `pack` finds no fault has a packed file, and every file has at most one: so what `pack` writes is
/// known by the file and the options only. It does not depend on the number of workers, and a file of which no HDU
/// can be packed is its own packed file. Every HDU of one of at most 2^62 bytes passes the checks of every job.
pub fn packed_file_law()
    ensures some { HasPackedFile }
    ensures one { HasOnePackedFile }
    ensures workers { WorkersDoNotMatter }
    ensures copies { PackCopies }
    ensures found { PackedIsFound }
{
    hdu_list_law();
    way_laws();
}

/// A packed file in which `unpack` finds no fault stands for a file, and by `one_file_law` for no other. A file
/// without a packed image stands for itself.
pub fn restored_file_law()
    ensures some { HasRestoredFile }
    ensures copies { UnpackCopies }
{
    hdu_list_law();
    packed_image_law();
    shape_law();
    tiles_law();
    walk_law();
}

/// The file that a packed file stands for is a plain function of its bytes; and whether it stands for one is known by
/// `first_fault`.
pub fn restored_law()
    ensures stands { StandsForRestored }
    ensures only { StandsForNoOther }
    ensures exactly { StandsForExactly }
{
    image_laws();
    one_file_law();
}

/// The rows of each image of a packed file in which `unpack` finds no fault stand for the array that its bytes say.
pub fn image_arrays_law()
    ensures { ImageArraysStand }
{
    image_laws();
}

/// What a file of bytes stands for are bytes.
pub fn restored_bytes_law()
    ensures { RestoredAreBytes }
{
    card_laws();
}

/// The packed file of a file that `pack` takes has no fault of `unpack`, and stands for the file; a packed file has at
/// most 2^62 bytes.
pub fn round_trip_law()
    ensures { ComesBack }
{
    way_laws();
}

/// What becomes of each HDU of a file that `pack` takes, in its packed file: the table of an image that can be packed,
/// or the same bytes. These are all HDUs of the packed file but for the primary before a packed primary. The table has
/// the cards DATASUM and CHECKSUM if the options ask for sums, and else neither.
pub fn packed_hdus_law()
    ensures each { HdusBecome }
    ensures sums { TablesHaveSums }
{
    sum_laws();
    way_laws();
}

/// Nothing is lost on the way there: what the packed file stands for is the file, and two files with one packed file
/// are one file. So the options do not matter to what comes back.
pub fn lossless_law()
    ensures same { OnlyTheFileComesBack }
    ensures one { LosesNothing }
    ensures options { OptionsDoNotMatter }
{
    one_file_law();
    round_trip_law();
}

/// A packed file in which `cut` finds no fault has a cutout, and by a sieve with picks no other.
pub fn cutout_file_law()
    ensures some { HasCutout }
    ensures one { PicksCutOneFile }
{
    image_laws();
    one_picked_file_law();
}

/// If the options ask for sums, `verify` finds DATASUM and CHECKSUM of each table of the packed file right; a packed
/// file has at most 2^62 bytes.
pub fn sums_file_law()
    ensures { SumsAreRight }
{
    sum_laws();
    way_laws();
}

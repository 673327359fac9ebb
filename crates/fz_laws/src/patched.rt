//! The laws of patches: no code runs.
ghost use Rattle.fz_laws.specs.Grown.{CountsGrow, FormsChange, GrownHeadersSayMore, OneMoreIsAmended, SumsChange};
ghost use Rattle.fz_laws.specs.PatchLaws.{AllWritesPatch, AllWritesTile, AmendedHeadersSayTheSame, AnyOfAStepIsSafe, CardsStandInPlace, EachPrefixIsSafe};
ghost use Rattle.fz_laws.specs.PatchLaws.{HasOnePatch, HasOnePatchFault, HasWritesOrFault};
ghost use Rattle.fz_laws.specs.PatchLaws.{KeptRowsStand, NewNumbersAreGiven, NewNumbersStay, NewRowsStand, OthersKeepNumbers};
ghost use Rattle.fz_laws.specs.PatchLaws.{PatchIsBounded, PatchesAgain, PatchesAgainCutBack, TargetsAreGiven, TilesAreReplaced, WritesAreInOrder};
ghost use Rattle.fz_laws.specs.PatchTables.{FormsHaveTables};
ghost use Rattle.fz_laws.specs.PatchTaken.{PatchLaws, SafeLaws, TakenLaws, TileLaws};

use fz_base::places_law;
use fz_block::{cards_law, found_hdus_law, found_law, hdu_at_law, start_law};
use fz_card::{card_laws, first_of_name_law};
use fz_checks::packed_image_law;
use fz_files::table_reads_law;
use fz_grid::{cutout_law, place_law, shape_law, tile_pixels_law, tiles_law};
use fz_head::sum_cards_law;
use fz_sum::{all_ones_law, characters_law, datasum_law, sum_law, verdicts_law, with_card_law};
use fz_table::descriptor_law;
use fz_tile::{column_law, one_fault_law, one_record_law, plain_law, tile_code_law};

/// A header in which a patch changed cards passes every check that it passed before, and says the same image.
pub fn amended_header_law()
    ensures { AmendedHeadersSayTheSame }
{
    card_laws();
    cards_law();
}

/// The cards that a patch may put in the place of others in a packed header: PCOUNT, forms and checksums. A header in which
/// they were put says the same image, whose heap is longer by what PCOUNT says more.
pub fn grown_header_law()
    ensures count { CountsGrow }
    ensures forms { FormsChange }
    ensures sums { SumsChange }
    ensures more { OneMoreIsAmended }
    ensures says { GrownHeadersSayMore }
{
    amended_header_law();
    card_laws();
    with_card_law();
}

/// A card that is written in place is in the header of the file, and all others stay.
pub fn card_in_file_law()
    ensures { CardsStandInPlace }
{}

/// The table of a header that has the form of one that can be patched: its columns, its rows, its heap and its data.
pub fn form_law()
    ensures { FormsHaveTables }
{}

/// The given image of a patch has its pixels, and lies within the packed one. The new numbers of tiles: those of the array
/// with its box replaced; those of the given image at the pixels of the box, line by line; and the old ones at all others.
pub fn new_numbers_law()
    ensures target { TargetsAreGiven }
    ensures tiles { TilesAreReplaced }
    ensures others { OthersKeepNumbers }
    ensures given { NewNumbersAreGiven }
    ensures stay { NewNumbersStay }
{
    cutout_law();
    hdu_at_law();
    place_law();
    plain_law();
    tiles_law();
}

// What the laws of rows take from those of the crates below.
fn row_laws()
    ensures { TakenLaws }
{
    found_hdus_law();
    hdu_at_law();
    one_fault_law();
    one_record_law();
    packed_image_law();
}

/// A row stands for the same numbers if its descriptors and its record stay, and the heap goes at least as far.
pub fn kept_rows_law()
    ensures { KeptRowsStand }
{
    amended_header_law();
    row_laws();
}

/// A patch has one first fault at most, and one list of writes exactly if it has none.
pub fn one_patch_law()
    ensures one { HasOnePatch }
    ensures fault { HasOnePatchFault }
    ensures writes { HasWritesOrFault }
{
    row_laws();
}

/// No taking of a patch passes its bound.
pub fn patch_buffers_law()
    ensures { PatchIsBounded }
{
    hdu_at_law();
}

// What the laws of the numbers and the codes of tiles take from those of the crates below.
fn tile_laws()
    ensures { TileLaws }
{
    column_law();
    place_law();
    plain_law();
    shape_law();
    tile_code_law();
    tile_pixels_law();
}

/// A row that describes the code of the new numbers of a tile stands for these.
pub fn new_row_law()
    ensures { NewRowsStand }
{
    amended_header_law();
    descriptor_law();
    new_numbers_law();
    row_laws();
    tile_laws();
}

// What the laws of the writes take.
fn write_laws()
    ensures { PatchLaws }
{
    card_laws();
    cards_law();
    new_numbers_law();
    row_laws();
    sum_cards_law();
    sum_law();
    tile_laws();
    with_card_law();
}

/// Every write of a patch begins within the file or at the end of the one before it, so that none leaves a gap.
pub fn writes_in_order_law()
    ensures { WritesAreInOrder }
{
    write_laws();
}

// What the laws of a file after some of the writes take.
fn safe_laws()
    ensures { SafeLaws }
{
    amended_header_law();
    found_law();
    hdu_at_law();
    kept_rows_law();
    new_row_law();
    places_law();
    start_law();
    write_laws();
}

/// After every prefix of the writes of a patch the file is safe to read: a cut finds the image, and each tile that had
/// numbers has them, or its new ones.
pub fn safe_patch_law()
    ensures { EachPrefixIsSafe }
{
    safe_laws();
}

/// After all steps of a patch before one, and any of the writes of that, the file is safe to read, as after a prefix: that is
/// what a loss of power can leave, where each step is on the disk before the next one begins, and each write is made whole
/// or not at all.
pub fn safe_step_law()
    ensures { AnyOfAStepIsSafe }
{
    safe_laws();
}

/// After a stop the same patch passes the checks of headers and rows again: from the write of PCOUNT on as the file is, and
/// before it if the file is cut back to the length that it had. `unpack` rejects no header then that it accepted before.
pub fn patch_again_law()
    ensures again { PatchesAgain }
    ensures back { PatchesAgainCutBack }
{
    safe_laws();
}

/// After all writes of a patch each tile with a pixel in the box has its new numbers, every other that had numbers has
/// them, and the HDU still ends with the file.
pub fn new_tiles_law()
    ensures { AllWritesTile }
{
    safe_laws();
}

/// After all writes of a patch the file is patched: it stands for what it stood for, with the box replaced, and each
/// checksum of the HDU that was there is right.
pub fn whole_patch_law()
    ensures { AllWritesPatch }
{
    all_ones_law();
    characters_law();
    datasum_law();
    first_of_name_law();
    new_numbers_law();
    new_tiles_law();
    safe_laws();
    table_reads_law();
    verdicts_law();
}

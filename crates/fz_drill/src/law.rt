//! What the jobs do with the files of `drill`: no code runs.
ghost use Rattle.fz_drill.specs.Jobs.{FilesArePacked, FilesComeBack, PartsAreCut};
ghost use Rattle.fz_drill.specs.Taken.{FileLaws, PackedLaws};

use fz_block::{cards_law, found_law, hdu_at_law, hdu_list_law, passing_law, start_law};
use fz_card::card_laws;
use fz_files::{one_cutout_law, one_file_law, table_law};
use fz_head::{accepted_law, there_and_back_law, whole_cards_law};
use fz_laws::round_trip_law;
use fz_tile::{plain_law, slice_law};

// What the laws of the file take from those of the crates below.
fn file_laws()
    ensures { FileLaws }
{
    card_laws();
    cards_law();
    found_law();
    plain_law();
}

/// What the laws of the packed file take.
pub(crate) fn packed_laws()
    ensures { PackedLaws }
{
    accepted_law();
    file_laws();
    hdu_at_law();
    hdu_list_law();
    passing_law();
    start_law();
    table_law();
    whole_cards_law();
}

/// `pack` refuses nothing of the file of so many rows, stays within the bound, and makes one packed file of it.
pub(crate) fn packs_law()
    ensures { FilesArePacked }
{
    file_laws();
    hdu_list_law();
}

/// `unpack` refuses nothing of that, stays within the bound, and makes the file again.
pub(crate) fn unpacks_law()
    ensures { FilesComeBack }
{
    one_file_law();
    packed_laws();
    packs_law();
    round_trip_law();
}

/// `cut` refuses nothing of it either, stays within the bound, and makes the part.
pub(crate) fn cuts_law()
    ensures { PartsAreCut }
{
    one_cutout_law();
    packed_laws();
    slice_law();
    table_law();
    there_and_back_law();
}

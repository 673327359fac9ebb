//! The laws of strict files: no code runs.
ghost use Rattle.fz_strict.specs.Laws.{BytesHaveOneHeader, FoundOptionsAreAllowed, FoundOptionsDo, FoundOptionsDoForEach};
ghost use Rattle.fz_strict.specs.Laws.{HdusAreDecided, HdusStandForOne, StrictImagesAgree, StrictIsHduByHdu};
ghost use Rattle.fz_strict.specs.Taken.{WalkLaws};
ghost use Rattle.fz_laws.specs.RoundTrip.{RestoredAreBytes};

use fz_block::{cards_law, found_hdus_law, hdu_list_law, passing_law, walk_law};
use fz_checks::packed_image_law;
use fz_files::{packed_hdu_law, table_law};
use fz_grid::{one_tile_law, shape_law, tiles_law};
use fz_head::whole_cards_law;
use fz_laws::{packed_hdus_law, restored_bytes_law};
use fz_tile::{one_record_law, plain_law, slice_law};

/// What the laws of strict files take of the headers and the HDUs of a file.
pub(crate) fn walk_laws()
    ensures { WalkLaws }
{
    found_hdus_law();
    hdu_list_law();
    packed_hdu_law();
    passing_law();
    walk_law();
}

/// The options by which a strict file was packed, or others with which `pack` writes the same, are those that its
/// headers say: no others need to be tried. `pack` takes these options, whatever the file, and all packed images of a
/// strict file agree on them.
pub fn options_law()
    ensures allowed { FoundOptionsAreAllowed }
    ensures found { FoundOptionsDo }
    ensures agree { StrictImagesAgree }
{
    packed_hdus_law();
    packed_image_law();
    shape_law();
    table_law();
    walk_laws();
}

/// A file is what `pack` writes by some options if and only if every HDU of it is what `pack` makes, by these options,
/// of what it stands for; and it is strict if and only if that is so by the options that its headers say.
pub fn same_hdus_law()
    ensures each { StrictIsHduByHdu }
    ensures found { FoundOptionsDoForEach }
{
    cards_law();
    packed_hdu_law();
    packed_hdus_law();
    packed_image_law();
    passing_law();
    plain_law();
    shape_law();
    table_law();
    walk_laws();
    whole_cards_law();
}

/// Each HDU of a packed file stands for one HDU only, and it is decided by that HDU whether it is what `pack` makes of
/// it, of which [`same_hdus_law`] speaks. What a file of bytes stands for are bytes.
pub fn one_hdu_law()
    ensures one { HdusStandForOne }
    ensures decided { HdusAreDecided }
    ensures split { BytesHaveOneHeader }
    ensures bytes { RestoredAreBytes }
{
    cards_law();
    one_record_law();
    one_tile_law();
    packed_image_law();
    passing_law();
    plain_law();
    restored_bytes_law();
    shape_law();
    slice_law();
    tiles_law();
    walk_laws();
    whole_cards_law();
}

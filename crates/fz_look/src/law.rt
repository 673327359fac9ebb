//! What the definitions of a view promise: no code runs.
ghost use Rattle.fz_look.specs.Laws.{CopyIsTouched, FirstIsPlaced, FoundIsHere, FoundIsReadable, HeaderIsTouched, HereHasPieces, HereIsKnown};
ghost use Rattle.fz_look.specs.Laws.{LineHasRoom, LineIsBytes, NextIsPlaced, PlacedIsRead, RegionIsSieve};

use fz_base::ranges_law;
use fz_block::hdu_at_law;
use fz_checks::packed_image_law;
use fz_grid::{place_law, tiles_law};
use fz_job::{hdus_law, known_law};
use fz_laws::{first_fault_law, image_arrays_law};
use fz_tile::{one_fault_law, one_record_law, plain_law, slice_law};

/// The first HDU that stands for something is found with the plain bytes, and the next one where one ends; its header
/// is read again as it was seen, and it is the HDU at hand.
pub fn places_law()
    ensures first { FirstIsPlaced }
    ensures next { NextIsPlaced }
    ensures read { PlacedIsRead }
    ensures found { FoundIsHere }
{
    known_law();
    plain_law();
    tiles_law();
}

/// What is read of a header once more, and of an HDU that is copied, is what `unpack` reads.
pub fn touched_law()
    ensures header { HeaderIsTouched }
    ensures copy { CopyIsTouched }
{
    hdu_at_law();
    hdus_law();
    known_law();
    ranges_law();
}

/// The plain bytes of the HDU at hand.
pub fn pieces_law()
    ensures { HereHasPieces }
{
    known_law();
    packed_image_law();
    plain_law();
    tiles_law();
}

/// An image that no check refuses can be read.
pub fn readable_law()
    ensures { FoundIsReadable }
{
    packed_image_law();
}

/// What is known of the image at hand.
pub fn image_law()
    ensures { HereIsKnown }
{
    first_fault_law();
    hdus_law();
    image_arrays_law();
    known_law();
    one_fault_law();
    one_record_law();
}

/// A region as a sieve.
pub(crate) fn region_law()
    ensures { RegionIsSieve }
{}

/// What is left of a line of a box is in the box, and is what is left of a line of the array.
pub fn line_law()
    ensures room { LineHasRoom }
    ensures bytes { LineIsBytes }
{
    place_law();
    plain_law();
    slice_law();
}

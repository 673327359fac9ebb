//! What the definitions promise: no code runs.
ghost use Rattle.std.specs.Prelude.{ℕ, ◌≡◌, List};
ghost use Rattle.fz_block.specs.Checks.{hdu_at, header_blocks_of};
ghost use Rattle.fz_checks.specs.declared.job_checks.PackedImage.{PackedImage};
ghost use Rattle.fz_flat.specs.Fronts.{blocks_there, hdu_there, image_there_of};
ghost use Rattle.fz_flat.specs.Lawful.{IsPackedImage};
ghost use Rattle.fz_flat.specs.Laws.{BytesLaw, FoundLaw, IsFrontOf, PackedLaw, RangesLaw, RowLaw, SaidLaw, SaysBlocks, SaysHdu, SaysImage};
ghost use Rattle.fz_flat.specs.Plans.{flat_plan, image_there};
ghost use Rattle.fz_flat.specs.declared.place.FzAt.{FzAt};

use fz_table::row_in_law;

/// What the front of an HDU says, unless its header goes on, is what the checks of the file say of this HDU.
pub fn front_law()
    ensures blocks { (file front : List ℕ) (at : FzAt) → IsFrontOf file at front
        → SaysBlocks (blocks_there at front) (header_blocks_of at.hdu at.start file) }
    ensures hdu { (file front : List ℕ) (at : FzAt) → IsFrontOf file at front
        → SaysHdu file (hdu_there at front) (hdu_at at.hdu at.start file) }
    ensures image { (file front : List ℕ) (at : FzAt) → IsFrontOf file at front
        → SaysImage file at (image_there_of at front) (hdu_at at.hdu at.start file) }
{}

/// An image that a header says is a packed one by its values.
pub fn packed_law()
    ensures { PackedLaw }
{}

/// The plan of a packed image says this very image.
pub fn plan_law()
    ensures { (image : PackedImage) → IsPackedImage image → image_there (flat_plan image) ≡ image }
{}

/// The bytes of a row say what the row says in the file that has them.
pub fn file_law()
    ensures { RowLaw }
{
    row_in_law();
}

/// What is read of a box in a file is what the file says.
pub fn box_law()
    ensures rows { SaidLaw }
    ensures found { FoundLaw }
    ensures ranges { RangesLaw }
    ensures records { BytesLaw }
{
    file_law();
}

//! Files that were written out by hand, as the definitions have them: no code runs.
ghost use Rattle.std.specs.Prelude.{◌≡◌, [], ◌∷◌};
ghost use Rattle.fz_tile.specs.declared.codec.Codec.TheVariants.{Rice};
ghost use Rattle.fz_files.specs.LongFile.{long_plan};
ghost use Rattle.fz_files.specs.PlainFile.{grid_file, plain_file, plain_options, plain_plan};
ghost use Rattle.fz_files.specs.RiceFile.{rice_plan};
ghost use Rattle.fz_files.specs.StandsFor.{StandsFor};
ghost use Rattle.fz_files.specs.SumFile.{sum_file, sum_options};
ghost use Rattle.fz_strict.specs.FoundOptions.{codec_found, found_options, tile_found};
ghost use Rattle.fz_strict.specs.Strict.{IsStrict};
ghost use Rattle.fz_strict.specs.Worked.{bare_file, filled_file, some_sums_file};

use crate::laws::{options_law, walk_laws};
use fz_block::{hdu_list_law, passing_law};
use fz_files::{one_file_law, plain_file_law, sum_file_law};
use fz_laws::{first_fault_law, packed_file_law, restored_file_law, restored_law, round_trip_law};

/// A primary without data is strict, and so are two files of `fz_files`: the packed file of an image in tiles of 2 by 2
/// pixels, and the same with sums, by the options that its headers say. The file of the image is not strict, since the
/// image is not packed; nor is the packed file with another byte in its fill, which stands for the same file, nor a
/// file with sums in one of two tables. Of an image with pixels of 64 bits and another one the codec is that of the other; of one with one axis and
/// one with two the tile has the lengths of both.
pub fn strict_files_law()
    ensures bare { IsStrict bare_file }
    ensures packed { IsStrict plain_file }
    ensures sums { IsStrict sum_file }
    ensures found { found_options sum_file ≡ sum_options }
    ensures codec { codec_found (long_plan ∷ rice_plan ∷ []) ≡ Rice 32 2 }
    ensures tile { tile_found (long_plan ∷ plain_plan ∷ []) ≡ plain_options.tile }
    ensures unpacked { ¬ (IsStrict grid_file) }
    ensures filled { StandsFor filled_file grid_file }
    ensures fill { ¬ (IsStrict filled_file) }
    ensures some_sums { ¬ (IsStrict some_sums_file) }
{
    first_fault_law();
    hdu_list_law();
    one_file_law();
    options_law();
    packed_file_law();
    passing_law();
    plain_file_law();
    restored_file_law();
    restored_law();
    round_trip_law();
    sum_file_law();
    walk_laws();
}

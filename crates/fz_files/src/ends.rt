//! Where walks over headers end, the limits that no file passes, and that what is read lies within it: no code runs.
ghost use Rattle.fz_files.specs.Ends.{CutsLieWithin, HeadersAreShort, ListHasNoTiles, TilesAreSmall, WalksEndAtTheFault};
ghost use Rattle.fz_files.specs.Laws.{RowsLieWithin};

use fz_block::{hdu_at_law, walk_law};
use fz_checks::packed_image_law;

/// If the headers of a file have a fault for a job, the last HDU that its checks come to is the one that is rejected,
/// and the fault is one of this HDU; or there are more HDUs than a job may look at, or the HDU that a part is cut from is
/// not in the file.
pub fn walk_end_law()
    ensures { WalksEndAtTheFault }
{
    hdu_at_law();
}

/// For every job and every file no header that the job meets has more than 256 blocks, and no tile that it works on
/// more than 2^26 pixels; `list` works on no tiles.
pub fn limits_law()
    ensures headers { HeadersAreShort }
    ensures tiles { TilesAreSmall }
    ensures list { ListHasNoTiles }
{
    packed_image_law();
    walk_law();
}

/// What a cut may read lies within the file: the headers, and the rows and records of the tiles with a pick.
pub fn cut_reads_law()
    ensures { CutsLieWithin }
{
    hdu_at_law();
    packed_image_law();
    walk_law();
}

/// What is read of a row of a packed image lies within the file: its descriptors, and the bytes of its record that
/// count. The checks of every job and those of the table must pass.
pub fn table_reads_law()
    ensures { RowsLieWithin }
{
    hdu_at_law();
}

//! The laws of places in a file, those of faults and those that are read: no code runs.
ghost use Rattle.fz_laws.specs.Places.{BytesLie, CardsLie, RetileFaultsAreOfBoth, RowsLie};
ghost use Rattle.fz_laws.specs.Touched.{TouchedLieWithin};

use fz_block::{found_hdus_law, hdu_at_law, walk_law};
use fz_checks::packed_image_law;
use fz_files::{cut_reads_law, reached_law, table_reads_law, walk_end_law};

/// The place that the first fault of a file for a job names lies in the file, whatever the job and the
/// bytes are. A byte is one of the file, or its end if the file is cut short or has no HDU to cut from. A
/// card is one of the last HDU that the job reaches: END or a card before it, or card 0 of a file that does
/// not begin with SIMPLE = T. A row is one of the table of a packed image that the job meets. `retile` looks at two
/// files, and its first fault is that of `unpack` in the one or of `pack` in the other.
pub fn fault_place_law()
    ensures byte { BytesLie }
    ensures card { CardsLie }
    ensures row { RowsLie }
    ensures retile { RetileFaultsAreOfBoth }
{
    found_hdus_law();
    hdu_at_law();
    packed_image_law();
    walk_end_law();
    walk_law();
}

/// What a job may read lies in the file, whatever the job and the bytes are: each range of `touched_by` ends in the
/// file, or where the file ends.
pub fn job_reads_law()
    ensures { TouchedLieWithin }
{
    cut_reads_law();
    found_hdus_law();
    hdu_at_law();
    packed_image_law();
    reached_law();
    table_reads_law();
    walk_law();
}

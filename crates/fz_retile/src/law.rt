//! What follows from the promises of `retile`: no code runs.
ghost use Rattle.fz_laws.specs.OutputsTaken.{OutLaws};
ghost use Rattle.fz_retile.specs.Laws.{OneLimitAnswers, OneLimitCauses, OneLimitLeavesUnmade, StandsForTheSame};
ghost use Rattle.fz_retile.specs.Longest.{BoundsAreOfIn, NoHeaderIsLonger};

use fz_base::takings_law;
use fz_block::{cards_law, found_hdus_law, hdu_at_law, hdu_list_law, passing_law, walk_law};
use fz_card::{card_laws, renamed_value_law};
use fz_checks::{packed_image_law, packed_primary_law};
use fz_files::{buffers_law, one_file_law, reached_law};
use fz_head::{sizes_law, whole_cards_law};
use fz_laws::{
    first_fault_law, restored_bytes_law, restored_law, restored_output_law, round_trip_law,
};
use fz_tile::plain_law;

/// If both meters have one limit, `retile` keeps the promises of a job whose takings are those of both, one after
/// another. What it writes stands for the file that was packed anew.
pub fn retile_law()
    ensures causes { OneLimitCauses }
    ensures answers { OneLimitAnswers }
    ensures unmade { OneLimitLeavesUnmade }
    ensures restores { StandsForTheSame }
{
    buffers_law();
    one_file_law();
    restored_bytes_law();
    restored_law();
    round_trip_law();
    takings_law();
}

/// No header of the file that a packed file stands for is longer than the longest header of the packed file. So the bound
/// of `retile`, of each of its meters and of both as one, is made of the longest header of IN.
pub fn longest_header_law()
    ensures longest { NoHeaderIsLonger }
    ensures bounds { BoundsAreOfIn }
{
    first_fault_law();
    found_hdus_law();
    hdu_at_law();
    hdu_list_law();
    out_laws();
    reached_law();
    restored_law();
    restored_output_law();
    walk_law();
}

// What is taken of the laws of cards, headers and tiles for an HDU that is restored.
fn out_laws()
    ensures { OutLaws }
{
    card_laws();
    cards_law();
    packed_image_law();
    packed_primary_law();
    passing_law();
    plain_law();
    renamed_value_law();
    sizes_law();
    whole_cards_law();
}

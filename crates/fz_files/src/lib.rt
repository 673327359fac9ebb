//! What files are: packed files, the files that they stand for, cutouts, first faults, report lines and the bound on buffers.
#![tactic(auto)]

mod drilled;
mod ends;
mod job;
mod law;
mod worked;

pub use drilled::drill_rows_law;
pub use ends::{cut_reads_law, limits_law, table_reads_law, walk_end_law};
pub use job::Job;
pub use law::{
    buffers_law, one_cutout_law, one_file_law, one_first_fault_law, one_picked_file_law,
    packed_hdu_law, reached_law, same_faults_law, table_law,
};
pub use worked::{
    buffer_file_law, cut_ends_law, cut_file_law, extension_file_law, fault_file_law,
    fault_places_law, lines_file_law, long_file_law, other_file_law, plain_file_law,
    plan_facts_law, plio_file_law, rice_file_law, sum_file_law, touched_file_law, wide_file_law,
};

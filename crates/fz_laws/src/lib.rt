//! What the definitions of whole files promise together. No code runs here.
//!
//! Reading order: `round_trip` (what `pack` writes stands for the file that was packed), `outputs` (what comes out of a
//! packed file is a file again), `places` (the place that a first fault names lies in the file, and so does what a job
//! may read), `patched` and `worked_patches` (what a patch of a packed image is: its first fault and its writes).
#![tactic(auto)]

mod outputs;
mod patched;
mod places;
mod round_trip;
mod worked_patches;

pub use outputs::{cutout_output_law, packed_refusal_law, packed_slice_law, restored_output_law};
pub use patched::{
    amended_header_law, card_in_file_law, form_law, grown_header_law, kept_rows_law,
    new_numbers_law, new_row_law, new_tiles_law, one_patch_law, patch_again_law, patch_buffers_law,
    safe_patch_law, safe_step_law, whole_patch_law, writes_in_order_law,
};
pub use places::{fault_place_law, job_reads_law};
pub use round_trip::{
    cutout_file_law, first_fault_law, image_arrays_law, lossless_law, packed_file_law,
    packed_hdus_law, restored_bytes_law, restored_file_law, restored_law, round_trip_law,
    sums_file_law,
};
pub use worked_patches::{
    grid_patch_law, patch_faults_law, rice_patch_law, sum_patch_law, wide_patch_law,
};

//! The header checks of a job.
use fz_grid::Region;
use fz_head::PackOptions;

/// The checks that a job makes of the headers of a file, after those that every job makes.
#[derive(Clone, Copy, Debug, PartialEq, Eq)]
pub enum JobChecks {
    /// Those of `pack`.
    Pack(PackOptions),
    /// Those of `unpack`, `verify` and `list`.
    Unpack,
    /// Those of `cut`, which cuts this box out of the HDU of this number, or out of the first packed one.
    Cut { wanted: Option<u32>, region: Region },
    /// Those of the packed image that is changed in place: of the HDU of this number, or of the first packed one.
    Amend { wanted: Option<u32> },
    /// None: only those that every job makes.
    Every,
}

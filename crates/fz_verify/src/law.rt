//! What the rows of a packed image are: no code runs.
ghost use Rattle.fz_verify.specs.Rows.{SoundRowsAreNotRefused};

use fz_checks::packed_image_law;
use fz_tile::one_fault_law;

/// No row of a packed image that stands for pixels is refused.
pub(crate) fn none_refused_law()
    ensures { SoundRowsAreNotRefused }
{
    one_fault_law();
    packed_image_law();
}

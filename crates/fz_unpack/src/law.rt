//! What the checks of a header say of a packed primary: no code runs.
ghost use Rattle.fz_unpack.specs.Laws.{PrimariesAreBehind, PrimariesBegin};

use fz_checks::packed_primary_law;

/// A packed primary is after an empty primary, and the header of its image begins with the S of SIMPLE.
pub(crate) fn primary_law()
    ensures behind { PrimariesAreBehind }
    ensures begins { PrimariesBegin }
{
    packed_primary_law();
}

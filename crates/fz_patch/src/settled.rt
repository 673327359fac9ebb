//! The end of a step: what it wrote is settled, and so on the disk before the next one writes.
ghost use Rattle.std.specs.Prelude.{IsSome};
ghost use Rattle.fz_base.specs.Keeps.{SourceStays};
ghost use Rattle.fz_base.specs.Stop.{Amends};
ghost use Rattle.fz_base.specs.Store.{settled_by};

use fz_base::{Stop, Store};

/// Waits until all that was written is on the disk: all writes are settled.
pub(crate) fn settle<D: Store>(store: &mut D) -> Result<(), Stop>
    requires { IsSome (D.attached store.old) }
    ensures store { SourceStays D.held D.attached D.ranges store.old store.new }
    ensures cause { Amends (D.tally store.old) (settled_by (D.tally store.old)) (D.tally store.new) result }
{
    store.settle().map_err(Stop::writing)
}

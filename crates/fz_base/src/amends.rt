//! How a job writes in a store.
ghost use Rattle.std.specs.Prelude.{◌≡◌, ◌+◌, ◌^◌, ◌≤◌, ◌<◌, length as len, OnOk, OnErr};
ghost use Rattle.fz_base.specs.Sink.{written};
ghost use Rattle.fz_base.specs.Stop.{Amends};
ghost use Rattle.fz_base.specs.Store.{HasAtLeast, MayAmend, Reaches, amend_of, amended_by};

use crate::{Stop, Store};

/// Writes the bytes in place.
pub fn amend_at<D: Store>(store: &mut D, at: u64, bytes: &[u8]) -> Result<(), Stop>
    requires within { HasAtLeast (D.attached store.old) at }
    requires near { at + len bytes.now ≤ 2 ^ 62 }
    requires some { 0 < len bytes.now }
    ensures amended { OnOk result (D.held store.new ≡ written at bytes.now (D.held store.old)) }
    ensures partly { OnErr result (MayAmend at (len bytes.now) (D.held store.old) (D.held store.new)) }
    ensures reach { Reaches at (len bytes.now) (D.attached store.old) (D.attached store.new) result }
    ensures ranges { D.ranges store.new ≡ D.ranges store.old }
    ensures cause { Amends (D.tally store.old) (amended_by (amend_of at bytes.now) (D.tally store.old)) (D.tally store.new) result }
{
    store.amend(at, bytes).map_err(Stop::writing)
}

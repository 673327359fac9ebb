//! Where a job prints its lines.
ghost use Rattle.std.specs.Prelude.{ℕ, ◌≡◌, List, Option, OnOk, OnErr};
ghost use Rattle.fz_base.specs.Counts.{HasCause, Tally};
ghost use Rattle.fz_base.specs.Sink.{appended, MayAppend};

use crate::Failed;

/// Text that only grows. An object in memory shows its contents; standard output does not.
pub trait Text {
    /// The contents, if they are shown.
    ghost contents: { Self → Option (List ℕ) };

    /// How often a call failed, and how often one found no memory.
    ghost tally: { Self → Tally };

    /// Appends all bytes.
    fn put(&mut self, bytes: &[u8]) -> Result<(), Failed>
        ensures appended { OnOk result (contents self.new ≡ appended bytes.now (contents self.old)) }
        ensures partly { OnErr result (MayAppend bytes.now (contents self.old) (contents self.new)) }
        ensures cause { HasCause (tally self.old) (tally self.new) result };
}

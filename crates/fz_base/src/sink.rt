//! Where a job writes to: bytes at places.
ghost use Rattle.std.specs.Prelude.{ℕ, ◌≡◌, ◌<◌, ◌||◌, Bool, IsTrue, false, if◌then◌else◌};
ghost use Rattle.std.specs.Prelude.{List, length as len, Option, OnOk, OnErr, is_ok};
ghost use Rattle.fz_base.specs.Counts.{HasCause, Tally, nameless};
ghost use Rattle.fz_base.specs.Names.{names_by};
ghost use Rattle.fz_base.specs.Sink.{written, MayWrite, emptied};

use crate::Failed;

/// Bytes that are written at places. An object in memory shows its contents; a real file does not.
pub trait Sink {
    /// The contents, if they are shown.
    ghost contents: { Self → Option (List ℕ) };

    /// Whether a `create` has succeeded.
    ghost created: { Self → Bool };

    /// Whether `finish` has succeeded, and nothing was made or written since.
    ghost finished: { Self → Bool };

    /// How often a call failed, and how often one found no memory; and the names by which an output
    /// was made, if they are shown.
    ghost tally: { Self → Tally };

    /// Makes the output by its name, empty.
    fn create(&mut self, name: &str) -> Result<(), Failed>
        ensures contents { contents self.new ≡ (if is_ok result then emptied (contents self.old) else contents self.old) }
        ensures created { created self.new ≡ (is_ok result || created self.old) }
        ensures finished { finished self.new ≡ (if is_ok result then false else finished self.old) }
        ensures names { (tally self.new).names ≡ names_by name.now result (tally self.old).names }
        ensures cause { HasCause (nameless (tally self.old)) (nameless (tally self.new)) result };

    /// Writes all bytes from `at` on. A gap between the old end and `at` reads as 0.
    fn write_at(&mut self, at: u64, bytes: &[u8]) -> Result<(), Failed>
        requires created { IsTrue (created self.old) }
        requires some { 0 < len bytes.now }
        ensures written { OnOk result (contents self.new ≡ written at bytes.now (contents self.old)) }
        ensures partly { OnErr result (MayWrite at bytes.now (contents self.old) (contents self.new)) }
        ensures created { created self.new ≡ created self.old }
        ensures finished { finished self.new ≡ false }
        ensures cause { HasCause (tally self.old) (tally self.new) result };

    /// Ends the output; after Ok a real file is on the disk.
    fn finish(&mut self) -> Result<(), Failed>
        requires { IsTrue (created self.old) }
        ensures contents { contents self.new ≡ contents self.old }
        ensures created { created self.new ≡ created self.old }
        ensures finished { finished self.new ≡ (is_ok result || finished self.old) }
        ensures cause { HasCause (tally self.old) (tally self.new) result };
}

//! Where a job reads from: bytes at places.
ghost use Rattle.std.specs.Prelude.{ℕ, ◌≡◌, ◌+◌, ◌^◌, ◌≤◌, ◌<◌, List, length as len, Option, Some, IfOk, OnOk, OnErr};
ghost use Rattle.fz_base.specs.Counts.{HasCause, Tally, nameless};
ghost use Rattle.fz_base.specs.Names.{names_by};
ghost use Rattle.fz_base.specs.Source.{Reads, logged, MayLog, HoldsOctets, HoldsLength, attached_by};

use crate::Failed;

/// Bytes that are read at places. An object in memory shows its bytes and the ranges that were
/// read; a real file shows neither.
pub trait Source {
    /// The held bytes, if they are shown.
    ghost held: { Self → Option (List ℕ) };

    /// The ranges read, each by its start and length, if they are shown.
    ghost ranges: { Self → Option (List (ℕ × ℕ)) };

    /// The attached length, or none before the first `attach` that succeeded.
    ghost attached: { Self → Option ℕ };

    /// How often a call failed, and how often one found no memory; and the names by which the source
    /// was opened, if they are shown.
    ghost tally: { Self → Tally };

    /// Opens the source by its name and answers its length in bytes.
    fn attach(&mut self, name: &str) -> Result<u64, Failed>
        ensures attached { attached self.new ≡ attached_by result (attached self.old) }
        ensures limit { IfOk result (λ n. n ≤ 2 ^ 62) }
        ensures told { IfOk result (HoldsLength (held self.old)) }
        ensures held { held self.new ≡ held self.old }
        ensures ranges { ranges self.new ≡ ranges self.old }
        ensures names { (tally self.new).names ≡ names_by name.now result (tally self.old).names }
        ensures cause { HasCause (nameless (tally self.old)) (nameless (tally self.new)) result };

    /// Reads the bytes from `at` on into the whole of `into`.
    fn read_at(&mut self, at: u64, into: &mut [u8]) -> Result<(), Failed>
        requires within { (n : ℕ) × (attached self.old ≡ Some n) × (at + len into.old ≤ n) }
        requires some { 0 < len into.old }
        ensures bytes { OnOk result (Reads (held self.old) at into.new) }
        ensures logged { OnOk result (ranges self.new ≡ logged at (len into.old) (ranges self.old)) }
        ensures log_err { OnErr result (MayLog at (len into.old) (ranges self.old) (ranges self.new)) }
        ensures held { held self.new ≡ held self.old }
        ensures attached { attached self.new ≡ attached self.old }
        ensures cause { HasCause (tally self.old) (tally self.new) result };

    /// A source that is attached and shows its bytes shows as many as its attached length.
    ghost agrees: { (s : Self) (n : ℕ) → attached s ≡ Some n → HoldsLength (held s) n };

    /// No attached length is more than 2^62.
    ghost near: { (s : Self) (n : ℕ) → attached s ≡ Some n → n ≤ 2 ^ 62 };

    /// Bytes that are shown are below 256.
    ghost octets: { (s : Self) → HoldsOctets (held s) };
}

//! The front of a buffer, filled.
ghost use Rattle.std.specs.Prelude.{ℕ, ◌≡◌, ◌+◌, ◌<◌, ◌≤◌, min, take, drop, replicate, length as len, Some, IfSome, OnOk};
ghost use Rattle.fz_base.specs.Counts.{HasCause};
ghost use Rattle.fz_base.specs.Keeps.{SourceStays};
ghost use Rattle.fz_base.specs.Source.{MayLog};

use fz_base::{Failed, Source, log_law};

/// Puts as many of these bytes as there is room for to the front of a buffer, and answers how many they are.
pub fn put_front(bytes: &[u8], into: &mut [u8]) -> usize
    ensures count { result ≡ min (len bytes.now) (len into.old) }
    ensures bytes { take result into.new ≡ take result bytes.now }
    ensures stays { (drop result into.new ≡ drop result into.old) × (len into.new ≡ len into.old) }
{
    let count = bytes.len().min(into.len());
    into[..count].copy_from_slice(&bytes[..count]);
    count
}

/// Puts so many zeros to the front of a buffer.
pub fn put_zeros(count: usize, into: &mut [u8])
    requires room { count ≤ len into.old }
    ensures bytes { take count into.new ≡ replicate count 0 }
    ensures stays { (drop count into.new ≡ drop count into.old) × (len into.new ≡ len into.old) }
{
    into[..count].fill(0);
}

/// Reads so many bytes of a source to the front of a buffer.
pub fn read_front<S: Source>(
    source: &mut S,
    from: u64,
    count: usize,
    into: &mut [u8],
) -> Result<(), Failed>
    requires within { (n : ℕ) × (S.attached source.old ≡ Some n) × (from + count ≤ n) }
    requires some { 0 < count }
    requires room { count ≤ len into.old }
    ensures bytes { OnOk result (IfSome (S.held source.old) (λ g. take count into.new ≡ take count (drop from g))) }
    ensures rest { OnOk result (drop count into.new ≡ drop count into.old) }
    ensures log { MayLog from count (S.ranges source.old) (S.ranges source.new) }
    ensures stays { SourceStays S.held S.attached S.ranges source.old source.new × (len into.new ≡ len into.old) }
    ensures cause { HasCause (S.tally source.old) (S.tally source.new) result }
{
    log_law();
    source.read_at(from, &mut into[..count])?;
    Ok(())
}

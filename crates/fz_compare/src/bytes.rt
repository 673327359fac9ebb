//! Bytes of the file, compared with those that `pack` writes.
ghost use Rattle.std.specs.Prelude.{ℕ, ◌≡◌, ◌+◌, ◌<◌, ◌≤◌, ◌^◌, Some, length as len, IfOk, IfSome};
ghost use Rattle.fz_base.specs.Keeps.{SourceStays};
ghost use Rattle.fz_base.specs.Source.{LogsWithin};
ghost use Rattle.fz_base.specs.Stop.{OnlyReads};
ghost use Rattle.fz_compare.specs.Compared.{has_bytes as has_bytes_of};

use fz_base::{Source, Stop, log_law};

/// Whether the file has these bytes at a place, before its byte `end`.
pub fn has_bytes<S: Source>(
    source: &mut S,
    at: u64,
    end: u64,
    bytes: &[u8],
    piece: &mut [u8],
) -> Result<bool, Stop>
    requires within { (n : ℕ) × (S.attached source.old ≡ Some n) × (end ≤ n) }
    requires near { at + len bytes.now < 2 ^ 64 }
    requires piece { 0 < len piece.old }
    ensures same { IfOk result (λ yes. IfSome (S.held source.old) (λ g. yes ≡ has_bytes_of g at end bytes.now)) }
    ensures stays { SourceStays S.held S.attached S.ranges source.old source.new × (len piece.new ≡ len piece.old) }
    ensures read { LogsWithin at end (S.ranges source.old) (S.ranges source.new) }
    ensures cause { OnlyReads (S.tally source.old) (S.tally source.new) result }
{
    log_law();
    if at + bytes.len() as u64 > end {
        return Ok(false);
    }
    fz_base::has_bytes(source, at, bytes, piece)
}

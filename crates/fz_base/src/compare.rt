//! Bytes of a source, compared with others.
ghost use Rattle.std.specs.Prelude.{ℕ, ◌≡◌, ◌+◌, ◌<◌, ◌≤◌, ◌^◌, bytes_eq, length as len, IfOk, IfSome};
ghost use Rattle.fz_base.specs.Keeps.{SourceStays};
ghost use Rattle.fz_base.specs.Source.{LogsWithin, has_bytes as has_bytes_of};
ghost use Rattle.fz_base.specs.Stop.{OnlyReads};
ghost use Rattle.fz_base.specs.Store.{HasAtLeast};

use crate::{Source, Stop, log_law};

/// Whether the source has these bytes from a place on. They are read in pieces that fill the buffer, up to the first
/// that has others.
pub fn has_bytes<S: Source>(
    source: &mut S,
    at: u64,
    bytes: &[u8],
    piece: &mut [u8],
) -> Result<bool, Stop>
    requires within { HasAtLeast (S.attached source.old) (at + len bytes.now) }
    requires near { at + len bytes.now < 2 ^ 64 }
    requires piece { 0 < len piece.old }
    ensures same { IfOk result (λ yes. IfSome (S.held source.old) (λ g. yes ≡ has_bytes_of g at bytes.now)) }
    ensures piece { len piece.new ≡ len piece.old }
    ensures source { SourceStays S.held S.attached S.ranges source.old source.new }
    ensures read { LogsWithin at (at + len bytes.now) (S.ranges source.old) (S.ranges source.new) }
    ensures cause { OnlyReads (S.tally source.old) (S.tally source.new) result }
{
    log_law();
    let mut done = 0;
    while done < bytes.len() {
        let count = (bytes.len() - done).min(piece.len());
        let read = &mut piece[..count];
        source
            .read_at(at + done as u64, read)
            .map_err(Stop::reading)?;
        if !is_same(read, bytes.split_at(done).1.split_at(count).0) {
            return Ok(false);
        }
        done += count;
    }
    Ok(true)
}

// Whether two pieces are the same.
fn is_same(read: &[u8], wanted: &[u8]) -> bool
    ensures { result ≡ bytes_eq read.now wanted.now }
{
    read == wanted
}

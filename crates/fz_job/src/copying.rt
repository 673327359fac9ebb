//! What a job copies, and what it leaves for last.
ghost use Rattle.std.specs.Prelude.{ℕ, ◌≡◌, ◌+◌, ◌*◌, ◌≤◌, ◌<◌, ◌^◌, IsTrue, Some, if◌then◌else◌, ◌==◌, length as len, IfOk, IfSome};
ghost use Rattle.fz_base.specs.Keeps.{SinkStays, SourceStays};
ghost use Rattle.fz_base.specs.Source.{LogsWithin, Reads};
ghost use Rattle.fz_base.specs.Stop.{ReadsAndWrites};
ghost use Rattle.fz_block.specs.Header.{data_start_of, next_start_of};
ghost use Rattle.fz_job.specs.Behind.{HoldsCopy};

use fz_base::{Sink, Source, Stop, copy, log_law, output_law, write_behind};
use fz_block::{Header, data_start, next_start};

/// Copies an HDU to a byte of the sink, without byte 0 of the file, and answers the byte after it.
///
/// The bytes of its header are the caller's, and only its data are read from the source: a source that meanwhile gives
/// other bytes cannot change the header that was checked.
pub fn copy_hdu<S: Source, K: Sink>(
    source: &mut S,
    header: &Header,
    header_bytes: &[u8],
    sink: &mut K,
    at: u64,
    buffer: &mut [u8],
) -> Result<u64, Stop>
    requires within { (n : ℕ) × (S.attached source.old ≡ Some n) × (next_start_of header.now ≤ n) }
    requires end { next_start_of header.now ≤ 2 ^ 62 }
    requires some { 0 < header.now.blocks }
    requires whole { len header_bytes.now ≡ 2880 * header.now.blocks }
    requires read { Reads (S.held source.old) header.now.start header_bytes.now }
    requires near { at ≤ 2 ^ 63 }
    requires buffer { 0 < len buffer.old }
    requires created { IsTrue (K.created sink.old) }
    ensures copied { IfOk result (λ end. IfSome (S.held source.old)
        (λ g. HoldsCopy header.now g at end (K.contents sink.old) (K.contents sink.new))) }
    ensures end { IfOk result (λ end. (at < end) × (end + header.now.start ≡ at + next_start_of header.now)) }
    ensures stays { SourceStays S.held S.attached S.ranges source.old source.new
        × SinkStays K.created K.contents sink.old sink.new × (len buffer.new ≡ len buffer.old) }
    ensures log { LogsWithin (data_start_of header.now) (next_start_of header.now) (S.ranges source.old) (S.ranges source.new) }
    ensures cause { ReadsAndWrites (S.tally source.old) (S.tally source.new) (K.tally sink.old) (K.tally sink.new) result }
{
    log_law();
    output_law();
    let skipped = left_for_last(at);
    write_behind(sink, at + skipped, &header_bytes[skipped as usize..])?;
    let from = data_start(header);
    let count = next_start(header) - from;
    let data_at = at + header_bytes.len() as u64;
    copy(source, from, count, sink, data_at, buffer)?;
    Ok(data_at + count)
}

/// How many bytes of an HDU that is written from this byte on are left for last: byte 0 of the file.
pub fn left_for_last(at: u64) -> u64
    ensures { result ≡ (if at == 0 then 1 else 0) }
{
    u64::from(at == 0)
}

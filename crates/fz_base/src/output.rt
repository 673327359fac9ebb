//! How an output is written: its first byte last, so that what was cut short is no FITS file.
ghost use Rattle.std.specs.Prelude.{ℕ, ◌≡◌, ◌+◌, ◌^◌, ◌≤◌, ◌<◌, true, IsTrue};
ghost use Rattle.std.specs.Prelude.{take, drop, length as len, Some, IfSome, OnOk, OnErr};
ghost use Rattle.fz_base.specs.FirstByte.{StopsSealing, StopsShut, with_first_byte};
ghost use Rattle.fz_base.specs.Keeps.{SinkStays, SourceStays};
ghost use Rattle.fz_base.specs.Sink.{written, MayWrite};
ghost use Rattle.fz_base.specs.Source.{LogsWithin};
ghost use Rattle.fz_base.specs.Stop.{ReadsAndWrites, Writes};
ghost use Rattle.fz_base.specs.Told.{StaysTold};

use crate::{Sink, Source, Stop};

/// Writes the bytes at a place after byte 0; no bytes are no call of the sink. Contents that do not
/// begin as a FITS file does stay so, whatever the answer.
pub fn write_behind<K: Sink>(sink: &mut K, at: u64, bytes: &[u8]) -> Result<(), Stop>
    requires created { IsTrue (K.created sink.old) }
    requires behind { 0 < at }
    ensures written { OnOk result (K.contents sink.new ≡ written at bytes.now (K.contents sink.old)) }
    ensures partly { OnErr result (MayWrite at bytes.now (K.contents sink.old) (K.contents sink.new)) }
    ensures sink { SinkStays K.created K.contents sink.old sink.new }
    ensures cause { Writes (K.tally sink.old) (K.tally sink.new) result }
{
    if bytes.is_empty() {
        return Ok(());
    }
    sink.write_at(at, bytes).map_err(Stop::writing)
}

/// Copies so many bytes of the source, from a byte on, to a place of the sink after byte 0, in pieces
/// that fill the buffer.
pub fn copy<S: Source, K: Sink>(
    source: &mut S,
    from: u64,
    count: u64,
    sink: &mut K,
    to: u64,
    buffer: &mut [u8],
) -> Result<(), Stop>
    requires within { (n : ℕ) × (S.attached source.old ≡ Some n) × (from + count ≤ n) }
    requires places { (from + count < 2 ^ 64) × (to + count < 2 ^ 64) }
    requires buffer { 0 < len buffer.old }
    requires created { IsTrue (K.created sink.old) }
    requires behind { 0 < to }
    ensures copied { OnOk result (IfSome (S.held source.old)
        (λ g. K.contents sink.new ≡ written to (take count (drop from g)) (K.contents sink.old))) }
    ensures sink { SinkStays K.created K.contents sink.old sink.new }
    ensures log { LogsWithin from (from + count) (S.ranges source.old) (S.ranges source.new) }
    ensures source { SourceStays S.held S.attached S.ranges source.old source.new }
    ensures cause { ReadsAndWrites (S.tally source.old) (S.tally source.new) (K.tally sink.old) (K.tally sink.new) result }
{
    let mut done = 0;
    while done < count {
        let piece = (count - done).min(buffer.len() as u64);
        copy_piece(
            source,
            from + done,
            sink,
            to + done,
            &mut buffer[..piece as usize],
        )?;
        done += piece;
    }
    Ok(())
}

// Copies as many bytes as the piece has.
fn copy_piece<S: Source, K: Sink>(
    source: &mut S,
    from: u64,
    sink: &mut K,
    to: u64,
    piece: &mut [u8],
) -> Result<(), Stop>
    requires within { (n : ℕ) × (S.attached source.old ≡ Some n) × (from + len piece.old ≤ n) }
    requires some { 0 < len piece.old }
    requires created { IsTrue (K.created sink.old) }
    requires behind { 0 < to }
    ensures copied { OnOk result (IfSome (S.held source.old)
        (λ g. K.contents sink.new ≡ written to (take (len piece.old) (drop from g)) (K.contents sink.old))) }
    ensures sink { SinkStays K.created K.contents sink.old sink.new }
    ensures log { LogsWithin from (from + len piece.old) (S.ranges source.old) (S.ranges source.new) }
    ensures source { SourceStays S.held S.attached S.ranges source.old source.new }
    ensures cause { ReadsAndWrites (S.tally source.old) (S.tally source.new) (K.tally sink.old) (K.tally sink.new) result }
{
    source.read_at(from, piece).map_err(Stop::reading)?;
    write_behind(sink, to, piece)
}

/// Ends an output that is whole but for its first byte: writes the S of SIMPLE (FITS 4.0, section
/// 4.4.1.1), and then finishes the sink.
pub fn seal<K: Sink>(sink: &mut K) -> Result<(), Stop>
    requires created { IsTrue (K.created sink.old) }
    ensures sealed { OnOk result (K.contents sink.new ≡ with_first_byte (K.contents sink.old)) }
    ensures finished { OnOk result (K.finished sink.new ≡ true) }
    ensures stopped { OnErr result (StopsShut (K.contents sink.old) (K.contents sink.new)) }
    ensures left { OnErr result (StopsSealing (K.contents sink.old) (K.contents sink.new)) }
    ensures told { StaysTold (K.contents sink.old) (K.contents sink.new) }
    ensures created { K.created sink.new ≡ K.created sink.old }
    ensures cause { Writes (K.tally sink.old) (K.tally sink.new) result }
{
    sink.write_at(0, b"S").map_err(Stop::writing)?;
    sink.finish().map_err(Stop::writing)
}

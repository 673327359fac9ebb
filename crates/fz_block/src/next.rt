//! The next header of a file, with a buffer from a meter.
ghost use Rattle.std.specs.Prelude.{ℕ, ◌≡◌, ◌⊎◌, ◌+◌, ◌-◌, ◌*◌, ◌^◌, ◌≤◌, ◌<◌, ◌++◌, Some, max, min, take, length as len, IfOk, IfSome, OnErr, OnOk};
ghost use Rattle.fz_base.specs.Counts.{HasCause};
ghost use Rattle.fz_base.specs.Keeps.{SourceStays};
ghost use Rattle.fz_base.specs.Meter.{taken};
ghost use Rattle.fz_base.specs.Source.{Reads, LogsWithin};
ghost use Rattle.fz_base.specs.Stop.{ReadsAndTakes, ReadsOnly, IfAnswered, IsDefined, TellsLimit};
ghost use Rattle.fz_base.specs.Takings.{TellsFirstPast, highest};
ghost use Rattle.fz_block.specs.Checks.{header_blocks_of, header_of, header_touched, hdu_at};
ghost use Rattle.fz_block.specs.Facts.{IsHeaderOf};
ghost use Rattle.fz_block.specs.Header.{next_start_of};
ghost use Rattle.fz_block.specs.Takings.{header_taking, facts_in};

use crate::blocks::{BLOCK_LEN, header_blocks};
use crate::header::Header;
use crate::read::buffered_header;
use fz_base::{Bytes, Failed, Meter, Source, Stop, log_law};

/// A header that was read: its facts, and its bytes at the front of a buffer that goes back to its meter.
#[derive(Drop)]
pub struct ReadHeader {
    pub facts: Header,
    pub bytes: Bytes,
}

/// Reads and checks the header of the HDU that begins at this byte, into a buffer of its length from the
/// meter (FITS 4.0, sections 3.3.1 and 4.4.1).
///
/// Refused as by `header_blocks` and then `buffered_header`. The buffer is the one taking, of at most 737,280
/// bytes; after an error nothing is taken. It can be taken only when the end of the header is known, so the blocks
/// before the last are read twice.
pub fn header_at<S: Source>(
    source: &mut S,
    length: u64,
    hdu: u32,
    start: u64,
    meter: &mut Meter,
    block: &mut [u8],
) -> Result<ReadHeader, Stop>
    requires attached { S.attached source.old ≡ Some length }
    requires within { (start < length) ⊎ ((hdu ≡ 0) × (start ≡ 0)) }
    requires block { len block.old ≡ 2880 }
    ensures exact { IfSome (S.held source.old) (λ g. IsDefined (hdu_at hdu start g) (facts_in result)) }
    ensures bytes { IfOk result (λ r. Reads (S.held source.old) start r.bytes) }
    ensures facts { IfOk result (λ r. IsHeaderOf r.bytes r.facts × (r.facts.hdu ≡ hdu) × (r.facts.start ≡ start)) }
    ensures within { IfOk result (λ r. (next_start_of r.facts ≤ length) × (next_start_of r.facts ≤ 2 ^ 62)) }
    ensures taken { IfOk result (λ r. (meter.old.live + len r.bytes ≤ meter.old.limit) × (meter.new ≡ taken meter.old (len r.bytes))) }
    ensures given { OnErr result ((meter.new.live ≡ meter.old.live) × (meter.new.limit ≡ meter.old.limit) × (meter.old.peak ≤ meter.new.peak)) }
    ensures first_past { IfSome (S.held source.old)
        (λ g. TellsFirstPast meter.old.limit (header_taking meter.old.live (header_blocks_of hdu start g)) result) }
    ensures peak { IfSome (S.held source.old)
        (λ g. meter.new.peak ≤ max meter.old.peak (highest (header_taking meter.old.live (header_blocks_of hdu start g)))) }
    ensures most { meter.new.peak ≤ max meter.old.peak (meter.old.live + 737280) }
    ensures limit { TellsLimit meter.old.limit (meter.old.live + 737280) result }
    ensures log { LogsWithin start (min length (start + 737280)) (S.ranges source.old) (S.ranges source.new) }
    ensures touched { IfSome (S.held source.old) (λ g. LogsWithin start (header_touched hdu start g) (S.ranges source.old) (S.ranges source.new)) }
    ensures source { SourceStays S.held S.attached S.ranges source.old source.new }
    ensures cause { ReadsAndTakes (S.tally source.old) (S.tally source.new) meter.old.limit result }
{
    log_law();
    let blocks = header_blocks(source, length, hdu, start, block)?;
    let mut buf = meter.bytes(BLOCK_LEN as u64 * u64::from(blocks))?;
    let answer = read_before(source, length, hdu, start, block, buf.as_mut_slice());
    match answer {
        Ok(facts) => Ok(ReadHeader { facts, bytes: buf }),
        Err(stop) => {
            meter.give_bytes(buf);
            Err(stop)
        }
    }
}

// Reads the blocks of a header before the last to the buffer, puts the last after them, and answers the facts.
fn read_before<S: Source>(
    source: &mut S,
    length: u64,
    hdu: u32,
    start: u64,
    block: &[u8],
    buf: &mut [u8],
) -> Result<Header, Stop>
    requires attached { S.attached source.old ≡ Some length }
    requires blocks { (n : ℕ) × (0 < n) × (n ≤ 256) × (len buf.old ≡ 2880 * n) }
    requires within { start + len buf.old ≤ length }
    requires block { len block.now ≡ 2880 }
    requires last { Reads (S.held source.old) (start + (len buf.old - 2880)) block.now }
    ensures read { IfAnswered result (Reads (S.held source.old) start buf.new) }
    ensures header { IsDefined (header_of hdu start length buf.new) result }
    ensures facts { IfOk result (λ h. IsHeaderOf buf.new h × (h.hdu ≡ hdu) × (h.start ≡ start)) }
    ensures within { IfOk result (λ h. (next_start_of h ≤ length) × (next_start_of h ≤ 2 ^ 62)) }
    ensures log { LogsWithin start (start + len buf.old) (S.ranges source.old) (S.ranges source.new) }
    ensures source { SourceStays S.held S.attached S.ranges source.old source.new }
    ensures cause { ReadsOnly (S.tally source.old) (S.tally source.new) result }
{
    read_front(source, start, buf).map_err(Stop::reading)?;
    put_last(buf, block);
    buffered_header(buf, length, hdu, start).map_err(Stop::Refused)
}

// Reads the bytes from here on to the buffer, all but its last block.
fn read_front<S: Source>(source: &mut S, start: u64, buf: &mut [u8]) -> Result<(), Failed>
    requires within { (n : ℕ) × (S.attached source.old ≡ Some n) × (start + len buf.old ≤ n) }
    requires room { 2880 ≤ len buf.old }
    ensures read { OnOk result (Reads (S.held source.old) start (take (len buf.old - 2880) buf.new)) }
    ensures len { len buf.new ≡ len buf.old }
    ensures log { LogsWithin start (start + len buf.old) (S.ranges source.old) (S.ranges source.new) }
    ensures source { SourceStays S.held S.attached S.ranges source.old source.new }
    ensures cause { HasCause (S.tally source.old) (S.tally source.new) result }
{
    log_law();
    let before = buf.len() - BLOCK_LEN;
    if before == 0 {
        return Ok(());
    }
    source.read_at(start, &mut buf[..before])?;
    Ok(())
}

// Puts a block in the place of the last of the buffer.
fn put_last(buf: &mut [u8], block: &[u8])
    requires room { 2880 ≤ len buf.old }
    requires block { len block.now ≡ 2880 }
    ensures { buf.new ≡ take (len buf.old - 2880) buf.old ++ block.now }
{
    let before = buf.len() - BLOCK_LEN;
    buf[before..].copy_from_slice(block);
}

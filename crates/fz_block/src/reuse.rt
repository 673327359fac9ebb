//! The next header of a file, in a buffer that is there already, if that has room for it.
ghost use Rattle.std.specs.Prelude.{◌≡◌, ◌⊎◌, ◌+◌, ◌-◌, ◌*◌, ◌^◌, ◌≤◌, ◌<◌, Ok, Some, max, min, take, length as len, IfOk, IfSome, OnErr, OnOk};
ghost use Rattle.fz_base.specs.Keeps.{SourceStays};
ghost use Rattle.fz_base.specs.Meter.{taken};
ghost use Rattle.fz_base.specs.Source.{Reads, LogsWithin};
ghost use Rattle.fz_base.specs.Stop.{ReadsAndTakes, IsDefined, TellsLimit};
ghost use Rattle.fz_base.specs.Takings.{TellsFirstPast, highest};
ghost use Rattle.fz_block.specs.Checks.{header_blocks_of, header_touched, hdu_at};
ghost use Rattle.fz_block.specs.Facts.{IsHeaderOf};
ghost use Rattle.fz_block.specs.Header.{next_start_of};
ghost use Rattle.fz_block.specs.Takings.{header_taking, facts_in};

use crate::blocks::{BLOCK_LEN, header_blocks};
use crate::next::ReadHeader;
use crate::read::{buffered_header, read_header};
use fz_base::{Bytes, Meter, Source, Stop, log_law};

/// Reads and checks the header of the HDU that begins at this byte, into the front of a buffer of at least one block, which is
/// from this meter (FITS 4.0, sections 3.3.1 and 4.4.1). Each block is read once, after the first 8 bytes of an extension.
///
/// If the buffer has no room for the header, it is handed back, and one of the header's length, of at most 737,280 bytes, is taken
/// in its place. The header is read into that once more. After Ok the answer has the buffer that is live then; after an error
/// neither is.
///
/// Refused as by `header_blocks` and then `buffered_header`.
pub fn header_into<S: Source>(
    source: &mut S,
    length: u64,
    hdu: u32,
    start: u64,
    meter: &mut Meter,
    mut room: Bytes,
) -> Result<ReadHeader, Stop>
    requires attached { S.attached source.old ≡ Some length }
    requires within { (start < length) ⊎ ((hdu ≡ 0) × (start ≡ 0)) }
    requires room { (2880 ≤ len room) × (len room ≤ meter.old.live) }
    ensures exact { IfSome (S.held source.old) (λ g. IsDefined (hdu_at hdu start g) (facts_in result)) }
    ensures bytes { IfOk result (λ r. Reads (S.held source.old) start (take (2880 * r.facts.blocks) r.bytes)) }
    ensures facts { IfOk result (λ r. IsHeaderOf (take (2880 * r.facts.blocks) r.bytes) r.facts × (r.facts.hdu ≡ hdu) × (r.facts.start ≡ start)) }
    ensures within { IfOk result (λ r. (next_start_of r.facts ≤ length) × (next_start_of r.facts ≤ 2 ^ 62)) }
    ensures room { IfOk result (λ r. len r.bytes ≡ max (len room) (2880 * r.facts.blocks)) }
    ensures live { IfOk result (λ r. (len r.bytes ≤ meter.new.live) × (meter.new.live - len r.bytes ≡ meter.old.live - len room)) }
    ensures reached { OnOk result (meter.new.peak ≡ max meter.old.peak meter.new.live) }
    ensures given { OnErr result (meter.new.live ≡ meter.old.live - len room) }
    ensures risen { (meter.new.limit ≡ meter.old.limit) × (meter.old.peak ≤ meter.new.peak) }
    ensures first_past { IfSome (S.held source.old)
        (λ g. TellsFirstPast meter.old.limit (header_taking (meter.old.live - len room) (header_blocks_of hdu start g)) result) }
    ensures peak { IfSome (S.held source.old)
        (λ g. meter.new.peak ≤ max meter.old.peak (highest (header_taking (meter.old.live - len room) (header_blocks_of hdu start g)))) }
    ensures exact_peak { OnOk result (IfSome (S.held source.old)
        (λ g. meter.new.peak ≡ max meter.old.peak (highest (header_taking (meter.old.live - len room) (header_blocks_of hdu start g))))) }
    ensures most { meter.new.peak ≤ max meter.old.peak (meter.old.live - len room + 737280) }
    ensures limit { TellsLimit meter.old.limit (meter.old.live - len room + 737280) result }
    ensures touched { IfSome (S.held source.old) (λ g. LogsWithin start (header_touched hdu start g) (S.ranges source.old) (S.ranges source.new)) }
    ensures log { LogsWithin start (min length (start + 737280)) (S.ranges source.old) (S.ranges source.new) }
    ensures source { SourceStays S.held S.attached S.ranges source.old source.new }
    ensures cause { ReadsAndTakes (S.tally source.old) (S.tally source.new) meter.old.limit result }
{
    log_law();
    // What is live is at most the peak, and that at most the limit.
    let (_live, _peak) = (meter.live(), meter.peak());
    let answer = header_blocks(source, length, hdu, start, room.as_mut_slice());
    let blocks = match answer {
        Ok(blocks) => blocks,
        Err(stop) => {
            meter.give_bytes(room);
            return Err(stop);
        }
    };
    let size = BLOCK_LEN * blocks as usize;
    if size > room.len() as usize {
        meter.give_bytes(room);
        return longer_header(source, length, hdu, start, meter, blocks);
    }
    match buffered_header(&room.as_slice()[..size], length, hdu, start) {
        Ok(facts) => Ok(ReadHeader { facts, bytes: room }),
        Err(fault) => {
            meter.give_bytes(room);
            Err(Stop::Refused(fault))
        }
    }
}

// Reads the header that has so many blocks into a buffer of its length from the meter.
fn longer_header<S: Source>(
    source: &mut S,
    length: u64,
    hdu: u32,
    start: u64,
    meter: &mut Meter,
    blocks: u32,
) -> Result<ReadHeader, Stop>
    requires attached { S.attached source.old ≡ Some length }
    requires found { IfSome (S.held source.old) (λ g. header_blocks_of hdu start g ≡ Ok blocks) }
    requires range { (0 < blocks) × (blocks ≤ 256) × (start + 2880 * blocks ≤ length) }
    ensures exact { IfSome (S.held source.old) (λ g. IsDefined (hdu_at hdu start g) (facts_in result)) }
    ensures bytes { IfOk result (λ r. Reads (S.held source.old) start r.bytes) }
    ensures facts { IfOk result (λ r. IsHeaderOf r.bytes r.facts × (r.facts.hdu ≡ hdu) × (r.facts.start ≡ start)) }
    ensures within { IfOk result (λ r. (next_start_of r.facts ≤ length) × (next_start_of r.facts ≤ 2 ^ 62)) }
    ensures len { IfOk result (λ r. len r.bytes ≡ 2880 * blocks) }
    ensures taken { IfOk result (λ r. (meter.old.live + 2880 * blocks ≤ meter.old.limit) × (meter.new ≡ taken meter.old (2880 * blocks))) }
    ensures given { OnErr result ((meter.new.live ≡ meter.old.live) × (meter.new.limit ≡ meter.old.limit)) }
    ensures peak { (meter.old.peak ≤ meter.new.peak) × (meter.new.peak ≤ max meter.old.peak (meter.old.live + 2880 * blocks)) }
    ensures first_past { IfSome (S.held source.old)
        (λ g. TellsFirstPast meter.old.limit (header_taking meter.old.live (header_blocks_of hdu start g)) result) }
    ensures limit { TellsLimit meter.old.limit (meter.old.live + 737280) result }
    ensures log { LogsWithin start (start + 2880 * blocks) (S.ranges source.old) (S.ranges source.new) }
    ensures source { SourceStays S.held S.attached S.ranges source.old source.new }
    ensures cause { ReadsAndTakes (S.tally source.old) (S.tally source.new) meter.old.limit result }
{
    log_law();
    let mut buf = meter.bytes(BLOCK_LEN as u64 * u64::from(blocks))?;
    let answer = read_header(source, length, hdu, start, buf.as_mut_slice());
    match answer {
        Ok(facts) => Ok(ReadHeader { facts, bytes: buf }),
        Err(stop) => {
            meter.give_bytes(buf);
            Err(stop)
        }
    }
}

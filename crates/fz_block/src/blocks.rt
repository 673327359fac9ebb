//! The blocks of a header.
ghost use Rattle.std.specs.Prelude.{◌≡◌, ◌⊎◌, ◌+◌, ◌*◌, ◌≤◌, ◌<◌, Ok, Some, min, take, drop, codes, bytes_eq, length as len, IfOk, IfErr, IfSome};
ghost use Rattle.fz_base.specs.Counts.{HasCause};
ghost use Rattle.fz_base.specs.Keeps.{SourceStays};
ghost use Rattle.fz_base.specs.Stop.{ReadsOnly, IsDefined, IfRefused};
ghost use Rattle.fz_base.specs.Source.{LogsWithin, Reads};
ghost use Rattle.fz_block.specs.Again.{HasBlocks, IsLastBlock};
ghost use Rattle.fz_block.specs.Checks.{IsBlockRefusal, header_blocks_of, header_touched};
ghost use Rattle.fz_block.specs.Scan.{begin_says, block_says, next_block_says};

use crate::cards::{card, end_card, is_set};
use crate::refusing::refused;
use fz_base::{Failed, Fault, Kind, Place, Source, Stop, log_law};
use fz_card::Name;

/// The length of a block in bytes (FITS 4.0, section 3.1).
pub const BLOCK_LEN: usize = 2880;

/// The most HDUs of a file.
const MAX_HDUS: u32 = 65_536;

/// The most blocks of a header.
const MAX_BLOCKS: u32 = 256;

/// Reads the header at `start` block by block, and answers the number of its blocks up to the one
/// with END (FITS 4.0, sections 3.3.1 and 3.4.1).
///
/// After Ok the buffer holds, from its first byte, all blocks of the header if it has room for them (clause `kept`); if it has
/// room for one block only, it holds the last of them (clause `last`).
///
/// Refused, in this order: this is the 65,537th HDU (Limit); bytes after an HDU do not begin with
/// `XTENSION` (TrailingBytes); a block of the header passes the end of the file (Truncated); card 0 of
/// HDU 0 is not SIMPLE with T (NotFits); 256 blocks have no END (LongHeader).
pub fn header_blocks<S: Source>(
    source: &mut S,
    length: u64,
    hdu: u32,
    start: u64,
    buf: &mut [u8],
) -> Result<u32, Stop>
    requires attached { S.attached source.old ≡ Some length }
    requires room { 2880 ≤ len buf.old }
    requires within { (start < length) ⊎ ((hdu ≡ 0) × (start ≡ 0)) }
    ensures range { IfOk result (λ n. (0 < n) × (n ≤ 256) × (start + 2880 * n ≤ length)) }
    ensures exact { IfSome (S.held source.old) (λ g. IsDefined (header_blocks_of hdu start g) result) }
    ensures kept { IfOk result (λ n. HasBlocks (S.held source.old) start n buf.new) }
    ensures last { IfOk result (λ n. IsLastBlock (S.held source.old) start n buf.new) }
    ensures log { LogsWithin start (min length (start + 737280)) (S.ranges source.old) (S.ranges source.new) }
    ensures touched { IfSome (S.held source.old) (λ g. LogsWithin start (header_touched hdu start g) (S.ranges source.old) (S.ranges source.new)) }
    ensures refused { IfRefused result (λ x. (x.hdu ≡ hdu) × IsBlockRefusal x.kind) }
    ensures source { SourceStays S.held S.attached S.ranges source.old source.new }
    ensures cause { ReadsOnly (S.tally source.old) (S.tally source.new) result }
{
    log_law();
    check_begin(source, length, hdu, start)?;
    search_end(source, length, hdu, start, buf)
}

// A header may begin here: this HDU is not one too many, and an extension begins with XTENSION.
fn check_begin<S: Source>(source: &mut S, length: u64, hdu: u32, start: u64) -> Result<(), Stop>
    requires attached { S.attached source.old ≡ Some length }
    requires within { (start < length) ⊎ ((hdu ≡ 0) × (start ≡ 0)) }
    ensures exact { IfSome (S.held source.old) (λ g. IsDefined (begin_says hdu start g) result) }
    ensures log { LogsWithin start (min length (start + 2880)) (S.ranges source.old) (S.ranges source.new) }
    ensures refused { IfRefused result (λ x. (x.hdu ≡ hdu) × IsBlockRefusal x.kind) }
    ensures source { SourceStays S.held S.attached S.ranges source.old source.new }
    ensures cause { ReadsOnly (S.tally source.old) (S.tally source.new) result }
{
    if hdu >= MAX_HDUS {
        let fault = refused(hdu, Place::Byte(start), Kind::Limit);
        return Err(Stop::Refused(fault));
    }
    if hdu == 0 {
        return Ok(());
    }
    match begins_extension(source, length, start) {
        Ok(true) => Ok(()),
        Ok(false) => {
            let fault = refused(hdu, Place::Byte(start), Kind::TrailingBytes);
            Err(Stop::Refused(fault))
        }
        Err(failed) => Err(Stop::reading(failed)),
    }
}

// The number of blocks up to the one with END.
fn search_end<S: Source>(
    source: &mut S,
    length: u64,
    hdu: u32,
    start: u64,
    buf: &mut [u8],
) -> Result<u32, Stop>
    requires attached { S.attached source.old ≡ Some length }
    requires room { 2880 ≤ len buf.old }
    requires within { start ≤ length }
    requires begins { IfSome (S.held source.old) (λ g. begin_says hdu start g ≡ Ok tt) }
    ensures range { IfOk result (λ n. (0 < n) × (n ≤ 256) × (start + 2880 * n ≤ length)) }
    ensures exact { IfSome (S.held source.old) (λ g. IsDefined (header_blocks_of hdu start g) result) }
    ensures kept { IfOk result (λ n. HasBlocks (S.held source.old) start n buf.new) }
    ensures last { IfOk result (λ n. IsLastBlock (S.held source.old) start n buf.new) }
    ensures log { LogsWithin start (min length (start + 737280)) (S.ranges source.old) (S.ranges source.new) }
    ensures touched { IfSome (S.held source.old) (λ g. LogsWithin start (header_touched hdu start g) (S.ranges source.old) (S.ranges source.new)) }
    ensures refused { IfRefused result (λ x. (x.hdu ≡ hdu) × IsBlockRefusal x.kind) }
    ensures source { SourceStays S.held S.attached S.ranges source.old source.new }
    ensures cause { ReadsOnly (S.tally source.old) (S.tally source.new) result }
{
    log_law();
    for b in 0..MAX_BLOCKS {
        if has_end(source, length, hdu, start, b, buf)? {
            return Ok(b + 1);
        }
    }
    let fault = refused(hdu, Place::Byte(start), Kind::LongHeader);
    Err(Stop::Refused(fault))
}

// Whether XTENSION begins at this byte.
fn begins_extension<S: Source>(source: &mut S, length: u64, start: u64) -> Result<bool, Failed>
    requires attached { S.attached source.old ≡ Some length }
    requires within { start < length }
    ensures exact { IfOk result (λ b. IfSome (S.held source.old) (λ g. b ≡ bytes_eq (take 8 (drop start g)) (codes "XTENSION"))) }
    ensures log { LogsWithin start (min length (start + 2880)) (S.ranges source.old) (S.ranges source.new) }
    ensures source { SourceStays S.held S.attached S.ranges source.old source.new }
    ensures cause { HasCause (S.tally source.old) (S.tally source.new) result }
{
    log_law();
    if length - start < 8 {
        return Ok(false);
    }
    let mut first = [0; 8];
    source.read_at(start, &mut first)?;
    Ok(first == Name::XTENSION.bytes)
}

// Reads block b of a header to its place in the buffer, or to the end of one that has no room for it there, and answers
// whether it has END.
fn has_end<S: Source>(
    source: &mut S,
    length: u64,
    hdu: u32,
    start: u64,
    b: u32,
    buf: &mut [u8],
) -> Result<bool, Stop>
    requires attached { S.attached source.old ≡ Some length }
    requires room { 2880 ≤ len buf.old }
    requires within { start + 2880 * b ≤ length }
    requires few { b < 256 }
    ensures within { IfOk result (λ e. start + 2880 * (b + 1) ≤ length) }
    ensures exact { IfSome (S.held source.old) (λ g. IsDefined (next_block_says hdu start b g) result) }
    ensures len { len buf.new ≡ len buf.old }
    ensures kept { IfOk result (λ e. HasBlocks (S.held source.old) start b buf.old → HasBlocks (S.held source.old) start (b + 1) buf.new) }
    ensures last { IfOk result (λ e. IsLastBlock (S.held source.old) start (b + 1) buf.new) }
    ensures log { LogsWithin (start + 2880 * b) (min length (start + 2880 * (b + 1))) (S.ranges source.old) (S.ranges source.new) }
    ensures refused { IfRefused result (λ x. (x.hdu ≡ hdu) × IsBlockRefusal x.kind) }
    ensures source { SourceStays S.held S.attached S.ranges source.old source.new }
    ensures cause { ReadsOnly (S.tally source.old) (S.tally source.new) result }
{
    let at = (BLOCK_LEN * b as usize).min(buf.len() - BLOCK_LEN);
    read_block(source, length, hdu, start, b, &mut buf[at..at + BLOCK_LEN])
}

// Reads block b of a header, and answers whether it has END.
fn read_block<S: Source>(
    source: &mut S,
    length: u64,
    hdu: u32,
    start: u64,
    b: u32,
    block: &mut [u8],
) -> Result<bool, Stop>
    requires attached { S.attached source.old ≡ Some length }
    requires block { len block.old ≡ 2880 }
    requires within { start + 2880 * b ≤ length }
    requires few { b < 256 }
    ensures within { IfOk result (λ e. start + 2880 * (b + 1) ≤ length) }
    ensures exact { IfSome (S.held source.old) (λ g. IsDefined (next_block_says hdu start b g) result) }
    ensures len { len block.new ≡ 2880 }
    ensures read { IfOk result (λ e. Reads (S.held source.old) (start + 2880 * b) block.new) }
    ensures log { LogsWithin (start + 2880 * b) (min length (start + 2880 * (b + 1))) (S.ranges source.old) (S.ranges source.new) }
    ensures refused { IfRefused result (λ x. (x.hdu ≡ hdu) × IsBlockRefusal x.kind) }
    ensures source { SourceStays S.held S.attached S.ranges source.old source.new }
    ensures cause { ReadsOnly (S.tally source.old) (S.tally source.new) result }
{
    log_law();
    let at = start + BLOCK_LEN as u64 * u64::from(b);
    if length - at < BLOCK_LEN as u64 {
        return Err(Stop::Refused(refused(hdu, Place::Byte(length), Kind::Truncated)));
    }
    source.read_at(at, block).map_err(Stop::reading)?;
    match end_in(hdu, b, block) {
        Ok(has_end) => Ok(has_end),
        Err(fault) => Err(Stop::Refused(fault)),
    }
}

// What block b of the header of an HDU says: whether it has END, or why it is refused.
fn end_in(hdu: u32, b: u32, block: &[u8]) -> Result<bool, Fault>
    requires { len block.now ≡ 2880 }
    ensures says { result ≡ block_says hdu b block.now }
    ensures refused { IfErr result (λ x. (x.hdu ≡ hdu) × IsBlockRefusal x.kind) }
{
    if hdu == 0 && b == 0 && !is_set(&card(block, 0), &Name::SIMPLE) {
        return Err(refused(hdu, Place::Card(0), Kind::NotFits));
    }
    Ok(end_card(block).is_some())
}

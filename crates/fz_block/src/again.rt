//! A header of a file once more, in a buffer that is there already.
ghost use Rattle.std.specs.Prelude.{◌≡◌, ◌⊎◌, ◌+◌, ◌*◌, ◌^◌, ◌≤◌, ◌<◌, Some, min, take, length as len, IfOk, IfSome};
ghost use Rattle.fz_base.specs.Keeps.{SourceStays};
ghost use Rattle.fz_base.specs.Source.{Reads, LogsWithin};
ghost use Rattle.fz_base.specs.Stop.{ReadsOnly, IsDefined, IfRefused};
ghost use Rattle.fz_block.specs.Again.{hdu_again_at};
ghost use Rattle.fz_block.specs.Checks.{header_touched};
ghost use Rattle.fz_block.specs.Facts.{IsHeaderOf};
ghost use Rattle.fz_block.specs.Header.{next_start_of};

use crate::blocks::{BLOCK_LEN, header_blocks};
use crate::header::Header;
use crate::read::buffered_header;
use crate::refusing::refused;
use fz_base::{Kind, Place, Source, Stop};

/// Reads and checks the header of the HDU that begins at this byte once more, into the first bytes of a buffer,
/// which has room for the longest header of the file (FITS 4.0, sections 3.3.1 and 4.4.1). Each block is read once,
/// after the first 8 bytes of an extension.
///
/// Refused as by `header_blocks`; then with BadCard at card 0 if the buffer has no room for the header,
/// since the source gives other bytes than before; then as by `buffered_header`.
pub fn header_again<S: Source>(
    source: &mut S,
    length: u64,
    hdu: u32,
    start: u64,
    buf: &mut [u8],
) -> Result<Header, Stop>
    requires attached { S.attached source.old ≡ Some length }
    requires within { (start < length) ⊎ ((hdu ≡ 0) × (start ≡ 0)) }
    requires room { 2880 ≤ len buf.old }
    ensures exact { IfSome (S.held source.old) (λ g. IsDefined (hdu_again_at (len buf.old) hdu start g) result) }
    ensures refused { IfRefused result (λ x. x.hdu ≡ hdu) }
    ensures room { IfOk result (λ h. 2880 * h.blocks ≤ len buf.old) }
    ensures bytes { IfOk result (λ h. Reads (S.held source.old) start (take (2880 * h.blocks) buf.new)) }
    ensures facts { IfOk result (λ h. IsHeaderOf (take (2880 * h.blocks) buf.new) h × (h.hdu ≡ hdu) × (h.start ≡ start)) }
    ensures within { IfOk result (λ h. (next_start_of h ≤ length) × (next_start_of h ≤ 2 ^ 62)) }
    ensures log { LogsWithin start (min length (start + 737280)) (S.ranges source.old) (S.ranges source.new) }
    ensures touched { IfSome (S.held source.old) (λ g. LogsWithin start (header_touched hdu start g) (S.ranges source.old) (S.ranges source.new)) }
    ensures source { SourceStays S.held S.attached S.ranges source.old source.new }
    ensures cause { ReadsOnly (S.tally source.old) (S.tally source.new) result }
{
    let blocks = header_blocks(source, length, hdu, start, buf)?;
    let size = BLOCK_LEN * blocks as usize;
    if size > buf.len() {
        return Err(Stop::Refused(refused(hdu, Place::Card(0), Kind::BadCard)));
    }
    match buffered_header(&buf[..size], length, hdu, start) {
        Ok(header) => Ok(header),
        Err(fault) => Err(Stop::Refused(fault)),
    }
}

//! A card of a file, read again.
ghost use Rattle.std.specs.Prelude.{◌≡◌, ◌<◌, Some, IfSome};

use fz_base::{Meter, Source};
use fz_block::{BLOCK_LEN, header_at, next_start};
use std::alloc::Global;

/// The length of a card in bytes (FITS 4.0, section 3.3.1).
const CARD: usize = 80;

/// The longest header in bytes: no buffer is longer.
const LONGEST: u64 = 737_280;

/// The card of this index in the header of this HDU of a file of this length, if it can still be read.
pub(crate) fn card_again<S: Source>(
    alloc: Global,
    source: &mut S,
    length: u64,
    hdu: u32,
    card: u32,
) -> Option<[u8; CARD]>
    requires { S.attached source.old ≡ Some length }
{
    let mut meter = Meter::new(alloc, LONGEST);
    let start = header_start(source, length, hdu, &mut meter)?;
    let at = start.checked_add(CARD as u64 * u64::from(card))?;
    if length.checked_sub(at)? < CARD as u64 {
        return None;
    }
    let mut bytes = [0; CARD];
    source.read_at(at, &mut bytes).ok()?;
    Some(bytes)
}

// Where the header of an HDU begins, by those before it.
fn header_start<S: Source>(source: &mut S, length: u64, hdu: u32, meter: &mut Meter) -> Option<u64>
    requires attached { S.attached source.old ≡ Some length }
    ensures inside { IfSome result (λ start. start < length) }
    ensures attached { S.attached source.new ≡ Some length }
{
    let mut block = [0; BLOCK_LEN];
    let mut start = 0;
    for at in 0..hdu {
        if start >= length {
            return None;
        }
        let header = header_at(source, length, at, start, meter, &mut block).ok()?;
        start = next_start(&header.facts);
        meter.give_bytes(header.bytes);
    }
    if start < length { Some(start) } else { None }
}

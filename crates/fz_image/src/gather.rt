//! The pixels of a tile, read from the image.
ghost use Rattle.std.specs.Prelude.{ℕ, ◌≡◌, ◌+◌, ◌*◌, ◌<◌, ◌≤◌, ◌^◌, ◌++◌, Some, take, drop, length as len, OnOk, IfSome};
ghost use Rattle.fz_base.specs.Keeps.{SourceStays};
ghost use Rattle.fz_base.specs.Source.{LogsWithin};
ghost use Rattle.fz_base.specs.Stop.{OnlyReads};
ghost use Rattle.fz_grid.specs.Arrays.{product};
ghost use Rattle.fz_grid.specs.Region.{IsShape, IsWithin, lengths_of, places_of, region_corner, region_lengths};
ghost use Rattle.fz_image.specs.Layout.{HasPixels, ReadsPixels, pixel_bytes_of};
ghost use Rattle.fz_image.specs.Strips.{HasStrips};
ghost use Rattle.fz_image.specs.Tiles.{AreBelow, pixels_at_places};

use crate::layout::Layout;
use crate::strips::Strips;
use fz_base::{Source, Stop, log_law};
use fz_grid::{Region, runs};

/// Some bytes of the file, and the part of a buffer that they go to.
#[derive(Clone, Copy, Debug)]
pub(crate) struct Part {
    /// The byte of the file at which they begin.
    pub(crate) from: u64,
    /// The place of the buffer at which they begin.
    pub(crate) at: u64,
    /// How many they are.
    pub(crate) count: u64,
}

/// Reads the bytes of the pixels of a region of an image, axis 1 fastest: each run of neighbouring pixels at
/// once, if the strips do not have it.
pub(crate) fn read_region<S: Source>(
    source: &mut S,
    layout: &Layout,
    region: &Region,
    strips: &Strips,
    ahead: &[u8],
    into: &mut [u8],
) -> Result<(), Stop>
    requires within { HasPixels (S.attached source.old) layout.now }
    requires near { layout.now.pixels_at + pixel_bytes_of layout.now < 2 ^ 63 }
    requires pixel { 0 < layout.now.pixel_len }
    requires shape { IsShape layout.now.plan.shape }
    requires region { IsWithin layout.now.plan.shape region.now }
    requires strips { HasStrips (S.held source.old) strips.now ahead.now }
    requires room { len into.old ≡ layout.now.pixel_len * product (region_lengths region.now) }
    ensures pixels { OnOk result (IfSome (S.held source.old)
        (λ g. into.new ≡ pixels_at_places layout.now.pixel_len (drop layout.now.pixels_at g)
        (places_of (lengths_of layout.now.plan.shape) (region_corner region.now) (region_lengths region.now)))) }
    ensures below { AreBelow (product (lengths_of layout.now.plan.shape))
        (places_of (lengths_of layout.now.plan.shape) (region_corner region.now) (region_lengths region.now)) }
    ensures stays { SourceStays S.held S.attached S.ranges source.old source.new × (len into.new ≡ len into.old) }
    ensures log { ReadsPixels layout.now (S.ranges source.old) (S.ranges source.new) }
    ensures cause { OnlyReads (S.tally source.old) (S.tally source.new) result }
{
    log_law();
    let mut line = 0u64;
    let mut done = 0u64;
    for (first, count) in runs(&layout.plan.shape, region) {
        let len = u64::from(layout.pixel_len) * count;
        let from = layout.pixels_at + u64::from(layout.pixel_len) * first;
        let part = Part {
            from,
            at: done,
            count: len,
        };
        get_part(source, part, strips, line, ahead, into)?;
        line = line.saturating_add(1);
        done += len;
    }
    Ok(())
}

// Puts bytes from this place of the source on into a part of a buffer: those of the strip of this number, if it has them.
fn get_part<S: Source>(
    source: &mut S,
    part: Part,
    strips: &Strips,
    line: u64,
    ahead: &[u8],
    into: &mut [u8],
) -> Result<(), Stop>
    requires within { (n : ℕ) × (S.attached source.old ≡ Some n) × (part.from + part.count ≤ n) }
    requires some { 0 < part.count }
    requires strips { HasStrips (S.held source.old) strips.now ahead.now }
    requires room { part.at + part.count ≤ len into.old }
    ensures part { OnOk result (IfSome (S.held source.old)
        (λ g. take (part.at + part.count) into.new ≡ take part.at into.old ++ take part.count (drop part.from g))) }
    ensures stays { SourceStays S.held S.attached S.ranges source.old source.new × (len into.new ≡ len into.old) }
    ensures log { LogsWithin part.from (part.from + part.count) (S.ranges source.old) (S.ranges source.new) }
    ensures cause { OnlyReads (S.tally source.old) (S.tally source.new) result }
{
    log_law();
    match strips.place_of(line, part.from, part.count) {
        Some(place) => {
            copy_part(ahead, place, into, part.at, part.count);
            Ok(())
        }
        None => read_part(source, part, into),
    }
}

// Copies bytes from this place on into a part of a buffer.
fn copy_part(bytes: &[u8], place: u64, into: &mut [u8], at: u64, count: u64)
    requires within { place + count ≤ len bytes.now }
    requires room { at + count ≤ len into.old }
    ensures part { take (at + count) into.new ≡ take at into.old ++ take count (drop place bytes.now) }
    ensures len { len into.new ≡ len into.old }
{
    let from = &bytes[place as usize..(place + count) as usize];
    into[at as usize..(at + count) as usize].copy_from_slice(from);
}

/// Reads bytes from this place of the source on into a part of a buffer.
pub(crate) fn read_part<S: Source>(source: &mut S, part: Part, into: &mut [u8]) -> Result<(), Stop>
    requires within { (n : ℕ) × (S.attached source.old ≡ Some n) × (part.from + part.count ≤ n) }
    requires some { 0 < part.count }
    requires room { part.at + part.count ≤ len into.old }
    ensures part { OnOk result (IfSome (S.held source.old)
        (λ g. take (part.at + part.count) into.new ≡ take part.at into.old ++ take part.count (drop part.from g))) }
    ensures stays { SourceStays S.held S.attached S.ranges source.old source.new × (len into.new ≡ len into.old) }
    ensures log { LogsWithin part.from (part.from + part.count) (S.ranges source.old) (S.ranges source.new) }
    ensures cause { OnlyReads (S.tally source.old) (S.tally source.new) result }
{
    log_law();
    let bytes = &mut into[part.at as usize..(part.at + part.count) as usize];
    source.read_at(part.from, bytes).map_err(Stop::reading)
}

//! Pixels that are written to their places in an image.
ghost use Rattle.std.specs.Prelude.{ℕ, ◌≡◌, ◌+◌, ◌*◌, ◌<◌, ◌≤◌, ◌^◌, IsTrue, length as len, OnOk};
ghost use Rattle.std.specs.List.{AllByRecursion};
ghost use Rattle.fz_base.specs.Keeps.{SinkStays};
ghost use Rattle.fz_base.specs.Stop.{Writes};
ghost use Rattle.fz_job.specs.Held.{IsHeld, settled};
ghost use Rattle.fz_grid.specs.Arrays.{product};
ghost use Rattle.fz_grid.specs.Region.{IsShape, IsWithin, lengths_of, places_of, region_corner, region_lengths};
ghost use Rattle.fz_grid.specs.Line.{IsLineWithin, lines_in_cutout};
ghost use Rattle.fz_grid.specs.LineWalks.{lines_left};
ghost use Rattle.fz_pixels.specs.Pieces.{pieces_written};

use fz_base::{Sink, Stop, output_law, write_behind};
use fz_block::Axes;
use fz_grid::{Lines, Region, runs};
use fz_job::{Held, hold_piece};

/// Where the pixels of an image are in the sink.
#[derive(Clone, Copy)]
pub(crate) struct PixelPlaces {
    /// The byte, after byte 0, at which the data begin.
    pub(crate) data_at: u64,
    /// The bytes of a pixel.
    pub(crate) pixel_len: u32,
    /// The shape of the image.
    pub(crate) shape: Axes,
}

/// Has the bytes of the pixels of a region, axis 1 fastest, written to their places, now or later: each run of neighbouring
/// pixels at once.
pub(crate) fn write_region<K: Sink>(
    sink: &mut K,
    places: PixelPlaces,
    region: &Region,
    bytes: &[u8],
    held: &mut [u8],
    back: &mut Held,
) -> Result<(), Stop>
    requires created { IsTrue (K.created sink.old) }
    requires behind { 0 < places.data_at }
    requires near { places.data_at + places.pixel_len * product (lengths_of places.shape) < 2 ^ 64 }
    requires shape { IsShape places.shape }
    requires region { IsWithin places.shape region.now }
    requires bytes { len bytes.now ≡ places.pixel_len * product (region_lengths region.now) }
    requires held { IsHeld back.old held.old }
    ensures written { OnOk result (settled back.new held.new (K.contents sink.new)
        ≡ pieces_written places.pixel_len places.data_at (places_of (lengths_of places.shape) (region_corner region.now) (region_lengths region.now))
        bytes.now (settled back.old held.old (K.contents sink.old))) }
    ensures kept { OnOk result (IsHeld back.new held.new) }
    ensures stays { SinkStays K.created K.contents sink.old sink.new × (len held.new ≡ len held.old) }
    ensures cause { Writes (K.tally sink.old) (K.tally sink.new) result }
{
    output_law();
    let mut done = 0u64;
    for (first, count) in runs(&places.shape, region) {
        let len = u64::from(places.pixel_len) * count;
        let run = &bytes[done as usize..(done + len) as usize];
        hold_piece(
            sink,
            places.data_at + u64::from(places.pixel_len) * first,
            run,
            held,
            back,
        )?;
        done += len;
    }
    Ok(())
}

/// Writes the bytes of the picks of these lines to their places in what is cut out of an image, whose data begin at this
/// byte of the sink after byte 0: lines that are together there at once.
pub(crate) fn write_lines<K: Sink>(
    sink: &mut K,
    data_at: u64,
    pixel_len: u32,
    lines: Lines,
    bytes: &[u8],
) -> Result<(), Stop>
    requires created { IsTrue (K.created sink.old) }
    requires behind { 0 < data_at }
    requires some { 1 ≤ pixel_len }
    requires within { (tile : ℕ) × ((cutout : ℕ) × AllByRecursion (IsLineWithin tile cutout) (lines_left lines)
        × (data_at + pixel_len * cutout < 2 ^ 64)) }
    requires bytes { len bytes.now ≡ pixel_len * len (lines_in_cutout (lines_left lines)) }
    ensures written { OnOk result (K.contents sink.new ≡ pieces_written pixel_len data_at (lines_in_cutout (lines_left lines))
        bytes.now (K.contents sink.old)) }
    ensures sink { SinkStays K.created K.contents sink.old sink.new }
    ensures cause { Writes (K.tally sink.old) (K.tally sink.new) result }
{
    output_law();
    let len = u64::from(pixel_len);
    // The first pick of a run of neighbours, how many there are, and where their bytes begin.
    let mut first = 0u64;
    let mut count = 0u64;
    let mut done = 0u64;
    for line in lines {
        let more = u64::from(line.count);
        if line.in_cutout == first + count {
            count += more;
            continue;
        }
        let end = done + len * count;
        let run = &bytes[done as usize..end as usize];
        write_behind(sink, data_at + len * first, run)?;
        first = line.in_cutout;
        count = more;
        done = end;
    }
    write_behind(sink, data_at + len * first, &bytes[done as usize..])?;
    Ok(())
}

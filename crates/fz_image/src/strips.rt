//! Lines of an image that are read before they are wanted, together with those of the tiles before them.
ghost use Rattle.std.specs.Prelude.{ℕ, ◌≡◌, ◌+◌, ◌-◌, ◌≤◌, List, Option, length as len, IfSome, OnOk};
ghost use Rattle.fz_base.specs.Keeps.{SourceStays};
ghost use Rattle.fz_base.specs.Stop.{OnlyReads};
ghost use Rattle.fz_grid.specs.Region.{IsShape, IsWithin, axes_of};
ghost use Rattle.fz_image.specs.Layout.{HasPixels, IsLayout, ReadsPixels};
ghost use Rattle.fz_image.specs.Strips.{AreOfImage, HasStrips, IsInStrip, no_strips, strip_at};

use crate::gather::{Part, read_part};
use crate::layout::Layout;
use fz_base::{Source, Stop, log_law};
use fz_grid::{Region, index};

/// A line of so many bytes or more is read by itself: a longer reading would save little.
const LONG: u64 = 4096;

/// Strips of an image that a buffer has, one after another. Each has so many bytes of the file.
#[derive(Clone, Copy, Debug)]
pub struct Strips {
    /// The byte of the file at which the first begins.
    pub at: u64,
    /// How far the beginnings of neighbours are apart.
    pub apart: u64,
    /// The bytes of each.
    pub len: u64,
    /// How many there are.
    pub count: u64,
}

impl Strips {
    /// No strips.
    pub fn none() -> Strips
        ensures nothing { result ≡ no_strips }
        ensures strips { (held : Option (List ℕ)) (bytes : List ℕ) → HasStrips held result bytes }
    {
        Strips {
            at: 0,
            apart: 0,
            len: 0,
            count: 0,
        }
    }

    /// Where so many bytes of the file, from this one on, are among those of all strips, if strip `i` has them.
    pub fn place_of(&self, i: u64, from: u64, count: u64) -> Option<u64>
        ensures { IfSome result (IsInStrip self.now i from count) }
    {
        if i >= self.count {
            return None;
        }
        let skipped = self.apart.checked_mul(i)?;
        let start = self.at.checked_add(skipped)?;
        let before = from.checked_sub(start)?;
        let end = before.checked_add(count)?;
        if end > self.len {
            return None;
        }
        let others = self.len.checked_mul(i)?;
        let place = others.checked_add(before)?;
        Some(place)
    }

    // Whether they have the lines of a tile.
    fn have(&self, lines: &Strips) -> bool {
        self.count == lines.count
            && self.apart == lines.apart
            && self.place_of(0, lines.at, lines.len).is_some()
    }

    // The byte after the last of them.
    fn end(&self) -> Option<u64>
        ensures { IfSome result (λ end. (1 ≤ self.now.count) × (end ≡ strip_at self.now (self.now.count - 1) + self.now.len)) }
    {
        let last = self.count.checked_sub(1)?;
        let skipped = self.apart.checked_mul(last)?;
        let start = self.at.checked_add(skipped)?;
        let end = start.checked_add(self.len)?;
        Some(end)
    }
}

/// Reads the lines of a tile with this region together with those of the tiles that follow it, as many as there is room
/// for, if they are short and were not read.
pub fn look_ahead<S: Source>(
    source: &mut S,
    layout: &Layout,
    region: &Region,
    strips: &mut Strips,
    ahead: &mut [u8],
) -> Result<(), Stop>
    requires layout { IsLayout layout.now }
    requires pixels { HasPixels (S.attached source.old) layout.now }
    requires shape { IsShape layout.now.plan.shape }
    requires region { IsWithin layout.now.plan.shape region.now }
    requires own { IsShape (axes_of region.now) }
    requires strips { HasStrips (S.held source.old) strips.old ahead.old }
    ensures strips { HasStrips (S.held source.new) strips.new ahead.new }
    ensures stays { SourceStays S.held S.attached S.ranges source.old source.new × (len ahead.new ≡ len ahead.old) }
    ensures log { ReadsPixels layout.now (S.ranges source.old) (S.ranges source.new) }
    ensures cause { OnlyReads (S.tally source.old) (S.tally source.new) result }
{
    log_law();
    let Some(lines) = lines_of(layout, region) else {
        return Ok(());
    };
    if strips.have(&lines) {
        return Ok(());
    }
    let Some(wide) = widened(layout, region, &lines, ahead.len() as u64) else {
        return Ok(());
    };
    *strips = Strips::none();
    read_strips(source, layout, &wide, ahead)?;
    *strips = wide;
    Ok(())
}

// The lines of a tile with this region as strips; none if it is longer than 1 along an axis after the second. One line is
// one strip, and so are whole lines of the image.
fn lines_of(layout: &Layout, region: &Region) -> Option<Strips>
    requires shape { IsShape layout.now.plan.shape }
    requires region { IsWithin layout.now.plan.shape region.now }
    requires own { IsShape (axes_of region.now) }
{
    let shape = &layout.plan.shape;
    let pixel = u64::from(layout.pixel_len);
    let first = index(shape, &region.lo);
    let at = pixel.checked_mul(first)?.checked_add(layout.pixels_at)?;
    let pixels = region.pixels();
    let (width, height) = (u64::from(region.len[0]), u64::from(region.len[1]));
    if pixels == width {
        return one_strip(at, pixel.checked_mul(width)?);
    }
    if pixels != width.checked_mul(height)? {
        return None;
    }
    if region.len[0] == shape.len[0] {
        return one_strip(at, pixel.checked_mul(pixels)?);
    }
    Some(Strips {
        at,
        apart: pixel.checked_mul(u64::from(shape.len[0]))?,
        len: pixel.checked_mul(width)?,
        count: height,
    })
}

// One strip, which begins at this byte of the file.
fn one_strip(at: u64, len: u64) -> Option<Strips> {
    Some(Strips {
        at,
        apart: 0,
        len,
        count: 1,
    })
}

// The lines of a tile made longer, so that they have those of the tiles that follow it too: as many tiles as there is room
// for, if they are two or more and their lines are short.
fn widened(layout: &Layout, region: &Region, lines: &Strips, room: u64) -> Option<Strips>
    requires layout { IsLayout layout.now }
    ensures { IfSome result (AreOfImage layout.now room) }
{
    let tiles = room.checked_div(lines.len.checked_mul(lines.count)?)?;
    let len = lines
        .len
        .checked_mul(tiles)?
        .min(left_of(layout, region, lines)?);
    if lines.len >= LONG || len <= lines.len {
        return None;
    }
    let wide = Strips {
        at: lines.at,
        apart: lines.apart,
        len,
        count: lines.count,
    };
    if_within(layout, room, wide)
}

// How many bytes there are from the beginning of a tile on: to the end of the image if the tile is one line, and otherwise
// to the end of the line of the image.
fn left_of(layout: &Layout, region: &Region, lines: &Strips) -> Option<u64>
    requires layout { IsLayout layout.now }
{
    if lines.count == 1 {
        return layout.pixels_end().checked_sub(lines.at);
    }
    let pixels = layout.plan.shape.len[0].checked_sub(region.lo[0])?;
    u64::from(layout.pixel_len).checked_mul(u64::from(pixels))
}

// These strips, if they have bytes, all of them of the image, and there is room for them.
fn if_within(layout: &Layout, room: u64, strips: Strips) -> Option<Strips>
    requires layout { IsLayout layout.now }
    ensures { IfSome result (AreOfImage layout.now room) }
{
    if strips.len == 0 {
        return None;
    }
    if strips.at < layout.pixels_at {
        return None;
    }
    let end = strips.end()?;
    if end > layout.pixels_end() {
        return None;
    }
    let all = strips.len.checked_mul(strips.count)?;
    if all > room {
        return None;
    }
    Some(strips)
}

// Reads strips into the front of the buffer, one after another.
fn read_strips<S: Source>(
    source: &mut S,
    layout: &Layout,
    strips: &Strips,
    ahead: &mut [u8],
) -> Result<(), Stop>
    requires layout { IsLayout layout.now }
    requires pixels { HasPixels (S.attached source.old) layout.now }
    requires strips { AreOfImage layout.now (len ahead.old) strips.now }
    ensures strips { OnOk result (HasStrips (S.held source.new) strips.now ahead.new) }
    ensures stays { SourceStays S.held S.attached S.ranges source.old source.new × (len ahead.new ≡ len ahead.old) }
    ensures log { ReadsPixels layout.now (S.ranges source.old) (S.ranges source.new) }
    ensures cause { OnlyReads (S.tally source.old) (S.tally source.new) result }
{
    log_law();
    for i in 0..strips.count {
        let from = strips.at + strips.apart * i;
        let to = strips.len * i;
        let part = Part {
            from,
            at: to,
            count: strips.len,
        };
        read_part(source, part, ahead)?;
    }
    Ok(())
}

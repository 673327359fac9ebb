//! The checks of the axes and tiles that a packed header says.
ghost use Rattle.std.specs.Prelude.{ℕ, ◌≡◌, ◌-◌, ◌<◌, ◌≤◌, ◌^◌, ◌||◌, min, nat_lt, [], ◌∷◌, ◌++◌, None, Some, codes, map};
ghost use Rattle.std.specs.Prelude.{replicate, slice_index, if◌then◌else◌, IfOk};
ghost use Rattle.std.specs.List.{flat_map, range_with_len};
ghost use Rattle.fz_base.specs.Refusal.{IsFirstOf};
ghost use Rattle.fz_block.specs.Facts.{IsHeaderOf, nine_axes};
ghost use Rattle.fz_block.specs.Hdus.{cards_of};
ghost use Rattle.fz_grid.specs.Arrays.{product};
ghost use Rattle.fz_grid.specs.Grid.{tile_count};
ghost use Rattle.fz_grid.specs.Region.{IsDivided, lengths_of};
ghost use Rattle.fz_head.specs.PackedChecks.{axis_checks, axis_count_checks, shape_checks, tile_check};
ghost use Rattle.fz_head.specs.PackedPlan.{default_tile, numbered_in, said_axes, said_tile, size_of, tile_along};
ghost use Rattle.fz_head.specs.PlainHeader.{axis_count};

use crate::said::{at_name, integer_said, is_positive, refuse_when, require, size, stands};
use fz_base::{Fault, Kind};
use fz_block::{Axes, Header, refusals_law};
use fz_card::{Name, numbered};
use fz_grid::{has_more_places, has_more_tiles};
use fz_head::{MAX_PIXELS, MAX_TILE_PIXELS, MAX_TILES};

/// The most axes of an image.
const MAX_AXES: usize = 9;

/// The greatest length of an axis.
const MAX_AXIS: u64 = 2_147_483_647;

/// ZNAXIS, which is 1 to 9.
fn axis_count(buf: &[u8], header: &Header) -> Result<u32, Fault>
    requires { IsHeaderOf buf.now header.now }
    ensures exact { IsFirstOf (axis_count_checks header.now.hdu (cards_of buf.now)) result }
    ensures value { IfOk result (λ n. n ≡ axis_count (cards_of buf.now)) }
    ensures some { IfOk result (λ n. (1 ≤ n) × (n ≤ 9)) }
{
    let count = integer_said(buf, header, &Name::ZNAXIS);
    require(buf, header, &Name::ZNAXIS)?;
    let other = !is_positive(count);
    refuse_when(other, at_name(buf, header, &Name::ZNAXIS, Kind::BadCard))?;
    let many = size(count) > MAX_AXES as u64;
    refuse_when(many, at_name(buf, header, &Name::ZNAXIS, Kind::Limit))?;
    Ok(size(count) as u32)
}

// ZNAXISi, which is 1 to 2^31 - 1.
fn axis(buf: &[u8], header: &Header, i: u32) -> Result<u32, Fault>
    requires header { IsHeaderOf buf.now header.now }
    requires axis { i ≤ 9 }
    ensures exact { IsFirstOf (axis_checks header.now.hdu (cards_of buf.now) i) result }
    ensures value { IfOk result (λ n. n ≡ size_of (numbered_in (codes "ZNAXIS") i (cards_of buf.now))) }
    ensures some { IfOk result (λ n. 1 ≤ n) }
{
    let name = numbered(b"ZNAXIS", i);
    let length = integer_said(buf, header, &name);
    require(buf, header, &name)?;
    let other = !is_positive(length);
    refuse_when(other, at_name(buf, header, &name, Kind::BadCard))?;
    let long = size(length) > MAX_AXIS;
    refuse_when(long, at_name(buf, header, &name, Kind::Limit))?;
    Ok(size(length) as u32)
}

// The shape of an image with so many axes.
fn axes(buf: &[u8], header: &Header, n: u32) -> Result<Axes, Fault>
    requires header { IsHeaderOf buf.now header.now }
    requires few { n ≤ 9 }
    requires count { n ≡ axis_count (cards_of buf.now) }
    ensures exact { IsFirstOf (flat_map (axis_checks header.now.hdu (cards_of buf.now)) (range_with_len 1 n)) result }
    ensures value { IfOk result (λ a. a ≡ nine_axes (said_axes (cards_of buf.now))) }
    ensures count { IfOk result (λ a. a.n ≡ n) }
    ensures some { IfOk result (λ a. (i : ℕ) → i < n → 1 ≤ slice_index a.len i) }
{
    let len = axis_lengths(buf, header, n)?;
    Ok(Axes { n, len })
}

// The lengths of so many axes, and 0 for those that are not there.
fn axis_lengths(buf: &[u8], header: &Header, n: u32) -> Result<[u32; MAX_AXES], Fault>
    requires header { IsHeaderOf buf.now header.now }
    requires few { n ≤ 9 }
    ensures exact { IsFirstOf (flat_map (axis_checks header.now.hdu (cards_of buf.now)) (range_with_len 1 n)) result }
    ensures value { IfOk result (λ a. a ≡ map (λ i. size_of (numbered_in (codes "ZNAXIS") i (cards_of buf.now)))
        (range_with_len 1 n) ++ replicate (9 - n) 0) }
    ensures some { IfOk result (λ a. (i : ℕ) → i < n → 1 ≤ slice_index a i) }
{
    refusals_law();
    let mut lengths = [0; MAX_AXES];
    for i in 0..n {
        lengths[i as usize] = axis(buf, header, i + 1)?;
    }
    Ok(lengths)
}

// The length of a tile along an axis of this length, which ZTILEi says, if there is one.
fn tile_length(buf: &[u8], header: &Header, i: u32, axis: u32) -> Result<u32, Fault>
    requires header { IsHeaderOf buf.now header.now }
    requires number { i ≤ 9 }
    requires axis { axis ≡ size_of (numbered_in (codes "ZNAXIS") i (cards_of buf.now)) }
    requires some { 1 ≤ axis }
    ensures exact { IsFirstOf (tile_check header.now.hdu (cards_of buf.now) i ∷ []) result }
    ensures value { IfOk result (λ n. n ≡ tile_along (cards_of buf.now) i) }
    ensures some { IfOk result (λ n. (1 ≤ n) × (n ≤ axis)) }
{
    let name = numbered(b"ZTILE", i);
    let length = integer_said(buf, header, &name);
    let said = stands(buf, header, &name);
    let other = said && !is_positive(length);
    refuse_when(other, at_name(buf, header, &name, Kind::BadCard))?;
    Ok(length_within(said, size(length), i, axis))
}

// The length of a tile along axis i: as it is said, cut to the axis; otherwise the whole first axis, and 1
// along the others.
fn length_within(said: bool, length: u64, i: u32, axis: u32) -> u32
    ensures { result ≡ (if said then min length axis else default_tile i axis) }
{
    if said {
        length.min(u64::from(axis)) as u32
    } else if i == 1 {
        axis
    } else {
        1
    }
}

// The tile of an image of this shape.
fn tile(buf: &[u8], header: &Header, shape: &Axes) -> Result<Axes, Fault>
    requires header { IsHeaderOf buf.now header.now }
    requires few { shape.now.n ≤ 9 }
    requires shape { shape.now ≡ nine_axes (said_axes (cards_of buf.now)) }
    requires some { (i : ℕ) → i < shape.now.n → 1 ≤ slice_index shape.now.len i }
    ensures exact { IsFirstOf (flat_map (λ i. tile_check header.now.hdu (cards_of buf.now) i ∷ []) (range_with_len 1 shape.now.n)) result }
    ensures value { IfOk result (λ a. a ≡ nine_axes (said_tile (cards_of buf.now))) }
    ensures count { IfOk result (λ a. a.n ≡ shape.now.n) }
    ensures some { IfOk result (λ a. (i : ℕ) → i < shape.now.n → (1 ≤ slice_index a.len i) × (slice_index a.len i ≤ slice_index shape.now.len i)) }
{
    let len = tile_lengths(buf, header, shape)?;
    Ok(Axes { n: shape.n, len })
}

// The lengths of a tile along the axes of this shape, and 0 for those that are not there.
fn tile_lengths(buf: &[u8], header: &Header, shape: &Axes) -> Result<[u32; MAX_AXES], Fault>
    requires header { IsHeaderOf buf.now header.now }
    requires few { shape.now.n ≤ 9 }
    requires shape { shape.now ≡ nine_axes (said_axes (cards_of buf.now)) }
    requires some { (i : ℕ) → i < shape.now.n → 1 ≤ slice_index shape.now.len i }
    ensures exact { IsFirstOf (flat_map (λ i. tile_check header.now.hdu (cards_of buf.now) i ∷ []) (range_with_len 1 shape.now.n)) result }
    ensures value { IfOk result (λ a. a ≡ map (tile_along (cards_of buf.now)) (range_with_len 1 shape.now.n) ++ replicate (9 - shape.now.n) 0) }
    ensures some { IfOk result (λ a. (i : ℕ) → i < shape.now.n → (1 ≤ slice_index a i) × (slice_index a i ≤ slice_index shape.now.len i)) }
{
    refusals_law();
    let mut lengths = [0; MAX_AXES];
    for i in 0..shape.n {
        lengths[i as usize] = tile_length(buf, header, i + 1, shape.len[i as usize])?;
    }
    Ok(lengths)
}

// Whether there are too many pixels, pixels in a tile, or tiles.
fn is_too_large(shape: &Axes, tile: &Axes) -> bool
    requires few { shape.now.n ≤ 9 }
    requires same { tile.now.n ≡ shape.now.n }
    requires positive { (i : ℕ) → i < shape.now.n → 1 ≤ slice_index tile.now.len i }
    ensures { result ≡ (nat_lt (2 ^ 40) (product (lengths_of shape.now))
        || (nat_lt (2 ^ 26) (product (lengths_of tile.now))
        || nat_lt 2147483647 (tile_count (lengths_of shape.now) (lengths_of tile.now)))) }
{
    has_more_places(shape, MAX_PIXELS)
        || has_more_places(tile, MAX_TILE_PIXELS)
        || has_more_tiles(shape, tile, MAX_TILES)
}

/// The axes of the image and the lengths of its tiles.
pub(crate) fn check_shape(buf: &[u8], header: &Header) -> Result<(Axes, Axes), Fault>
    requires { IsHeaderOf buf.now header.now }
    ensures exact { IsFirstOf (shape_checks header.now.hdu (cards_of buf.now)) result }
    ensures shape { IfOk result (λ r. r.0 ≡ nine_axes (said_axes (cards_of buf.now))) }
    ensures tile { IfOk result (λ r. r.1 ≡ nine_axes (said_tile (cards_of buf.now))) }
    ensures divided { IfOk result (λ r. IsDivided r.0 r.1) }
{
    let n = axis_count(buf, header)?;
    let shape = axes(buf, header, n)?;
    let tile = tile(buf, header, &shape)?;
    let large = is_too_large(&shape, &tile);
    refuse_when(large, at_name(buf, header, &Name::ZNAXIS, Kind::Limit))?;
    Ok((shape, tile))
}

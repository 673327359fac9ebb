//! Which box of an image is decoded next.
ghost use Rattle.std.specs.Prelude.{ℕ, ◌≡◌, ◌↔◌, ◌+◌, ◌*◌, ◌/◌, ◌<◌, ◌≤◌, ◌^◌, IsTrue, IfSome, slice_index};
ghost use Rattle.fz_grid.specs.Arrays.{product};
ghost use Rattle.fz_grid.specs.Region.{IsDivided, IsPlaceOf, IsShape, IsWithin, axes_of, lengths_of, region_lengths};
ghost use Rattle.fz_grid.specs.Sieve.{IsSieveOf, sieve_lengths};
ghost use Rattle.fz_grid.specs.Cutout.{Sifts};
ghost use Rattle.fz_look.specs.Boxes.{HasPixel, IsAlong, IsTileOf, sieve_in};

use crate::law::region_law;
use fz_block::Axes;
use fz_grid::{Region, Sieve, volume};
use fz_head::Plan;

/// The sieve that picks all pixels of a region of an array.
pub(crate) fn sieve_of(shape: &Axes, region: &Region) -> Sieve
    requires shape { shape.now.n ≤ 9 }
    requires region { IsWithin shape.now region.now }
    ensures all { result ≡ sieve_in region.now }
    ensures sieve { IsSieveOf shape.now result }
    ensures sifts { Sifts (lengths_of shape.now) result }
    ensures lengths { sieve_lengths result ≡ region_lengths region.now }
{
    region_law();
    let mut sieve = Sieve {
        n: region.n,
        lo: region.lo,
        hi: [0; 9],
        step: [1; 9],
    };
    for i in 0..shape.n as usize {
        prove!(region.len[i] <= shape.len[i] - region.lo[i]);
        sieve.hi[i] = region.lo[i] + (region.len[i] - 1);
    }
    sieve
}

/// Whether a region has the pixel at these coordinates.
pub fn has_pixel(region: &Region, at: &[u32; 9]) -> bool
    requires { region.now.n ≤ 9 }
    ensures { IsTrue result ↔ HasPixel region.now at.now }
{
    for i in 0..region.n as usize {
        if at[i] < region.lo[i] || at[i] - region.lo[i] >= region.len[i] {
            return false;
        }
    }
    true
}

/// The box of at most so many pixels that is decoded for the pixel at these coordinates, if tiles of the lengths that
/// are asked for, or rows, are read one after another.
///
/// If such a tile fits, it is that tile and as many whole ones after it as fit; else the part of it from the pixel on that
/// fits.
pub fn box_at(plan: &Plan, asked: &Option<Axes>, at: &[u32; 9], most: u64) -> Region
    requires divided { IsDivided plan.now.shape plan.now.tile }
    requires asked { IfSome asked.now (λ a. a.n ≤ 9) }
    requires at { IsPlaceOf plan.now.shape at.now }
    requires some { 1 ≤ most }
    ensures within { IsWithin plan.now.shape result }
    ensures has { HasPixel result at.now }
    ensures fits { product (region_lengths result) ≤ most }
{
    let tile = new_tile(&plan.shape, asked);
    if volume(&tile) <= most {
        return tiles_at(plan, &tile, at, most);
    }
    part_at(&plan.shape, &tile, at, most)
}

// The lengths of the tiles that are read: those that are asked for, cut to the axes, and 1 along the others; rows, if none
// are.
fn new_tile(shape: &Axes, asked: &Option<Axes>) -> Axes
    requires shape { IsShape shape.now }
    requires asked { IfSome asked.now (λ a. a.n ≤ 9) }
    ensures tile { IsTileOf shape.now result }
{
    let mut tile = Axes {
        n: shape.n,
        len: [1; 9],
    };
    match asked {
        Some(lengths) => {
            for i in 0..lengths.n.min(shape.n) as usize {
                tile.len[i] = lengths.len[i].clamp(1, shape.len[i]);
            }
        }
        None => tile.len[0] = shape.len[0],
    }
    tile
}

// The tile of these lengths that has the pixel, and as many whole ones after it as fit: along axis 1, and along a further
// axis if they fill those before it.
fn tiles_at(plan: &Plan, tile: &Axes, at: &[u32; 9], most: u64) -> Region
    requires divided { IsDivided plan.now.shape plan.now.tile }
    requires tile { IsTileOf plan.now.shape tile.now }
    requires at { IsPlaceOf plan.now.shape at.now }
    requires fits { product (lengths_of tile.now) ≤ most }
    ensures within { IsWithin plan.now.shape result }
    ensures has { HasPixel result at.now }
    ensures fits { product (region_lengths result) ≤ most }
{
    let mut region = Region {
        n: tile.n,
        lo: [0; 9],
        len: [0; 9],
    };
    for i in 0..tile.n as usize {
        let (lo, len) = tile_with(at[i], tile.len[i], plan.shape.len[i]);
        region.lo[i] = lo;
        region.len[i] = len;
    }
    for i in 0..tile.n as usize {
        let others = volume(&region.axes()) / u64::from(region.len[i]);
        let room = most / others;
        region.len[i] = tiles_along(
            plan.shape.len[i] - region.lo[i],
            region.lo[i],
            region.len[i],
            tile.len[i],
            plan.tile.len[i],
            room,
        );
        if region.len[i] < plan.shape.len[i] {
            return region;
        }
    }
    region
}

// The tile of this length that has a place of an axis with this end: where it begins, and how long it is, cut to the axis.
fn tile_with(at: u32, tile: u32, end: u32) -> (u32, u32)
    requires some { 1 ≤ tile }
    requires inside { at < end }
    ensures tile { IsAlong result.0 result.1 at end }
    ensures short { result.1 ≤ tile }
{
    let lo = at / tile * tile;
    (lo, tile.min(end - lo))
}

// How long whole tiles of this length are, of which the first begins at `lo`, if at most so many pixels have room, and the
// axis has so many left. The end is moved back to one of a packed tile, if one ends there as well.
fn tiles_along(left: u32, lo: u32, one: u32, tile: u32, packed: u32, room: u64) -> u32
    requires near { lo + left < 2 ^ 32 }
    requires one { (1 ≤ one) × (one ≤ left) × (one ≤ room) }
    requires tile { (one ≤ tile) × (1 ≤ packed) × (tile < 2 ^ 32) }
    ensures within { (1 ≤ result) × (result ≤ left) }
    ensures fits { result ≤ room }
    ensures one { one ≤ result }
{
    if u64::from(left) <= room {
        return left;
    }
    let whole = (room / u64::from(tile) * u64::from(tile)) as u32;
    if whole <= one {
        return one;
    }
    let both = common_multiple(tile, packed);
    let end = (u64::from(lo) + u64::from(whole)) / both * both;
    if end < u64::from(lo) + u64::from(one) {
        return whole;
    }
    (end - u64::from(lo)) as u32
}

// The least common multiple of two lengths.
fn common_multiple(a: u32, b: u32) -> u64
    requires { (1 ≤ a) × (1 ≤ b) }
    ensures some { 1 ≤ result }
{
    let mut great = u64::from(a);
    let mut small = u64::from(b);
    while small > 0 {
        let rest = great % small;
        great = small;
        small = rest;
    }
    u64::from(a) / great * u64::from(b)
}

// The part of the tile of these lengths that has the pixel, from the pixel on: lines of it, or a part of a line.
fn part_at(shape: &Axes, tile: &Axes, at: &[u32; 9], most: u64) -> Region
    requires shape { IsShape shape.now }
    requires tile { IsTileOf shape.now tile.now }
    requires at { IsPlaceOf shape.now at.now }
    requires some { 1 ≤ most }
    ensures within { IsWithin shape.now result }
    ensures has { HasPixel result at.now }
    ensures fits { product (region_lengths result) ≤ most }
{
    let mut region = Region {
        n: shape.n,
        lo: *at,
        len: [1; 9],
    };
    let mut room = most;
    for i in 0..shape.n as usize {
        let (first, len) = tile_with(at[i], tile.len[i], shape.len[i]);
        let left = u64::from(len - (at[i] - first));
        region.len[i] = left.min(room) as u32;
        room /= u64::from(region.len[i]);
        if at[i] != first || u64::from(region.len[i]) < left || room == 0 {
            return region;
        }
    }
    region
}

//! The number of a pixel in its array, and its coordinates.
ghost use Rattle.std.specs.Prelude.{◌≡◌, ◌<◌, take};
ghost use Rattle.fz_grid.specs.Arrays.{coordinates_of, place_of, product};
ghost use Rattle.fz_grid.specs.Region.{IsPlaceOf, IsShape, IsZeroFrom, lengths_of};

use fz_block::Axes;

/// The number of the pixel with these coordinates, counted from 0, axis 1 fastest (FITS 4.0, section
/// 3.3.2).
pub fn index(shape: &Axes, at: &[u32; 9]) -> u64
    requires shape { IsShape shape.now }
    requires at { IsPlaceOf shape.now at.now }
    ensures place { result ≡ place_of (lengths_of shape.now) (take shape.now.n at.now) }
    ensures inside { result < product (lengths_of shape.now) }
{
    let mut place = 0u64;
    for i in (0..shape.n as usize).rev() {
        place = u64::from(at[i]) + u64::from(shape.len[i]) * place;
    }
    place
}

/// The coordinates of the pixel with this number; the entries after the last axis are 0.
pub fn coordinates(shape: &Axes, place: u64) -> [u32; 9]
    requires shape { IsShape shape.now }
    requires place { place < product (lengths_of shape.now) }
    ensures coordinates { take shape.now.n result ≡ coordinates_of (lengths_of shape.now) place }
    ensures inside { IsPlaceOf shape.now result }
    ensures zero { IsZeroFrom shape.now.n result }
{
    let mut at = [0u32; 9];
    let mut higher = place;
    for i in 0..shape.n as usize {
        let length = u64::from(shape.len[i]);
        at[i] = (higher % length) as u32;
        higher /= length;
    }
    at
}

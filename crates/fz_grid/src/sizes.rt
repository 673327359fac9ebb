//! How many places an array has.
ghost use Rattle.std.specs.Prelude.{◌≡◌, ◌-◌, ◌^◌, ◌≤◌, min};
ghost use Rattle.fz_grid.specs.Arrays.{product};
ghost use Rattle.fz_grid.specs.Region.{lengths_of};

use fz_block::Axes;

/// The number of places of an array of these lengths, or the greatest number if there are more
/// (FITS 4.0, section 4.4.1.1).
pub fn volume(axes: &Axes) -> u64
    requires { axes.now.n ≤ 9 }
    ensures { result ≡ min (product (lengths_of axes.now)) (2 ^ 64 - 1) }
{
    let mut places = 1u64;
    for i in (0..axes.n as usize).rev() {
        places = places.saturating_mul(u64::from(axes.len[i]));
    }
    places
}

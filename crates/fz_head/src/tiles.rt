//! The tile of an image that is to be packed.
ghost use Rattle.std.specs.Prelude.{◌≡◌, ◌<◌, ◌≤◌, Some, None, slice_get};
ghost use Rattle.std.specs.Option.{ForSome};
ghost use Rattle.fz_block.specs.Facts.{nine_axes};
ghost use Rattle.fz_grid.specs.Region.{lengths_of};
ghost use Rattle.fz_head.specs.Along.{cut_length};
ghost use Rattle.fz_head.specs.Planned.{asked_tile, cut_tile};

use fz_block::Axes;

/// The lengths of a tile of an image with these axes: as they are asked for, each cut to the axis, and 1
/// along axes that are not named. If none are asked for, one row of axis 1.
pub(crate) fn cut_tile(axes: &Axes, asked: &Option<Axes>) -> Axes
    requires few { axes.now.n ≤ 9 }
    requires asked { ForSome asked.now (λ a. a.n ≤ 9) }
    ensures { result ≡ nine_axes (cut_tile (lengths_of axes.now) (asked_tile asked.now (lengths_of axes.now))) }
{
    let mut tile = Axes {
        n: axes.n,
        len: [0; 9],
    };
    for i in 0..axes.n as usize {
        tile.len[i] = cut_length(axes.len[i], asked_length(axes, asked, i));
    }
    tile
}

// The length of a tile along an axis, cut to it, if one is asked for; otherwise 1.
fn cut_length(axis: u32, asked: Option<u32>) -> u32
    ensures { result ≡ cut_length axis asked }
{
    match asked {
        Some(length) => length.min(axis),
        None => 1,
    }
}

// The length that is asked for along an axis, if one is.
fn asked_length(axes: &Axes, asked: &Option<Axes>, i: usize) -> Option<u32>
    requires few { axes.now.n ≤ 9 }
    requires asked { ForSome asked.now (λ a. a.n ≤ 9) }
    requires axis { i < axes.now.n }
    ensures { result ≡ slice_get (asked_tile asked.now (lengths_of axes.now)) i }
{
    match asked {
        Some(tile) => axis_length(tile, i),
        None if i == 0 => Some(axes.len[0]),
        None => None,
    }
}

// The length along an axis, if there is one.
fn axis_length(axes: &Axes, i: usize) -> Option<u32>
    requires { axes.now.n ≤ 9 }
    ensures { result ≡ slice_get (lengths_of axes.now) i }
{
    axes.len[..axes.n as usize].get(i).copied()
}

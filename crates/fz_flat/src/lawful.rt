//! Which plans a packed image has: C may hand over any numbers.
ghost use Rattle.std.specs.Prelude.{◌≡◌, ◌↔◌, ◌≤◌, IsTrue};
ghost use Rattle.fz_grid.specs.Region.{IsDivided, lengths_of};
ghost use Rattle.fz_head.specs.Planned.{is_wide};
ghost use Rattle.fz_flat.specs.Lawful.{IsLawful, IsPackedImage, IsPlanOfIts};
ghost use Rattle.fz_flat.specs.Tiles.{tiles_in};

use crate::FzPlan;
use crate::codecs::can_read;
use crate::divided::{MAX_AXES, is_divided};
use crate::flattening::{image_of, plan_of};
use crate::tables::is_table;
use fz_checks::PackedImage;
use fz_grid::Grid;

/// Some packed image has this plan.
pub fn is_lawful(plan: &FzPlan) -> bool
    ensures exact { IsTrue result ↔ IsLawful plan.now }
    ensures its { IsTrue result → IsPlanOfIts plan.now }
    ensures few { IsTrue result → plan.now.axes ≤ 9 }
{
    if plan.axes > MAX_AXES {
        return false;
    }
    let image = image_of(plan);
    is_packed_image(&image) && is_same(&plan_of(&image), plan)
}

// Two plans have the same numbers.
fn is_same(one: &FzPlan, other: &FzPlan) -> bool
    ensures { IsTrue result ↔ (one.now ≡ other.now) }
{
    one == other
}

// An image is a packed one by its values.
fn is_packed_image(image: &PackedImage) -> bool
    requires few { image.now.plan.shape.n ≤ 9 }
    requires same { image.now.plan.tile.n ≡ image.now.plan.shape.n }
    requires wide { image.now.plan.wide ≡ is_wide image.now.plan.bitpix (lengths_of image.now.plan.shape) }
    ensures { IsTrue result ↔ IsPackedImage image.now }
{
    is_table(&image.table)
        && is_divided(&image.plan.shape, &image.plan.tile)
        && can_read(image.plan.codec, image.plan.bitpix)
        && has_rows(image)
}

// The table has a row for each tile.
fn has_rows(image: &PackedImage) -> bool
    requires { IsDivided image.now.plan.shape image.now.plan.tile }
    ensures { IsTrue result ↔ (image.now.table.rows ≡ tiles_in image.now.plan) }
{
    let grid = Grid::new(image.plan.shape, image.plan.tile);
    image.table.rows == grid.tile_count()
}

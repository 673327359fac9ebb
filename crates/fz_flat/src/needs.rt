//! What a box needs: the rows of its tiles, and room.
ghost use Rattle.std.specs.Prelude.{◌≡◌, ◌<◌, ◌≤◌, ◌+◌, ◌^◌, ◌==◌, if◌then◌else◌, length as len};
ghost use Rattle.fz_grid.specs.Region.{IsDivided};
ghost use Rattle.fz_grid.specs.Sieve.{IsSieveOf};
ghost use Rattle.fz_table.specs.Rows.{IsTable, row_start as row_start_of};
ghost use Rattle.fz_tile.specs.Pixels.{IsBitpix};
ghost use Rattle.fz_flat.specs.Boxes.{first_in, last_in, needs_of, numbers_in as numbers_in_box, picked_in};
ghost use Rattle.fz_flat.specs.Lawful.{IsPackedImage};
ghost use Rattle.fz_flat.specs.Tiles.{tiles_in};

use crate::boxes::box_tiles;
use crate::tiles::places_of;
use fz_checks::PackedImage;
use fz_grid::{Grid, Sieve, cutout_axes, shape_law, volume};
use fz_head::Plan;
use fz_table::Table;

/// What is read for a box, and how much room there has to be.
#[repr(C)]
#[derive(Clone, Copy, PartialEq)]
pub struct FzNeeds {
    /// The byte of the file at which the row of its first tile begins.
    pub rows_at: u64,
    /// The bytes from there to the end of the row of its last tile.
    pub rows_len: u64,
    /// The places that the pixels of the box take.
    pub numbers: u64,
    /// How many tiles have a pixel of the box.
    pub tiles: u32,
    /// The places that the pixels of the largest tile take.
    pub places: u32,
}

/// The tiles of a box: the first one, the last one, and how many they are.
#[derive(Clone, Copy)]
struct Ends {
    first: u32,
    last: u32,
    count: u32,
}

/// What a box needs.
pub fn box_needs(image: &PackedImage, sieve: &Sieve) -> FzNeeds
    requires image { IsPackedImage image.now }
    requires sieve { IsSieveOf image.now.plan.shape sieve.now }
    ensures { result ≡ needs_of image.now sieve.now }
{
    let ends = ends_of(&image.plan, sieve);
    let rows = u64::from((ends.last + 1).saturating_sub(ends.first));
    FzNeeds {
        rows_at: row_start(&image.table, ends.first),
        rows_len: u64::from(image.table.row_bytes) * rows,
        numbers: numbers_in(&image.plan, sieve),
        tiles: ends.count,
        places: places_of(&image.plan, 0) as u32,
    }
}

/// How many places the pixels of a box take.
pub(crate) fn numbers_in(plan: &Plan, sieve: &Sieve) -> u64
    requires divided { IsDivided plan.now.shape plan.now.tile }
    requires size { IsBitpix plan.now.bitpix }
    requires sieve { IsSieveOf plan.now.shape sieve.now }
    ensures numbers { result ≡ numbers_in_box plan.now sieve.now }
    ensures most { result ≤ 2 ^ 41 }
{
    shape_law();
    let pixels = volume(&cutout_axes(&plan.shape, sieve));
    if plan.bitpix == 64 {
        2 * pixels
    } else {
        pixels
    }
}

/// The byte of the file at which a row begins.
pub(crate) fn row_start(table: &Table, row: u32) -> u64
    requires table { IsTable table.now }
    requires row { row < table.now.rows }
    ensures start { result ≡ row_start_of table.now row }
    ensures near { result + table.now.row_bytes ≤ 2 ^ 62 }
{
    table.rows_at + u64::from(table.row_bytes) * u64::from(row)
}

// The first and the last tile of a box, and how many there are.
fn ends_of(plan: &Plan, sieve: &Sieve) -> Ends
    requires divided { IsDivided plan.now.shape plan.now.tile }
    requires sieve { IsSieveOf plan.now.shape sieve.now }
    ensures first { result.first ≡ first_in plan.now sieve.now }
    ensures last { result.last ≡ last_in plan.now sieve.now }
    ensures count { result.count ≡ len (picked_in plan.now sieve.now) }
    ensures known { (result.first < tiles_in plan.now) × (result.last < tiles_in plan.now) }
{
    // This call shows that the image has a tile.
    let _tiles = Grid::new(plan.shape, plan.tile).tile_count();
    let mut ends = Ends {
        first: 0,
        last: 0,
        count: 0,
    };
    for tile in box_tiles(plan, sieve) {
        ends = with_next(ends, tile);
    }
    ends
}

// With one tile more.
fn with_next(ends: Ends, tile: u32) -> Ends
    requires { ends.count + 1 < 2 ^ 32 }
    ensures first { result.first ≡ (if ends.count == 0 then tile else ends.first) }
    ensures last { result.last ≡ tile }
    ensures count { result.count ≡ ends.count + 1 }
{
    Ends {
        first: if ends.count == 0 { tile } else { ends.first },
        last: tile,
        count: ends.count + 1,
    }
}

//! The tiles that share a pixel with a region, one after the other.
ghost use Rattle.std.specs.Prelude.{◌≡◌, ◌^◌, ◌<◌, ◌≤◌};
ghost use Rattle.fz_grid.specs.Arrays.{product};
ghost use Rattle.fz_grid.specs.Region.{lengths_of};

use crate::places::Places;

/// The numbers of the tiles that have a pixel in common with a region, ascending.
#[derive(Drop)]
pub struct Overlaps {
    places: Places,
    ghost few: { product (lengths_of places.shape) < 2 ^ 31 },
}

impl Overlaps {
    ghost use Rattle.fz_grid.specs.Walks.{places_left, tiles_left};

    /// These places of a grid of tiles.
    pub(crate) fn new(places: Places) -> Overlaps
        requires { product (lengths_of places.shape) < 2 ^ 31 }
        ensures { tiles_left result ≡ places_left places }
    {
        Overlaps { places }
    }
}

impl Iterator for Overlaps {
    ghost use Rattle.std.specs.Iterator.{YieldsFirst, item_count};
    ghost use Rattle.fz_grid.specs.Walks.{tiles_left};

    type Item = u32;

    ghost next_gives = { YieldsFirst tiles_left };

    ghost remaining = { item_count tiles_left };

    fn next(&mut self) -> Option<u32> {
        let tile = self.places.advance()?;
        Some(tile as u32)
    }
}

//! The picks of a sieve in an array.
ghost use Rattle.std.specs.Prelude.{◌≡◌, ◌<◌};
ghost use Rattle.std.specs.List.{AllByRecursion};
ghost use Rattle.fz_grid.specs.Arrays.{product};
ghost use Rattle.fz_grid.specs.Region.{IsShape, lengths_of};
ghost use Rattle.fz_grid.specs.Sieve.{IsSieveOf, picked_places};
ghost use Rattle.fz_grid.specs.SieveWalks.{picks_left};

use crate::sizes::volume;
use crate::{Picks, Sieve};
use fz_block::Axes;

/// The numbers of the sieve's picks in an array of this shape, axis 1 fastest.
pub fn picks(shape: &Axes, sieve: &Sieve) -> Picks
    requires shape { IsShape shape.now }
    requires sieve { IsSieveOf shape.now sieve.now }
    ensures picks { picks_left result ≡ picked_places (lengths_of shape.now) sieve.now }
    ensures inside { AllByRecursion (λ place. place < product (lengths_of shape.now)) (picks_left result) }
{
    let lengths = sieve.lengths_in(shape);
    let end = volume(&lengths);
    Picks {
        shape: *shape,
        sieve: *sieve,
        lengths,
        next: 0,
        end,
    }
}

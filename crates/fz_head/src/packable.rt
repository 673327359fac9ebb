//! Which HDUs are images that can be packed, and which are packed tables.
ghost use Rattle.std.specs.Prelude.{◌≡◌, ◌==◌, ◌≤◌, ◌&&◌, nat_le};
ghost use Rattle.std.specs.List.{list_all};
ghost use Rattle.fz_block.specs.Facts.{IsHeaderOf};
ghost use Rattle.fz_grid.specs.Region.{lengths_of};
ghost use Rattle.fz_head.specs.Packable.{has_integers, is_image, is_packable, is_packed, is_table};

use crate::find::first_set;
use fz_block::{Axes, Header, Sort};
use fz_card::Name;

/// Whether the HDU is an image that can be packed: the primary or an IMAGE extension of integers of 8,
/// 16, 32 or 64 bits, with 1 to 9 axes, each with a place, and nothing beside its array.
#[tactic(auto, unfolding(crate::specs::Packable::is_packable))]
pub fn is_packable(buf: &[u8], header: &Header) -> bool
    requires header { IsHeaderOf buf.now header.now }
    ensures { result ≡ is_packable header.now }
{
    is_image(header.sort)
        && header.axes.n >= 1
        && has_places(&header.axes)
        && has_integers(header)
        && has_array_alone(header)
}

// Whether the HDU holds an image.
fn is_image(sort: Sort) -> bool
    ensures { result ≡ is_image sort }
{
    matches!(sort, Sort::Primary | Sort::Image)
}

// Whether the pixels are integers.
fn has_integers(header: &Header) -> bool
    ensures { result ≡ has_integers header.now.bitpix }
{
    matches!(header.bitpix, 8 | 16 | 32 | 64)
}

// Whether nothing is beside the array. A primary has PCOUNT 0 and GCOUNT 1.
fn has_array_alone(header: &Header) -> bool
    ensures { result ≡ (header.now.pcount == 0 && header.now.gcount == 1) }
{
    header.pcount == 0 && header.gcount == 1
}

/// Whether each axis has a place.
pub fn has_places(axes: &Axes) -> bool
    requires { axes.now.n ≤ 9 }
    ensures { result ≡ list_all (nat_le 1) (lengths_of axes.now) }
{
    axes.len[..axes.n as usize]
        .iter()
        .all(|length| *length >= 1)
}

/// Whether the HDU is a binary table of which a card ZIMAGE with T says that a packed image is in
/// it (FITS 4.0, section 10.1.1).
#[tactic(auto, unfolding(crate::specs::Packable::is_packed))]
pub fn is_packed(buf: &[u8], header: &Header) -> bool
    requires header { IsHeaderOf buf.now header.now }
    ensures { result ≡ is_packed buf.now header.now }
{
    is_table(header.sort) && first_set(buf, header.cards, &Name::ZIMAGE).is_some()
}

/// Whether the HDU is a binary table.
pub fn is_table(sort: Sort) -> bool
    ensures { result ≡ is_table sort }
{
    sort == Sort::BinTable
}

//! As which kind a tile's fault is refused.
ghost use Rattle.std.specs.Prelude.{◌≡◌};
ghost use Rattle.fz_checks.specs.TileKinds.{kind_of_tile};

use fz_base::Kind;
use fz_tile::TileFault;

/// The kind as which a record that gives no pixels is refused (FITS 4.0, section 10.4): each fault has the
/// kind of its name.
pub fn tile_kind(fault: TileFault) -> Kind
    ensures { result ≡ kind_of_tile fault }
{
    match fault {
        TileFault::CodeShort => Kind::CodeShort,
        TileFault::CodeValue => Kind::CodeValue,
        TileFault::LineList => Kind::LineList,
        TileFault::PixelRange => Kind::PixelRange,
        TileFault::TileSize => Kind::TileSize,
    }
}

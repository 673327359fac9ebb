//! The names by which kinds of refusal are printed.
ghost use Rattle.std.specs.Prelude.{◌≡◌, ◌≤◌, length};
ghost use Rattle.fz_app.specs.Lines.{kind_name_of};

use fz_base::Kind;

/// The name of a kind, as it is printed.
pub(crate) fn kind_name(kind: Kind) -> &'static str
    ensures name { result.now ≡ kind_name_of kind }
    ensures short { length result.now ≤ 16 }
{
    match kind {
        Kind::NotFits => "NotFits",
        Kind::Truncated => "Truncated",
        Kind::LongHeader => "LongHeader",
        Kind::BadCard => "BadCard",
        Kind::Duplicate => "Duplicate",
        Kind::HeaderFill => "HeaderFill",
        Kind::DataFill => "DataFill",
        Kind::TrailingBytes => "TrailingBytes",
        Kind::Reserved => "Reserved",
        Kind::AlreadyPacked => "AlreadyPacked",
        Kind::Limit => "Limit",
        Kind::Groups => "Groups",
        Kind::UnknownCodec => "UnknownCodec",
        Kind::Quantised => "Quantised",
        Kind::CompressedTable => "CompressedTable",
        Kind::BadTable => "BadTable",
        Kind::RowCount => "RowCount",
        Kind::DescriptorRange => "DescriptorRange",
        Kind::TileMissing => "TileMissing",
        Kind::GzipTile => "GzipTile",
        Kind::CodeShort => "CodeShort",
        Kind::CodeValue => "CodeValue",
        Kind::LineList => "LineList",
        Kind::PixelRange => "PixelRange",
        Kind::TileSize => "TileSize",
        Kind::MisplacedPrimary => "MisplacedPrimary",
        Kind::NotPacked => "NotPacked",
        Kind::OutOfBox => "OutOfBox",
        Kind::PlioOffset => "PlioOffset",
        Kind::Unpatchable => "Unpatchable",
        Kind::BadPatch => "BadPatch",
    }
}

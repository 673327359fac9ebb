//! The kinds of refusal and their fixed numbers.
ghost use Rattle.std.specs.Prelude.{◌≡◌};
ghost use Rattle.fz_base.specs.Kind.{kind_number};

/// Why a file is refused. Each kind has a number that never changes.
#[derive(Clone, Copy, Debug, PartialEq, Eq)]
pub enum Kind {
    /// Card 0 of HDU 0 is not SIMPLE with the value T.
    NotFits,
    /// A header block, or the data with its fill, passes the end of the file.
    Truncated,
    /// 256 header blocks have no END.
    LongHeader,
    /// A card that must be there is missing, in another place, or has no allowed value.
    BadCard,
    /// A name that may occur once occurs twice, or ZSIMPLE and ZTENSION both occur.
    Duplicate,
    /// In an image to be packed, a byte of the header after the letters END is not blank.
    HeaderFill,
    /// In an image to be packed, a fill byte after the data is not 0.
    DataFill,
    /// After an HDU bytes are left that do not begin with `XTENSION`.
    TrailingBytes,
    /// An image to be packed has a card with a reserved name.
    Reserved,
    /// A file given to `pack` has a packed or compressed table.
    AlreadyPacked,
    /// A number passes a limit.
    Limit,
    /// HDU 0 has NAXIS1 0 and GROUPS T: random groups.
    Groups,
    /// ZCMPTYPE is not the name of a supported codec, or BYTEPIX is 8, or ZBITPIX is 64 and ZCMPTYPE is
    /// not NOCOMPRESS.
    UnknownCodec,
    /// ZBITPIX is -32 or -64, or there is a scaling or mask column or card.
    Quantised,
    /// A binary table has ZTABLE T.
    CompressedTable,
    /// The packed table has not the form of one.
    BadTable,
    /// NAXIS2 is not the number of tiles.
    RowCount,
    /// The chosen descriptor leaves the heap.
    DescriptorRange,
    /// No column has bytes for the tile.
    TileMissing,
    /// Only GZIP_COMPRESSED_DATA has bytes for the tile.
    GzipTile,
    /// The Rice code ends early.
    CodeShort,
    /// The Rice code is unlawful or passes the cap.
    CodeValue,
    /// The PLIO line list is refused.
    LineList,
    /// A decoded number is outside the range of ZBITPIX.
    PixelRange,
    /// Plain bytes have another length than the tile.
    TileSize,
    /// ZSIMPLE is elsewhere than in HDU 1 after a primary with NAXIS 0.
    MisplacedPrimary,
    /// `cut` names, or finds, no packed HDU.
    NotPacked,
    /// The box does not fit the image.
    OutOfBox,
    /// The plan's codec is PLIO, and BZERO has a value that is not zero.
    PlioOffset,
    /// The HDU to be patched is not the last, or has not the form of one that `patch` changes.
    Unpatchable,
    /// The image that is given to `patch` is none, has another BITPIX or number of axes than the packed
    /// image, or has an axis of length 0.
    BadPatch,
}

impl Kind {
    /// The number by which the kind is printed, from 1 to 32. No kind has 30.
    pub fn number(self) -> u32
        ensures { result ≡ kind_number self }
    {
        match self {
            Kind::NotFits => 1,
            Kind::Truncated => 2,
            Kind::LongHeader => 3,
            Kind::BadCard => 4,
            Kind::Duplicate => 5,
            Kind::HeaderFill => 6,
            Kind::DataFill => 7,
            Kind::TrailingBytes => 8,
            Kind::Reserved => 9,
            Kind::AlreadyPacked => 10,
            Kind::Limit => 11,
            Kind::Groups => 12,
            Kind::UnknownCodec => 13,
            Kind::Quantised => 14,
            Kind::CompressedTable => 15,
            Kind::BadTable => 16,
            Kind::RowCount => 17,
            Kind::DescriptorRange => 18,
            Kind::TileMissing => 19,
            Kind::GzipTile => 20,
            Kind::CodeShort => 21,
            Kind::CodeValue => 22,
            Kind::LineList => 23,
            Kind::PixelRange => 24,
            Kind::TileSize => 25,
            Kind::MisplacedPrimary => 26,
            Kind::NotPacked => 27,
            Kind::OutOfBox => 28,
            Kind::PlioOffset => 29,
            // 30 stays unused: it was the number of a kind that no job answers any more.
            Kind::Unpatchable => 31,
            Kind::BadPatch => 32,
        }
    }
}

//! What a refusal means, and what to do: sentences of docs/REFUSALS.md, from which `tools/check_docs` lets none differ.
use fz_base::{Fault, Kind, Place};

/// What a refusal means, and what to do.
pub(crate) fn sentence(fault: &Fault) -> &'static str {
    match (fault.kind, fault.at) {
        (Kind::Truncated, Place::Byte(0)) => EMPTY,
        (Kind::Unpatchable, Place::Byte(_)) => NOT_LAST,
        (kind, _) => sentence_of(kind),
    }
}

const EMPTY: &str =
    "At byte 0 the file is empty, or it is a pipe or a device, which fz does not read.";

const NOT_LAST: &str =
    "The packed image is not the last HDU of its file, so it cannot be changed in place. Unpack the \
    file, change the image with another tool, and pack it again.";

fn sentence_of(kind: Kind) -> &'static str {
    match kind {
        Kind::NotFits | Kind::Truncated | Kind::LongHeader | Kind::TrailingBytes => of_file(kind),
        Kind::BadCard | Kind::Duplicate | Kind::Limit | Kind::Groups => of_header(kind),
        Kind::HeaderFill
        | Kind::DataFill
        | Kind::Reserved
        | Kind::AlreadyPacked
        | Kind::PlioOffset => of_plain_image(kind),
        Kind::UnknownCodec
        | Kind::Quantised
        | Kind::CompressedTable
        | Kind::BadTable
        | Kind::RowCount
        | Kind::MisplacedPrimary => of_packed_header(kind),
        Kind::DescriptorRange
        | Kind::TileMissing
        | Kind::GzipTile
        | Kind::CodeShort
        | Kind::CodeValue
        | Kind::LineList
        | Kind::PixelRange
        | Kind::TileSize => of_row(kind),
        Kind::NotPacked | Kind::OutOfBox | Kind::Unpatchable | Kind::BadPatch => of_asking(kind),
    }
}

// The file as a whole.
fn of_file(kind: Kind) -> &'static str {
    match kind {
        Kind::NotFits => {
            "The file does not begin with the card SIMPLE with the value T. It is not a FITS file, or it is \
             compressed as a whole: run gunzip first (gunzip -c if its name does not end with .gz)."
        }
        Kind::Truncated => {
            "A header, or the data with their padding, would end after the end of the file; the byte that is \
             reported is the length of the file. Fetch the file again and compare lengths or checksums."
        }
        Kind::LongHeader => {
            "The first 256 blocks of a header, 9,216 cards, have no END. Usually the header is damaged: fetch \
             the file again."
        }
        _ => {
            "After an HDU there are bytes that do not begin another one. Look at the bytes from the place \
             that is reported; if they do not belong to the file, truncate -s N on a copy cuts them off, with \
             N the byte that is reported."
        }
    }
}

// A header.
fn of_header(kind: Kind) -> &'static str {
    match kind {
        Kind::BadCard => {
            "A card that is required in this place is missing, or its value is not allowed. Correct the \
             header with the tool that wrote it."
        }
        Kind::Duplicate => {
            "A card that decides what the file is occurs twice, so the header can be read in two ways. Remove \
             the wrong one."
        }
        Kind::Limit => {
            "A number is beyond what fz supports; man fz has the limits under LIMITS. If a tile is too large, \
             choose a smaller one with --tile."
        }
        _ => "The primary HDU has random groups, which are not supported.",
    }
}

// An image to be packed.
fn of_plain_image(kind: Kind) -> &'static str {
    match kind {
        Kind::HeaderFill => {
            "After END the header has something other than blanks. It would not be restored, so the image is \
             not packed. Change these bytes to blanks; fzfits mend --header-fill does so in a copy."
        }
        Kind::DataFill => {
            "After the data, up to the end of the block, there is something other than zeros. It would not be \
             restored. Check whether the data are longer than the header says; otherwise change these bytes \
             to zeros; fzfits mend --data-fill does so in a copy."
        }
        Kind::Reserved => {
            "The image has a card that would be taken for one of a packed header, such as ZTILE1 or ZBITPIX, \
             or a NAXISi after the last axis. Often it is left over from an earlier unpacking: remove it."
        }
        Kind::AlreadyPacked => {
            "A table of the file is a packed image or a compressed table. Unpack it first, or leave it as it is."
        }
        _ => "PLIO_1 is asked for, or read, and BZERO is not zero. Pack with --codec rice.",
    }
}

// The header of a packed image.
fn of_packed_header(kind: Kind) -> &'static str {
    match kind {
        Kind::UnknownCodec => {
            "The image is packed with another codec than RICE_1, PLIO_1 and NOCOMPRESS, such as HCOMPRESS_1, \
             GZIP_1 or GZIP_2, which funpack reads; or with a Rice code of 8-byte numbers."
        }
        Kind::Quantised => {
            "The image holds floating-point numbers (if they were quantised, their last digits were given up \
             when it was packed), or has a null-pixel mask. funpack reads both."
        }
        Kind::CompressedTable => {
            "A binary table is compressed itself (ZTABLE). funpack reads it."
        }
        Kind::BadTable => {
            "The columns of the table are not those of a packed image, or do not fill its rows, or the heap \
             is elsewhere. The header is damaged, or was changed by a program that does not know packed \
             images. Fetch the file again."
        }
        Kind::RowCount => {
            "The table has another number of rows than the image has tiles. NAXIS2, ZNAXISi or ZTILEi is \
             wrong, or rows were deleted."
        }
        _ => {
            "The table says that it was the primary HDU of its file (ZSIMPLE), but it is not HDU 1 after an \
             empty primary HDU. Give the file an empty primary HDU again, or rename ZSIMPLE to ZTENSION with \
             the text IMAGE."
        }
    }
}

// A row of a packed image. All but one are damage.
fn of_row(kind: Kind) -> &'static str {
    match kind {
        Kind::DescriptorRange => {
            "The record of the tile would end after the heap. Fetch the file again, from another copy if \
             there is one."
        }
        Kind::TileMissing => {
            "No column has anything for the tile. Fetch the file again, from another copy if there is one."
        }
        Kind::GzipTile => {
            "Only the column for gzip has something for the tile. This is no damage: funpack reads it."
        }
        Kind::CodeShort => {
            "The Rice code of the tile ends before all its pixels are read. Fetch the file again, from \
             another copy if there is one."
        }
        Kind::CodeValue => {
            "The Rice code of the tile is one that no packer may write, or is longer than 8 bytes for each \
             pixel and 64 more. Fetch the file again, from another copy if there is one."
        }
        Kind::LineList => {
            "The PLIO line list of the tile is faulty: its header, its length, or an instruction that leaves \
             the tile. Fetch the file again, from another copy if there is one."
        }
        Kind::PixelRange => {
            "A pixel of the tile does not fit into the bits of ZBITPIX. Fetch the file again, from another \
             copy if there is one."
        }
        _ => {
            "A tile that is stored as plain bytes has more or fewer of them than its pixels need. Fetch the \
             file again, from another copy if there is one."
        }
    }
}

// What `cut` or `patch` is asked for.
fn of_asking(kind: Kind) -> &'static str {
    match kind {
        Kind::NotPacked => {
            "This HDU is not packed, or does not exist. fz list shows which HDUs are PACKED (a primary image \
             is HDU 1 after packing). If none is, pack the file first; fzfits cut cuts plain images too."
        }
        Kind::OutOfBox => {
            "The box has another number of axes than the image, reported at ZNAXIS, or passes the end of an \
             axis, reported at its ZNAXISi. Use fz list to see the axes."
        }
        Kind::Unpatchable => {
            "The table of the packed image does not have the form that pack gives it, so it cannot be changed \
             in place. Pack it again with fz retile."
        }
        _ => {
            "The first HDU of PATCH is not valid or not complete, its pixels have another BITPIX than those \
             of the packed image, it has another number of axes, or no pixel along one. Use fz list on both \
             files to see which."
        }
    }
}

//! Which codec reads which pixels.
ghost use Rattle.std.specs.Prelude.{◌≡◌, ◌↔◌, IsTrue};
ghost use Rattle.fz_tile.specs.Codecs.{CanRead, IsBlock, ReadsCodes};

use fz_tile::Codec;

/// The greatest BLOCKSIZE of a Rice code.
const GREATEST_BLOCK: u32 = 32_767;

/// Tiles of such pixels can be read by the codec.
pub fn can_read(codec: Codec, bitpix: i32) -> bool
    ensures { IsTrue result ↔ CanRead codec bitpix }
{
    match bitpix {
        8 | 16 | 32 => reads_codes(codec),
        64 => is_plain(codec),
        _ => false,
    }
}

// A reader takes these parameters of the codec.
fn reads_codes(codec: Codec) -> bool
    ensures { IsTrue result ↔ ReadsCodes codec }
{
    match codec {
        Codec::Rice { block, bytepix } => {
            is_block(block) && (bytepix == 1 || bytepix == 2 || bytepix == 4)
        }
        Codec::Plio | Codec::Plain => true,
    }
}

// A Rice code may have this BLOCKSIZE.
fn is_block(block: u32) -> bool
    ensures { IsTrue result ↔ IsBlock block }
{
    1 <= block && block <= GREATEST_BLOCK
}

// The codec is NOCOMPRESS.
fn is_plain(codec: Codec) -> bool
    ensures { IsTrue result ↔ (codec ≡ Codec.Plain) }
{
    match codec {
        Codec::Plain => true,
        Codec::Plio => false,
        Codec::Rice {
            block: _,
            bytepix: _,
        } => false,
    }
}

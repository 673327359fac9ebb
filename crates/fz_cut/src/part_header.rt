//! The header of the part.
ghost use Rattle.std.specs.Prelude.{◌≡◌, ◌+◌, ◌≤◌, take, length as len};
ghost use Rattle.fz_block.specs.Facts.{IsHeaderOf};
ghost use Rattle.fz_block.specs.Hdus.{cards_of, header_bytes};
ghost use Rattle.fz_files.specs.CutoutBytes.{cutout_cards};
ghost use Rattle.fz_files.specs.Walks.{box_of};
ghost use Rattle.fz_grid.specs.Region.{IsWithin};
ghost use Rattle.fz_head.specs.Conditions.{IsPackedPlan};
ghost use Rattle.fz_files.specs.Picks.{HasPicks};

use crate::boxes::{picked_region, tables_law};
use crate::moved::move_pixels;
use fz_block::Header;
use fz_checks::PackedImage;
use fz_grid::Sieve;
use fz_head::{to_cut, whole_cards_law};

/// Makes the header of the part that a sieve picks of an image, and answers its length in bytes. The buffer is a block
/// longer than the packed header.
pub(crate) fn make_header(
    packed: &[u8],
    header: &Header,
    image: &PackedImage,
    sieve: &Sieve,
    out: &mut [u8],
) -> usize
    requires header { IsHeaderOf packed.now header.now }
    requires plan { IsPackedPlan packed.now header.now image.now.plan }
    requires sieve { HasPicks sieve.now }
    requires within { IsWithin image.now.plan.shape (box_of sieve.now) }
    requires room { len packed.now + 2880 ≤ len out.old }
    ensures made { take result out.new ≡ header_bytes (cutout_cards sieve.now (cards_of packed.now)) }
    ensures size { result ≡ len (header_bytes (cutout_cards sieve.now (cards_of packed.now))) }
    ensures fits { result ≤ len packed.now }
    ensures some { 2880 ≤ result }
    ensures len { len out.new ≡ len out.old }
{
    // The part lies within the image, and each card that is moved has 80 bytes.
    tables_law(sieve);
    whole_cards_law();
    let len = to_cut(packed, header, &image.plan, &picked_region(sieve), out);
    move_pixels(sieve, &mut out[..len]);
    len
}

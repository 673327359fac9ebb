//! The primary without data before a packed primary.
ghost use Rattle.std.specs.Prelude.{◌≡◌, ◌≤◌, take, length as len};
ghost use Rattle.fz_block.specs.Hdus.{header_bytes};
ghost use Rattle.fz_head.specs.EmptyPrimary.{empty_primary};

use crate::written::{finish, put_all};
use fz_card::{Name, int_card, logical_card};

/// Writes the header of the primary without data before a packed primary, and answers its
/// length in bytes, that of one block (FITS 4.0, sections 4.4.1.1 and 10.1).
pub fn to_empty_primary(out: &mut [u8]) -> usize
    requires { 2880 ≤ len out.old }
    ensures written { take result out.new ≡ header_bytes empty_primary }
    ensures size { result ≡ 2880 }
{
    let cards = [
        logical_card(Name::SIMPLE, true),
        int_card(Name::BITPIX, 8),
        int_card(Name::NAXIS, 0),
        logical_card(Name::EXTEND, true),
    ];
    let count = put_all(&cards, 0, out);
    finish(count, out)
}

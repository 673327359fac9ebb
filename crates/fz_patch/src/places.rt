//! The cards of the forms, by their places in the header.
ghost use Rattle.std.specs.Prelude.{◌≡◌, ◌+◌, ◌*◌, ◌<◌, ◌≤◌, length as len, unwrap_or};
ghost use Rattle.fz_block.specs.Facts.{IsHeaderOf};
ghost use Rattle.fz_table.specs.Columns.{tform_card};
ghost use Rattle.fz_patch.specs.Cards.{HasPlaces};

use fz_block::Header;
use fz_card::numbered;
use fz_table::first_named;

/// The indexes of the forms that may be changed.
#[derive(Clone, Copy, Debug)]
pub(crate) struct Places {
    /// That of TFORM1, the form of the codes.
    pub(crate) coded: u32,
    /// That of TFORM2, the form of the plain bytes.
    pub(crate) stored: u32,
}

/// Finds the cards in a header of at least one card.
pub(crate) fn find_places(header: &Header, buf: &[u8]) -> Places
    requires header { IsHeaderOf buf.now header.now }
    requires some { 80 ≤ len buf.now }
    ensures { HasPlaces buf.now result }
{
    Places {
        coded: form_place(header, buf, 1),
        stored: form_place(header, buf, 2),
    }
}

// The index of the form of column i.
fn form_place(header: &Header, buf: &[u8], i: u32) -> u32
    requires header { IsHeaderOf buf.now header.now }
    requires some { 80 ≤ len buf.now }
    requires column { i < 1000 }
    ensures place { result ≡ unwrap_or (tform_card buf.now i) 0 }
    ensures within { 80 * (result + 1) ≤ len buf.now }
{
    match first_named(buf, header, &numbered(b"TFORM", i)) {
        Some(found) => found,
        None => 0,
    }
}

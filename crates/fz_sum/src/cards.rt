//! The cards DATASUM and CHECKSUM.
ghost use Rattle.std.specs.Prelude.{◌≡◌};
ghost use Rattle.fz_sum.specs.Cards.{datasum_card, checksum_card, blank_checksum_card};

use crate::encoding::characters;
use fz_card::{Card, Name, made_cards_law, text_card};
use itoa::Buffer;

/// The card DATASUM with the digits of this sum (FITS 4.0, section 4.4.2.7).
pub fn datasum_card(sum: u32) -> Card
    ensures { result.bytes ≡ datasum_card sum }
{
    made_cards_law();
    let mut buffer = Buffer::new();
    text_card(Name::DATASUM, buffer.format(sum).as_bytes())
}

/// The card CHECKSUM with the characters of this sum: in place of the blank one, if the sum was that of the
/// whole HDU, it makes that sum 4294967295.
pub fn checksum_card(sum: u32) -> Card
    ensures { result.bytes ≡ checksum_card sum }
{
    text_card(Name::CHECKSUM, &characters(sum))
}

/// The card CHECKSUM with sixteen times `0`, as it is while the sum of its HDU is taken.
pub fn blank_checksum_card() -> Card
    ensures { result.bytes ≡ blank_checksum_card }
{
    text_card(Name::CHECKSUM, b"0000000000000000")
}

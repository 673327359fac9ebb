//! A card, and the name that it begins with.
ghost use Rattle.fz_card.specs.Laws.{RenamedValueLaw};

/// The length of a card in bytes.
pub const CARD_LEN: usize = 80;

/// The length of a name in bytes.
pub const NAME_LEN: usize = 8;

/// The byte of a card at which its value field begins.
pub(crate) const FIELD_START: usize = 10;

/// The length of the value field in bytes: columns 11 to 80.
pub const FIELD_LEN: usize = CARD_LEN - FIELD_START;

/// The name of a card: columns 1 to 8, filled with blanks (FITS 4.0, section 4.1.2.1).
#[derive(Clone, Copy, Debug, PartialEq, Eq)]
pub struct Name {
    pub bytes: [u8; NAME_LEN],
}

/// A card of a header: 80 bytes, of which any may be anything (FITS 4.0, section 4.1).
#[derive(Clone, Copy, Debug, PartialEq, Eq)]
pub struct Card {
    pub bytes: [u8; CARD_LEN],
}

impl Card {
    ghost use Rattle.std.specs.Prelude.{◌≡◌};
    ghost use Rattle.fz_card.specs.Layout.{card_name};

    /// Columns 1 to 8.
    pub fn name(&self) -> Name
        ensures { result.bytes ≡ card_name self.now.bytes }
    {
        let mut bytes = [b' '; NAME_LEN];
        bytes.copy_from_slice(&self.bytes[..NAME_LEN]);
        Name { bytes }
    }
}

/// The value of a card does not depend on its name: with another name of 8 bytes in columns 1 to 8 it is the same.
pub fn renamed_value_law()
    ensures { RenamedValueLaw }
{}

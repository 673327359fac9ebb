//! How a check refuses.
ghost use Rattle.std.specs.Prelude.{◌≡◌, [], ◌∷◌, None, Some};
ghost use Rattle.fz_base.specs.Refusal.{IsFirstOf, refusal};
ghost use Rattle.fz_base.specs.declared.fault.Place.TheVariants.{Card as AtCard};
ghost use Rattle.fz_block.specs.Checks.{refused_at};

use crate::header::Header;
use fz_base::{Fault, Kind, Place};

/// A fault of this kind at this place of an HDU.
pub fn refused(hdu: u32, at: Place, kind: Kind) -> Fault
    ensures { result ≡ refusal hdu at kind }
{
    Fault { hdu, at, kind }
}

/// Refused at this card, if there is one.
pub fn refuse_at(header: &Header, found: Option<u32>, kind: Kind) -> Result<(), Fault>
    ensures { IsFirstOf (refused_at header.now.hdu found kind ∷ []) result }
{
    match found {
        Some(i) => Err(refused(header.hdu, Place::Card(i), kind)),
        None => Ok(()),
    }
}

/// Refused at this card, if the condition holds.
pub fn refuse_if(header: &Header, condition: bool, card: u32, kind: Kind) -> Result<(), Fault>
    ensures { IsFirstOf ((condition, refusal header.now.hdu (AtCard card) kind) ∷ []) result }
{
    if condition {
        Err(refused(header.hdu, Place::Card(card), kind))
    } else {
        Ok(())
    }
}

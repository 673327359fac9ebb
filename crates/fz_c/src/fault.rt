//! Why a call gives nothing, and the number that C gets for it.
ghost use Rattle.std.specs.Prelude.{◌≡◌};
ghost use Rattle.fz_c.specs.Faults.{answer_of};
ghost use Rattle.fz_c.specs.declared.fault.Fault.TheVariants.{Refused, Rejected};

use fz_base::Kind;
use fz_tile::TileFault;

/// Why a call gives nothing.
#[derive(Clone, Copy)]
pub enum Fault {
    /// The bytes are no record, or no code, of so many numbers.
    Refused(TileFault),
    /// No codec has this number and these parameters, or it does not code pixels of this BITPIX.
    NoCodec,
    /// No column has this number.
    NoColumn,
    /// No tile has so many numbers.
    NoTile,
    /// The bytes of the record are fewer than what has to be read of it.
    FewBytes,
    /// The room for the bytes that are written is too short.
    NoRoom,
    /// A number is outside the range of what codes it.
    NumberRange,
    /// There are more bytes than any memory has.
    ManyBytes,
    /// The code is not read on from this mark.
    NoPart,
    /// The HDU, or the row, is refused as of this kind.
    Rejected(Kind),
    /// No HDU begins at this place of such a file.
    NoHdu,
    /// No packed image has this plan.
    NoPlan,
    /// The numbers have fewer places than the pixels of the tile.
    FewPlaces,
    /// The box has no pixel of the image, or one outside it.
    NoBox,
    /// The row of a tile is not among the bytes of the rows.
    FewRows,
}

impl Fault {
    /// The number that C gets. If the bytes are at fault, it is minus the number of the kind of refusal; that
    /// of a fault of the caller is beyond -100, where no kind is.
    pub fn answer(self) -> i32
        ensures { result ≡ answer_of self }
    {
        match self {
            Fault::Refused(fault) => refusal(fault),
            Fault::NoCodec => -101,
            Fault::NoColumn => -102,
            Fault::NoTile => -103,
            Fault::FewBytes => -104,
            Fault::NoRoom => -105,
            Fault::NumberRange => -106,
            Fault::ManyBytes => -107,
            Fault::NoPart => -108,
            Fault::Rejected(kind) => rejection(kind),
            Fault::NoHdu => -109,
            Fault::NoPlan => -110,
            Fault::FewPlaces => -111,
            Fault::NoBox => -112,
            Fault::FewRows => -113,
        }
    }
}

/// Minus the number of the kind of refusal (docs/REFUSALS.md).
fn refusal(fault: TileFault) -> i32
    ensures { result ≡ answer_of (Refused fault) }
{
    match fault {
        TileFault::CodeShort => -21,
        TileFault::CodeValue => -22,
        TileFault::LineList => -23,
        TileFault::PixelRange => -24,
        TileFault::TileSize => -25,
    }
}

/// Minus the number of a kind of refusal.
#[tactic(auto, using(crate::proofs::KindLemmas::small))]
fn rejection(kind: Kind) -> i32
    ensures { result ≡ answer_of (Rejected kind) }
{
    -(kind.number() as i32)
}

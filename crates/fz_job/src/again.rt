//! The header of an HDU, read once more, and the image that is in the HDU.

ghost use Rattle.std.specs.Prelude.{◌≡◌, ◌⊎◌, ◌<◌, ◌≤◌, Ok, Some, length as len, IfOk, IfSome};
ghost use Rattle.fz_base.specs.Refusal.{refusal};
ghost use Rattle.fz_base.specs.Source.{LogsWithin};
ghost use Rattle.fz_base.specs.Stop.{IfRefused, ReadsOnly};
ghost use Rattle.fz_base.specs.declared.failure.Stop.TheVariants.{Refused};
ghost use Rattle.fz_base.specs.declared.fault.Place.TheVariants.{Card as AtCard};
ghost use Rattle.fz_base.specs.declared.kind.Kind.TheVariants.{BadCard};
ghost use Rattle.fz_block.specs.Checks.{header_touched};
ghost use Rattle.fz_grid.specs.Region.{IsDivided};
ghost use Rattle.fz_checks.specs.JobChecks.{image_to_unpack as image_found};
ghost use Rattle.fz_files.specs.Restored.{pixels_of};
ghost use Rattle.fz_job.specs.Again.{IsAgain, ReadsAsSeen, header_at_front, is_larger as is_larger_of};
ghost use Rattle.fz_base.specs.Keeps.{SourceStays};
ghost use Rattle.fz_job.specs.Clauses.{IsChanged};

use crate::survey::Begun;
use fz_base::{Fault, Kind, Place, Source, Stop, log_law};
use fz_block::{BLOCK_LEN, Header, again_law, header_again};
use fz_checks::{PackedImage, image_to_unpack};
use fz_grid::Grid;

/// An HDU whose header was read once more.
#[derive(Clone, Copy, Debug)]
pub struct ReadHdu {
    /// The facts of its header.
    pub header: Header,
    /// The image that is in it, if it is packed.
    pub image: Option<PackedImage>,
}

impl ReadHdu {
    ghost use Rattle.std.specs.Prelude.{◌≡◌};
    ghost use Rattle.fz_job.specs.Again.{is_empty_primary, was_primary_image};

    /// Whether this is a primary with NAXIS 0.
    pub fn is_empty_primary(&self) -> bool
        ensures { result ≡ is_empty_primary self.now.header }
    {
        self.header.hdu == 0 && self.header.axes.n == 0
    }

    /// Whether the image that is in the HDU was a primary.
    pub fn was_primary(&self) -> bool
        ensures { result ≡ was_primary_image self.now.image }
    {
        match &self.image {
            Some(image) => image.plan.primary,
            None => false,
        }
    }
}

/// Reads the header of an HDU once more, into the first bytes of a buffer, and finds its image, whose tiles have at
/// most so many pixels.
///
/// Refused: only if the source gives other bytes than before, and then with BadCard at card 0 of the HDU.
pub fn read_again<S: Source>(
    source: &mut S,
    length: u64,
    begun: Begun,
    tile: u32,
    buf: &mut [u8],
) -> Result<ReadHdu, Stop>
    requires attached { S.attached source.old ≡ Some length }
    requires within { (begun.start < length) ⊎ ((begun.hdu ≡ 0) × (begun.start ≡ 0)) }
    requires room { 2880 ≤ len buf.old }
    ensures again { IfOk result (IsAgain (S.held source.old) length buf.new) }
    ensures place { IfOk result (λ a. (a.header.hdu ≡ begun.hdu) × (a.header.start ≡ begun.start)) }
    ensures found { IfOk result (λ a. image_found a.header (header_at_front a buf.new) begun.after_empty ≡ Ok a.image) }
    ensures small { IfOk result (λ a. IfSome a.image (λ i. pixels_of i.plan 0 ≤ tile)) }
    ensures as_seen { IfSome (S.held source.old) (λ g. ReadsAsSeen g begun.hdu begun.start begun.after_empty (len buf.old) tile result) }
    ensures refused { IfRefused result IsChanged }
    ensures stays { SourceStays S.held S.attached S.ranges source.old source.new × (len buf.new ≡ len buf.old) }
    ensures read { IfSome (S.held source.old) (λ g. LogsWithin begun.start (header_touched begun.hdu begun.start g)
        (S.ranges source.old) (S.ranges source.new)) }
    ensures cause { ReadsOnly (S.tally source.old) (S.tally source.new) result }
{
    again_law();
    log_law();
    let header = match header_again(source, length, begun.hdu, begun.start, buf) {
        Ok(header) => header,
        Err(Stop::Refused(_)) => return Err(changed(begun.hdu)),
        Err(stop) => return Err(stop),
    };
    let buf = &buf[..BLOCK_LEN * header.blocks as usize];
    let image = match image_to_unpack(buf, &header, begun.after_empty) {
        Ok(image) => image,
        Err(_) => return Err(changed(begun.hdu)),
    };
    if is_larger(&image, tile) {
        return Err(changed(begun.hdu));
    }
    Ok(ReadHdu { header, image })
}

// Whether the tiles have more pixels than those that were met before.
fn is_larger(image: &Option<PackedImage>, tile: u32) -> bool
    requires { IfSome image.now (λ i. IsDivided i.plan.shape i.plan.tile) }
    ensures { result ≡ is_larger_of tile image.now }
{
    match image {
        Some(image) => Grid::new(image.plan.shape, image.plan.tile).largest() > tile,
        None => false,
    }
}

/// Why a job stops at an HDU of which the source gave other bytes than before.
pub fn changed(hdu: u32) -> Stop
    ensures { result ≡ Refused (refusal hdu (AtCard 0) BadCard) }
{
    Stop::Refused(Fault {
        hdu,
        at: Place::Card(0),
        kind: Kind::BadCard,
    })
}

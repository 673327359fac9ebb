//! The header of the HDU that is cut from, read once more.
ghost use Rattle.std.specs.Prelude.{◌≡◌, ◌<◌, ◌≤◌, nat_lt, Some, length as len, IfOk, IfSome};
ghost use Rattle.fz_base.specs.Keeps.{SourceStays};
ghost use Rattle.fz_base.specs.Source.{LogsWithin};
ghost use Rattle.fz_base.specs.Stop.{IfRefused, ReadsOnly};
ghost use Rattle.fz_block.specs.Checks.{header_touched};
ghost use Rattle.fz_files.specs.Restored.{pixels_of};
ghost use Rattle.fz_grid.specs.Region.{IsDivided};
ghost use Rattle.fz_checks.specs.JobChecks.{IsBox};
ghost use Rattle.fz_job.specs.Clauses.{IsChanged};
ghost use Rattle.fz_cut.specs.Again.{IsAgain, ReadsAsSeen};

use fz_base::{Source, Stop, log_law};
use fz_block::{BLOCK_LEN, Header, again_law, header_again};
use fz_checks::{PackedImage, image_to_cut};
use fz_grid::{Grid, Region};
use fz_job::changed;

/// The HDU that is cut from, whose header was read once more, and its image.
#[derive(Clone, Copy, Debug)]
pub(crate) struct Again {
    pub(crate) header: Header,
    pub(crate) image: PackedImage,
}

/// Reads the header of the HDU once more, into the first bytes of a buffer, and finds its image, whose tiles have at
/// most so many pixels.
///
/// Refused: only if the source gives other bytes than before, and then with BadCard at card 0 of the HDU.
pub(crate) fn read_again<S: Source>(
    source: &mut S,
    length: u64,
    from: &Header,
    region: &Region,
    tile: u32,
    buf: &mut [u8],
) -> Result<Again, Stop>
    requires attached { S.attached source.old ≡ Some length }
    requires region { IsBox region.now }
    requires room { 2880 ≤ len buf.old }
    ensures again { IfOk result (IsAgain (S.held source.old) length region.now buf.new) }
    ensures small { IfOk result (λ a. pixels_of a.image.plan 0 ≤ tile) }
    ensures as_seen { IfSome (S.held source.old) (λ g. ReadsAsSeen g region.now (len buf.old) tile from.now result) }
    ensures refused { IfRefused result IsChanged }
    ensures touched { IfSome (S.held source.old) (λ g. LogsWithin from.now.start (header_touched from.now.hdu from.now.start g)
        (S.ranges source.old) (S.ranges source.new)) }
    ensures stays { SourceStays S.held S.attached S.ranges source.old source.new × (len buf.new ≡ len buf.old) }
    ensures cause { ReadsOnly (S.tally source.old) (S.tally source.new) result }
{
    again_law();
    log_law();
    if from.start >= length {
        return Err(changed(from.hdu));
    }
    let header = match header_again(source, length, from.hdu, from.start, buf) {
        Ok(header) => header,
        Err(Stop::Refused(_)) => return Err(changed(from.hdu)),
        Err(stop) => return Err(stop),
    };
    let buf = &buf[..BLOCK_LEN * header.blocks as usize];
    // Where a packed primary may be was looked at before.
    let image = match image_to_cut(buf, &header, true, region) {
        Ok(image) => image,
        Err(_) => return Err(changed(from.hdu)),
    };
    if is_larger(&image, tile) {
        return Err(changed(from.hdu));
    }
    Ok(Again { header, image })
}

// Whether the tiles have more pixels than those that were met before.
fn is_larger(image: &PackedImage, tile: u32) -> bool
    requires { IsDivided image.now.plan.shape image.now.plan.tile }
    ensures { result ≡ nat_lt tile (pixels_of image.now.plan 0) }
{
    Grid::new(image.plan.shape, image.plan.tile).largest() > tile
}

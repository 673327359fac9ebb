//! The header of an HDU, read once more into the front of a buffer.
ghost use Rattle.std.specs.Prelude.{◌≡◌, ◌⊎◌, ◌*◌, ◌<◌, ◌≤◌, Some, length as len, IfOk, IfSome};
ghost use Rattle.fz_base.specs.Source.{LogsWithin};
ghost use Rattle.fz_base.specs.Stop.{IfRefused, ReadsOnly};
ghost use Rattle.fz_block.specs.Checks.{header_touched};
ghost use Rattle.fz_files.specs.Restored.{pixels_of};
ghost use Rattle.fz_job.specs.Again.{IsAgain, ReadsAsSeen};
ghost use Rattle.fz_base.specs.Keeps.{SourceStays};
ghost use Rattle.fz_job.specs.Clauses.{IsChanged};

use crate::again::{ReadHdu, read_again};
use crate::survey::{Begun, Survey};
use fz_base::{Source, Stop};

/// Reads the header of an HDU as `read_again` does. The front of `header`, which is as long as the longest header, is its
/// buffer.
pub fn read_front<S: Source>(
    source: &mut S,
    length: u64,
    begun: Begun,
    survey: &Survey,
    header: &mut [u8],
) -> Result<ReadHdu, Stop>
    requires attached { S.attached source.old ≡ Some length }
    requires within { (begun.start < length) ⊎ ((begun.hdu ≡ 0) × (begun.start ≡ 0)) }
    requires long { 2880 ≤ survey.now.header_len }
    requires header { survey.now.header_len ≤ len header.old }
    ensures again { IfOk result (IsAgain (S.held source.old) length header.new) }
    ensures room { IfOk result (λ a. 2880 * a.header.blocks ≤ survey.now.header_len) }
    ensures small { IfOk result (λ a. IfSome a.image (λ i. pixels_of i.plan 0 ≤ survey.now.tile)) }
    ensures as_seen { IfSome (S.held source.old) (λ g. ReadsAsSeen g begun.hdu begun.start begun.after_empty survey.now.header_len survey.now.tile result) }
    ensures refused { IfRefused result IsChanged }
    ensures stays { SourceStays S.held S.attached S.ranges source.old source.new × (len header.new ≡ len header.old) }
    ensures read { IfSome (S.held source.old) (λ g. LogsWithin begun.start (header_touched begun.hdu begun.start g)
        (S.ranges source.old) (S.ranges source.new)) }
    ensures cause { ReadsOnly (S.tally source.old) (S.tally source.new) result }
{
    let buf = &mut header[..survey.header_len as usize];
    read_again(source, length, begun, survey.tile, buf)
}

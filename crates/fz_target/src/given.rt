//! The image that is put in: the first HDU of PATCH.
ghost use Rattle.std.specs.Prelude.{◌≡◌, ◌+◌, ◌≤◌, ◌^◌, max, Ok, Some, IfOk, IfSome, OnOk, length as len};
ghost use Rattle.fz_base.specs.Keeps.{SourceStays};
ghost use Rattle.fz_base.specs.Refusal.{refusal};
ghost use Rattle.fz_base.specs.Source.{LogsWithin};
ghost use Rattle.fz_base.specs.Stop.{IsDefined, ReadsAndTakes, TellsLimit};
ghost use Rattle.fz_base.specs.Takings.{TellsFirstPast, highest};
ghost use Rattle.fz_base.specs.declared.failure.Stop.TheVariants.{Refused};
ghost use Rattle.fz_base.specs.declared.fault.Place.TheVariants.{Byte as AtByte};
ghost use Rattle.fz_base.specs.declared.kind.Kind.TheVariants.{BadPatch as IsBadPatch};
ghost use Rattle.fz_block.specs.Checks.{header_blocks_of, header_touched};
ghost use Rattle.fz_block.specs.Header.{next_start_of};
ghost use Rattle.fz_block.specs.Takings.{header_taking};
ghost use Rattle.fz_laws.specs.PatchChecks.{may_be_given};
ghost use Rattle.fz_target.specs.Targets.{IsGivenImage, given_found};

use fz_base::{Fault, Kind, Meter, Place, Source, Stop};
use fz_block::{Header, hdu_at_law, header_at};
use fz_head::{Plan, has_places};

/// Reads the header of the first HDU of PATCH, whose image is put into one with this plan.
///
/// Refused with BadPatch, at byte 0 of HDU 0: `header_at` refuses it; its pixels have other bits, it has another number
/// of axes, or no pixel along one.
pub(crate) fn read_given<S: Source>(
    patch: &mut S,
    patch_length: u64,
    meter: &mut Meter,
    plan: &Plan,
    block: &mut [u8],
) -> Result<Header, Stop>
    requires attached { S.attached patch.old ≡ Some patch_length }
    requires axes { (1 ≤ plan.now.shape.n) × (plan.now.shape.n ≤ 9) }
    requires block { len block.old ≡ 2880 }
    ensures exact { IfSome (S.held patch.old) (λ p. IsDefined (given_found plan.now p) result) }
    ensures given { IfOk result (IsGivenImage plan.now) }
    ensures within { IfOk result (λ q. (next_start_of q ≤ patch_length) × (next_start_of q ≤ 2 ^ 62)) }
    ensures block { len block.new ≡ 2880 }
    ensures read { IfSome (S.held patch.old) (λ p. LogsWithin 0 (header_touched 0 0 p) (S.ranges patch.old) (S.ranges patch.new)) }
    ensures risen { meter.old.peak ≤ meter.new.peak }
    ensures first_past { IfSome (S.held patch.old)
        (λ p. TellsFirstPast meter.old.limit (header_taking meter.old.live (header_blocks_of 0 0 p)) result) }
    ensures peak { IfSome (S.held patch.old)
        (λ p. meter.new.peak ≤ max meter.old.peak (highest (header_taking meter.old.live (header_blocks_of 0 0 p)))) }
    ensures exact_peak { OnOk result (IfSome (S.held patch.old)
        (λ p. meter.new.peak ≡ max meter.old.peak (highest (header_taking meter.old.live (header_blocks_of 0 0 p))))) }
    ensures most { TellsLimit meter.old.limit (meter.old.live + 737280) result }
    ensures peak_most { meter.new.peak ≤ max meter.old.peak (meter.old.live + 737280) }
    ensures stays { SourceStays S.held S.attached S.ranges patch.old patch.new × (meter.new.live ≡ meter.old.live)
        × (meter.new.limit ≡ meter.old.limit) }
    ensures cause { ReadsAndTakes (S.tally patch.old) (S.tally patch.new) meter.old.limit result }
{
    // As many blocks are read as the header has.
    hdu_at_law();
    let read = match header_at(patch, patch_length, 0, 0, meter, block) {
        Ok(read) => read,
        Err(Stop::Refused(_)) => return Err(bad_patch()),
        Err(stop) => return Err(stop),
    };
    let header = read.facts;
    meter.give_bytes(read.bytes);
    if !is_fitting(plan, &header) {
        return Err(bad_patch());
    }
    Ok(header)
}

// The image cannot be put in.
fn bad_patch() -> Stop
    ensures { result ≡ Refused (refusal 0 (AtByte 0) IsBadPatch) }
{
    Stop::Refused(Fault {
        hdu: 0,
        at: Place::Byte(0),
        kind: Kind::BadPatch,
    })
}

// Whether an image with this header can be put into one with this plan.
fn is_fitting(plan: &Plan, header: &Header) -> bool
    requires { plan.now.shape.n ≤ 9 }
    ensures { result ≡ may_be_given plan.now (Ok header.now) }
{
    header.bitpix == plan.bitpix && header.axes.n == plan.shape.n && has_places(&header.axes)
}

//! The first look of each job.
ghost use Rattle.std.specs.Prelude.{◌≡◌, ◌+◌, ◌<◌, ◌≤◌, ◌^◌, max, Some, length as len, IfOk, IfSome, IsSome, OnOk};
ghost use Rattle.fz_base.specs.Keeps.{SourceStays};
ghost use Rattle.fz_base.specs.Source.{LogsOnly};
ghost use Rattle.fz_base.specs.Stop.{ReadsAndTakes, IsDefined, TellsLimit};
ghost use Rattle.fz_base.specs.Takings.{TellsFirstPast, highest};
ghost use Rattle.fz_block.specs.Header.{next_start_of};
ghost use Rattle.fz_checks.specs.JobChecks.{IsBox};
ghost use Rattle.fz_head.specs.Planned.{AreOptions};
ghost use Rattle.fz_job.specs.SurveyReads.{IsWithinOne};
ghost use Rattle.fz_job.specs.Surveys.{IsSurvey, amend_surveyed, cut_surveyed, surveyed, survey_takings, survey_places};
ghost use Rattle.fz_job.specs.declared.checks.JobChecks.TheVariants.{Pack, Unpack, Cut, Amend, Every};

use crate::checks::JobChecks;
use crate::survey::{Survey, survey_headers};
use fz_base::{Meter, Source, Stop};
use fz_block::Header;
use fz_checks::missing_hdu;
use fz_grid::Region;
use fz_head::PackOptions;

/// The first look of `pack`, with these options. Block, headers and refusals as in `survey_headers`.
///
/// Refused also: a table is packed already (AlreadyPacked); an image as `plan_to_pack` refuses it, and then
/// if the fill after its data is not zeros (DataFill); a 65,536th HDU (Limit).
pub fn survey_to_pack<S: Source>(
    source: &mut S,
    length: u64,
    meter: &mut Meter,
    block: &mut [u8],
    options: &PackOptions,
) -> Result<Survey, Stop>
    requires attached { S.attached source.old ≡ Some length }
    requires block { len block.old ≡ 2880 }
    requires options { AreOptions options.now }
    ensures exact { IfSome (S.held source.old) (λ g. IsDefined (surveyed (Pack options.now) g) result) }
    ensures survey { IfOk result (IsSurvey (Pack options.now) length) }
    ensures risen { meter.old.peak ≤ meter.new.peak }
    ensures first_past { IfSome (S.held source.old) (λ g. TellsFirstPast meter.old.limit
        (survey_takings (Pack options.now) meter.old.live g) result) }
    ensures peak { IfSome (S.held source.old) (λ g. meter.new.peak ≤ max meter.old.peak
        (highest (survey_takings (Pack options.now) meter.old.live g))) }
    ensures exact_peak { OnOk result (IfSome (S.held source.old)
        (λ g. meter.new.peak ≡ max meter.old.peak (highest (survey_takings (Pack options.now) meter.old.live g)))) }
    ensures most { TellsLimit meter.old.limit (meter.old.live + 737280) result }
    ensures peak_most { meter.new.peak ≤ max meter.old.peak (meter.old.live + 737280) }
    ensures touched { IfSome (S.held source.old) (λ g. LogsOnly (IsWithinOne (survey_places (Pack options.now) g))
        (S.ranges source.old) (S.ranges source.new)) }
    ensures stays { SourceStays S.held S.attached S.ranges source.old source.new × (meter.new.live ≡ meter.old.live)
        × (meter.new.limit ≡ meter.old.limit) }
    ensures cause { ReadsAndTakes (S.tally source.old) (S.tally source.new) meter.old.limit result }
{
    survey_headers(source, length, meter, block, &JobChecks::Pack(*options))
}

/// The first look of `unpack`, `verify` and `list`. Block, headers and refusals as in `survey_headers`.
///
/// Refused also: a table as `image_to_unpack` refuses it.
pub fn survey_to_unpack<S: Source>(
    source: &mut S,
    length: u64,
    meter: &mut Meter,
    block: &mut [u8],
) -> Result<Survey, Stop>
    requires attached { S.attached source.old ≡ Some length }
    requires block { len block.old ≡ 2880 }
    ensures exact { IfSome (S.held source.old) (λ g. IsDefined (surveyed Unpack g) result) }
    ensures survey { IfOk result (IsSurvey Unpack length) }
    ensures primary { IfOk result (λ s. IfSome s.packed_primary (λ start. (start < length) × (start ≤ 2 ^ 62))) }
    ensures risen { meter.old.peak ≤ meter.new.peak }
    ensures first_past { IfSome (S.held source.old) (λ g. TellsFirstPast meter.old.limit (survey_takings Unpack meter.old.live g) result) }
    ensures peak { IfSome (S.held source.old) (λ g. meter.new.peak ≤ max meter.old.peak (highest (survey_takings Unpack meter.old.live g))) }
    ensures exact_peak { OnOk result (IfSome (S.held source.old)
        (λ g. meter.new.peak ≡ max meter.old.peak (highest (survey_takings Unpack meter.old.live g)))) }
    ensures most { TellsLimit meter.old.limit (meter.old.live + 737280) result }
    ensures peak_most { meter.new.peak ≤ max meter.old.peak (meter.old.live + 737280) }
    ensures touched { IfSome (S.held source.old) (λ g. LogsOnly (IsWithinOne (survey_places Unpack g)) (S.ranges source.old) (S.ranges source.new)) }
    ensures stays { SourceStays S.held S.attached S.ranges source.old source.new × (meter.new.live ≡ meter.old.live)
        × (meter.new.limit ≡ meter.old.limit) }
    ensures cause { ReadsAndTakes (S.tally source.old) (S.tally source.new) meter.old.limit result }
{
    survey_headers(source, length, meter, block, &JobChecks::Unpack)
}

/// The first look of `cut`, which cuts this box out of the wanted HDU, or out of the first packed one: it
/// stops at that HDU, and looks at none after it. Block, headers and refusals as in `survey_headers`.
///
/// Refused also: that HDU as `image_to_cut` refuses it; the file ends before it (NotPacked, at the end of the
/// file, with the wanted number or otherwise that of the file's HDUs).
pub fn survey_to_cut<S: Source>(
    source: &mut S,
    length: u64,
    meter: &mut Meter,
    block: &mut [u8],
    wanted: Option<u32>,
    region: &Region,
) -> Result<Survey, Stop>
    requires attached { S.attached source.old ≡ Some length }
    requires block { len block.old ≡ 2880 }
    requires region { IsBox region.now }
    ensures exact { IfSome (S.held source.old) (λ g. IsDefined (cut_surveyed wanted region.now g) result) }
    ensures survey { IfOk result (IsSurvey (Cut wanted region.now) length) }
    ensures stopped { IfOk result (λ s. IsSome s.stopped) }
    ensures risen { meter.old.peak ≤ meter.new.peak }
    ensures first_past { IfSome (S.held source.old) (λ g. TellsFirstPast meter.old.limit
        (survey_takings (Cut wanted region.now) meter.old.live g) result) }
    ensures peak { IfSome (S.held source.old) (λ g. meter.new.peak ≤ max meter.old.peak
        (highest (survey_takings (Cut wanted region.now) meter.old.live g))) }
    ensures exact_peak { OnOk result (IfSome (S.held source.old)
        (λ g. meter.new.peak ≡ max meter.old.peak (highest (survey_takings (Cut wanted region.now) meter.old.live g)))) }
    ensures most { TellsLimit meter.old.limit (meter.old.live + 737280) result }
    ensures peak_most { meter.new.peak ≤ max meter.old.peak (meter.old.live + 737280) }
    ensures touched { IfSome (S.held source.old) (λ g. LogsOnly (IsWithinOne (survey_places (Cut wanted region.now) g))
        (S.ranges source.old) (S.ranges source.new)) }
    ensures stays { SourceStays S.held S.attached S.ranges source.old source.new × (meter.new.live ≡ meter.old.live)
        × (meter.new.limit ≡ meter.old.limit) }
    ensures cause { ReadsAndTakes (S.tally source.old) (S.tally source.new) meter.old.limit result }
{
    let checks = JobChecks::Cut {
        wanted,
        region: *region,
    };
    let seen = survey_headers(source, length, meter, block, &checks)?;
    match seen.stopped {
        Some(_) => Ok(seen),
        None => Err(Stop::Refused(missing_hdu(wanted, seen.hdus, length))),
    }
}

/// A look at all headers of a file with no checks but those that every job makes. Block, headers and refusals as in
/// `survey_headers`.
pub fn survey_every<S: Source>(
    source: &mut S,
    length: u64,
    meter: &mut Meter,
    block: &mut [u8],
) -> Result<Survey, Stop>
    requires attached { S.attached source.old ≡ Some length }
    requires block { len block.old ≡ 2880 }
    ensures exact { IfSome (S.held source.old) (λ g. IsDefined (surveyed Every g) result) }
    ensures survey { IfOk result (IsSurvey Every length) }
    ensures risen { meter.old.peak ≤ meter.new.peak }
    ensures first_past { IfSome (S.held source.old) (λ g. TellsFirstPast meter.old.limit
        (survey_takings Every meter.old.live g) result) }
    ensures peak { IfSome (S.held source.old) (λ g. meter.new.peak ≤ max meter.old.peak
        (highest (survey_takings Every meter.old.live g))) }
    ensures exact_peak { OnOk result (IfSome (S.held source.old)
        (λ g. meter.new.peak ≡ max meter.old.peak (highest (survey_takings Every meter.old.live g)))) }
    ensures most { TellsLimit meter.old.limit (meter.old.live + 737280) result }
    ensures peak_most { meter.new.peak ≤ max meter.old.peak (meter.old.live + 737280) }
    ensures touched { IfSome (S.held source.old) (λ g. LogsOnly (IsWithinOne (survey_places Every g))
        (S.ranges source.old) (S.ranges source.new)) }
    ensures stays { SourceStays S.held S.attached S.ranges source.old source.new × (meter.new.live ≡ meter.old.live)
        × (meter.new.limit ≡ meter.old.limit) }
    ensures cause { ReadsAndTakes (S.tally source.old) (S.tally source.new) meter.old.limit result }
{
    survey_headers(source, length, meter, block, &JobChecks::Every)
}

/// Looks for the packed image that is changed in place, in the HDU of this number, or else in the first packed one: it
/// stops at that HDU, and looks at none after it. Answers its header. Block, headers and refusals as in `survey_headers`.
///
/// Refused also: that HDU as `image_to_amend` refuses it; the file ends before it (NotPacked, at the end of the file, with
/// the wanted number or else that of the file's HDUs).
pub fn survey_to_amend<S: Source>(
    source: &mut S,
    length: u64,
    meter: &mut Meter,
    block: &mut [u8],
    wanted: Option<u32>,
) -> Result<Header, Stop>
    requires attached { S.attached source.old ≡ Some length }
    requires block { len block.old ≡ 2880 }
    ensures exact { IfSome (S.held source.old) (λ g. IsDefined (amend_surveyed wanted g) result) }
    ensures inside { IfOk result (λ h. (next_start_of h ≤ length) × (next_start_of h ≤ 2 ^ 62)) }
    ensures risen { meter.old.peak ≤ meter.new.peak }
    ensures first_past { IfSome (S.held source.old) (λ g. TellsFirstPast meter.old.limit
        (survey_takings (Amend wanted) meter.old.live g) result) }
    ensures peak { IfSome (S.held source.old) (λ g. meter.new.peak ≤ max meter.old.peak
        (highest (survey_takings (Amend wanted) meter.old.live g))) }
    ensures exact_peak { OnOk result (IfSome (S.held source.old)
        (λ g. meter.new.peak ≡ max meter.old.peak (highest (survey_takings (Amend wanted) meter.old.live g)))) }
    ensures most { TellsLimit meter.old.limit (meter.old.live + 737280) result }
    ensures peak_most { meter.new.peak ≤ max meter.old.peak (meter.old.live + 737280) }
    ensures touched { IfSome (S.held source.old) (λ g. LogsOnly (IsWithinOne (survey_places (Amend wanted) g))
        (S.ranges source.old) (S.ranges source.new)) }
    ensures stays { SourceStays S.held S.attached S.ranges source.old source.new × (meter.new.live ≡ meter.old.live)
        × (meter.new.limit ≡ meter.old.limit) }
    ensures cause { ReadsAndTakes (S.tally source.old) (S.tally source.new) meter.old.limit result }
{
    let checks = JobChecks::Amend { wanted };
    let seen = survey_headers(source, length, meter, block, &checks)?;
    match seen.stopped {
        Some(header) => Ok(header),
        None => Err(Stop::Refused(missing_hdu(wanted, seen.hdus, length))),
    }
}

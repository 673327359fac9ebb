//! The checks that a job makes of one HDU.
ghost use Rattle.std.specs.Prelude.{◌≡◌, false, true, ◌+◌, ◌≤◌, ◌^◌, Some, length as len, IfOk, IfSome};
ghost use Rattle.fz_base.specs.Keeps.{SourceStays};
ghost use Rattle.fz_base.specs.Source.{Reads, LogsOnly};
ghost use Rattle.fz_base.specs.Stop.{ReadsOnly, IsDefined};
ghost use Rattle.fz_block.specs.Facts.{IsHeaderOf};
ghost use Rattle.fz_block.specs.Header.{next_start_of};
ghost use Rattle.fz_grid.specs.Region.{IsDivided};
ghost use Rattle.fz_checks.specs.JobChecks.{IsBox, data_end_of, data_fill, fill_in, is_after_empty};
ghost use Rattle.fz_checks.specs.Judges.{is_wanted as is_wanted_of};
ghost use Rattle.fz_head.specs.Planned.{AreOptions};
ghost use Rattle.fz_checks.specs.WorkBuffers.{pixels_of_tile};
ghost use Rattle.fz_job.specs.Judges.{AreChecks};
ghost use Rattle.fz_job.specs.Looks.{amend_look, cut_look, hdu_look, look_of, pack_look, unpack_look};
ghost use Rattle.fz_job.specs.SurveyReads.{IsWithinOne};
ghost use Rattle.fz_job.specs.Surveys.{looks_at_fill as looks_at_fill_of, fill_places};

use crate::checks::JobChecks;
use crate::fill_check::check_fill;
use fz_base::{Fault, Source, Stop};
use fz_block::{Header, hdu_law};
use fz_checks::{image_to_amend, image_to_cut, image_to_unpack, plan_to_pack};
use fz_grid::{Region, volume};
use fz_head::{PackOptions, Plan, is_packable, is_packed};

/// What the checks of an HDU learn: the pixels of a tile, if the job works on its tiles, whether it is a packed primary, if
/// the job makes the checks of `unpack`, and whether the job looks at no HDU after it.
#[derive(Clone, Copy, Debug, PartialEq, Eq)]
pub(crate) struct Look {
    pub(crate) tile: u32,
    pub(crate) primary: bool,
    pub(crate) stop: bool,
}

/// A header, and what the checks of its HDU learnt.
#[derive(Clone, Copy, Debug, PartialEq, Eq)]
pub(crate) struct Looked {
    pub(crate) header: Header,
    pub(crate) look: Look,
}

/// Makes the job's checks of the HDU that has this header: of the header, and then of the fill after an
/// image that is packed. `after_empty` says that it is HDU 1 after a primary with NAXIS 0.
pub(crate) fn check_hdu<S: Source>(
    source: &mut S,
    length: u64,
    checks: &JobChecks,
    header: &Header,
    buf: &[u8],
    after_empty: bool,
    block: &mut [u8],
) -> Result<Look, Stop>
    requires attached { S.attached source.old ≡ Some length }
    requires header { IsHeaderOf buf.now header.now }
    requires read { Reads (S.held source.old) header.now.start buf.now }
    requires within { (next_start_of header.now ≤ length) × (next_start_of header.now ≤ 2 ^ 62) }
    requires checks { AreChecks checks.now }
    requires after { IfSome (S.held source.old) (λ g. after_empty ≡ is_after_empty g header.now) }
    requires block { len block.old ≡ 2880 }
    ensures exact { IfSome (S.held source.old) (λ g. IsDefined (hdu_look checks.now g header.now) result) }
    ensures small { IfOk result (λ l. l.tile ≤ 2 ^ 26) }
    ensures log { LogsOnly (IsWithinOne (fill_places checks.now header.now)) (S.ranges source.old) (S.ranges source.new) }
    ensures source { SourceStays S.held S.attached S.ranges source.old source.new }
    ensures cause { ReadsOnly (S.tally source.old) (S.tally source.new) result }
{
    hdu_law();
    let found = match check_header(checks, header, buf, after_empty) {
        Ok(found) => found,
        Err(fault) => return Err(Stop::Refused(fault)),
    };
    if !looks_at_fill(checks, header, buf) {
        return Ok(found);
    }
    match check_fill(source, length, header, block) {
        Ok(()) => Ok(found),
        Err(stop) => Err(stop),
    }
}

// Whether the fill after the data is looked at.
fn looks_at_fill(checks: &JobChecks, header: &Header, buf: &[u8]) -> bool
    requires header { IsHeaderOf buf.now header.now }
    ensures { result ≡ looks_at_fill_of checks.now header.now }
{
    match checks {
        JobChecks::Pack(_) => is_packable(buf, header),
        JobChecks::Unpack => false,
        JobChecks::Cut { .. } | JobChecks::Amend { .. } | JobChecks::Every => false,
    }
}

// The job's checks of a header.
#[tactic(auto, unfolding(crate::specs::Looks::look_of))]
fn check_header(
    checks: &JobChecks,
    header: &Header,
    buf: &[u8],
    after_empty: bool,
) -> Result<Look, Fault>
    requires header { IsHeaderOf buf.now header.now }
    requires end { next_start_of header.now ≤ 2 ^ 62 }
    requires checks { AreChecks checks.now }
    ensures exact { result ≡ look_of checks.now header.now buf.now after_empty }
    ensures small { IfOk result (λ l. l.tile ≤ 2 ^ 26) }
{
    match checks {
        JobChecks::Pack(options) => look_to_pack(options, header, buf),
        JobChecks::Unpack => look_to_unpack(header, buf, after_empty),
        JobChecks::Cut { wanted, region } => {
            look_to_cut(*wanted, region, header, buf, after_empty)
        }
        JobChecks::Amend { wanted } => look_to_amend(*wanted, header, buf, after_empty),
        JobChecks::Every => Ok(going_on(0)),
    }
}

fn look_to_pack(options: &PackOptions, header: &Header, buf: &[u8]) -> Result<Look, Fault>
    requires header { IsHeaderOf buf.now header.now }
    requires end { next_start_of header.now ≤ 2 ^ 62 }
    requires options { AreOptions options.now }
    ensures exact { result ≡ pack_look options.now header.now buf.now }
    ensures small { IfOk result (λ l. l.tile ≤ 2 ^ 26) }
{
    match plan_to_pack(buf, header, options) {
        Ok(Some(plan)) => Ok(going_on(tile_pixels(&plan))),
        Ok(None) => Ok(going_on(0)),
        Err(fault) => Err(fault),
    }
}

fn look_to_unpack(header: &Header, buf: &[u8], after_empty: bool) -> Result<Look, Fault>
    requires header { IsHeaderOf buf.now header.now }
    requires end { next_start_of header.now ≤ 2 ^ 62 }
    ensures exact { result ≡ unpack_look header.now buf.now after_empty }
    ensures small { IfOk result (λ l. l.tile ≤ 2 ^ 26) }
{
    match image_to_unpack(buf, header, after_empty) {
        Ok(Some(image)) => Ok(Look {
            tile: tile_pixels(&image.plan),
            primary: image.plan.primary,
            stop: false,
        }),
        Ok(None) => Ok(going_on(0)),
        Err(fault) => Err(fault),
    }
}

fn look_to_cut(
    wanted: Option<u32>,
    region: &Region,
    header: &Header,
    buf: &[u8],
    after_empty: bool,
) -> Result<Look, Fault>
    requires header { IsHeaderOf buf.now header.now }
    requires end { next_start_of header.now ≤ 2 ^ 62 }
    requires region { IsBox region.now }
    ensures exact { result ≡ cut_look wanted region.now header.now buf.now after_empty }
    ensures small { IfOk result (λ l. l.tile ≤ 2 ^ 26) }
{
    if !is_wanted(wanted, header, buf) {
        return Ok(going_on(0));
    }
    match image_to_cut(buf, header, after_empty, region) {
        Ok(image) => Ok(stopping(tile_pixels(&image.plan))),
        Err(fault) => Err(fault),
    }
}

fn look_to_amend(
    wanted: Option<u32>,
    header: &Header,
    buf: &[u8],
    after_empty: bool,
) -> Result<Look, Fault>
    requires header { IsHeaderOf buf.now header.now }
    requires end { next_start_of header.now ≤ 2 ^ 62 }
    ensures exact { result ≡ amend_look wanted header.now buf.now after_empty }
    ensures small { IfOk result (λ l. l.tile ≤ 2 ^ 26) }
{
    if !is_wanted(wanted, header, buf) {
        return Ok(going_on(0));
    }
    match image_to_amend(buf, header, after_empty) {
        Ok(image) => Ok(stopping(tile_pixels(&image.plan))),
        Err(fault) => Err(fault),
    }
}

// Whether this HDU is the one that the job wants.
fn is_wanted(wanted: Option<u32>, header: &Header, buf: &[u8]) -> bool
    requires header { IsHeaderOf buf.now header.now }
    ensures { result ≡ is_wanted_of wanted buf.now header.now }
{
    match wanted {
        Some(hdu) => header.hdu == hdu,
        None => is_packed(buf, header),
    }
}

// An HDU with tiles of so many pixels, after which the job goes on.
fn going_on(tile: u32) -> Look
    ensures { result ≡ record { tile = tile; primary = false; stop = false } }
{
    Look {
        tile,
        primary: false,
        stop: false,
    }
}

// The same, after which it looks at none.
fn stopping(tile: u32) -> Look
    ensures { result ≡ record { tile = tile; primary = false; stop = true } }
{
    Look {
        tile,
        primary: false,
        stop: true,
    }
}

// The pixels of a tile that no edge cuts short.
fn tile_pixels(plan: &Plan) -> u32
    requires { IsDivided plan.now.shape plan.now.tile }
    ensures pixels { result ≡ pixels_of_tile plan.now }
    ensures few { result ≤ 2 ^ 26 }
{
    volume(&plan.tile) as u32
}

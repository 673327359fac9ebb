//! One HDU, verified.
ghost use Rattle.std.specs.Prelude.{ℕ, ◌≡◌, ◌<◌, ◌≤◌, ◌^◌, true, Some, length as len, List, IfOk, IfSome, OnOk};
ghost use Rattle.fz_base.specs.Ranges.{LogsIn};
ghost use Rattle.fz_base.specs.Stop.{IfRefused};
ghost use Rattle.fz_files.specs.Restored.{pixels_of};
ghost use Rattle.fz_files.specs.declared.job.Job.TheVariants.{Verify};
ghost use Rattle.fz_fetch.specs.Stops.{Fetches};
ghost use Rattle.fz_pool.specs.Window.{HasSlotsFor, WindowStays};
ghost use Rattle.fz_job.specs.Workspace.{SpaceStays};
ghost use Rattle.fz_job.specs.Clauses.{IsOfSomeRow};
ghost use Rattle.fz_job.specs.Again.{IsAgain};
ghost use Rattle.fz_base.specs.Keeps.{SourceStays};
ghost use Rattle.fz_files.specs.Touched.{data_touched};
ghost use Rattle.fz_verify.specs.Rows.{IsHduFault, IsHduSound};
ghost use Rattle.fz_verify.specs.Sums.{AreVerdictsOn};

use crate::sums::{Verdicts, judge_sums};
use fz_base::{Gate, Source, Stop, ranges_law};
use fz_block::BLOCK_LEN;
use fz_fetch::decode_tiles;
use fz_job::{ReadHdu, Workspace, hdus_law};
use fz_pool::{Crew, Window};
use std::thread::Threads;

/// Decodes the tiles of an HDU, whose header is in the workspace, if it is packed and they were not decoded before, and
/// judges its sums.
pub(crate) fn verify_hdu<R: Threads + Sync, S: Source, G: Gate>(
    crew: &Crew<'_, R, G>,
    source: &mut S,
    window: &mut Window,
    again: &ReadHdu,
    space: &mut Workspace,
    decoded: bool,
) -> Result<Verdicts, Stop>
    requires again { (n : ℕ) × (n < 2 ^ 64) × (S.attached source.old ≡ Some n) × IsAgain (S.held source.old) n space.old.header again.now }
    requires window { IfSome again.now.image (λ i. HasSlotsFor (pixels_of i.plan 0) window.old) }
    requires copy { 4096 ≤ len space.old.copy }
    requires sound { decoded ≡ true → IfSome (S.held source.old) (λ g. IsHduSound g again.now.header) }
    ensures verdicts { IfOk result (λ v. IfSome (S.held source.old) (λ g. AreVerdictsOn g again.now.header v × IsHduSound g again.now.header)) }
    ensures fault { IfRefused result (λ x. IfSome (S.held source.old) (λ g. IsHduFault g again.now.header x)) }
    ensures row { IfRefused result IsOfSomeRow }
    ensures stays { SourceStays S.held S.attached S.ranges source.old source.new × SpaceStays space.old space.new
        × WindowStays window.old window.new }
    ensures read { IfSome (S.held source.old) (λ g. LogsIn (data_touched Verify g again.now.header) (S.ranges source.old) (S.ranges source.new)) }
    ensures cause { Fetches (S.tally source.old) (S.tally source.new) result }
{
    hdus_law();
    ranges_law();
    let rows = space.copy.as_mut_slice();
    decode_hdu(crew, source, window, again, rows, decoded)?;
    let buf = &space.header.as_slice()[..BLOCK_LEN * again.header.blocks as usize];
    judge_sums(source, &again.header, buf, space.copy.as_mut_slice())
}

// Decodes the tiles of an HDU, if it is packed and they were not decoded before.
fn decode_hdu<R: Threads + Sync, S: Source, G: Gate>(
    crew: &Crew<'_, R, G>,
    source: &mut S,
    window: &mut Window,
    again: &ReadHdu,
    rows: &mut [u8],
    decoded: bool,
) -> Result<(), Stop>
    requires again { (n : ℕ) × (n < 2 ^ 64) × (S.attached source.old ≡ Some n) × ((buf : List ℕ) × IsAgain (S.held source.old) n buf again.now) }
    requires window { IfSome again.now.image (λ i. HasSlotsFor (pixels_of i.plan 0) window.old) }
    requires rows { 4096 ≤ len rows.old }
    requires sound { decoded ≡ true → IfSome (S.held source.old) (λ g. IsHduSound g again.now.header) }
    ensures sound { OnOk result (IfSome (S.held source.old) (λ g. IsHduSound g again.now.header)) }
    ensures fault { IfRefused result (λ x. IfSome (S.held source.old) (λ g. IsHduFault g again.now.header x)) }
    ensures row { IfRefused result IsOfSomeRow }
    ensures stays { SourceStays S.held S.attached S.ranges source.old source.new × WindowStays window.old window.new
        × (len rows.new ≡ len rows.old) }
    ensures read { IfSome (S.held source.old) (λ g. LogsIn (data_touched Verify g again.now.header) (S.ranges source.old) (S.ranges source.new)) }
    ensures cause { Fetches (S.tally source.old) (S.tally source.new) result }
{
    hdus_law();
    if decoded {
        return Ok(());
    }
    match &again.image {
        Some(image) => decode_tiles(crew, source, window, &again.header, image, rows),
        None => Ok(()),
    }
}

//! The HDUs of a file, compared one after another with what `pack` writes.
ghost use Rattle.std.specs.Prelude.{ℕ, ◌≡◌, ◌+◌, ◌*◌, ◌<◌, ◌≤◌, ◌^◌, List, Option, None, Some, length as len, replicate, IfOk, IfSome, OnOk};
ghost use Rattle.fz_base.specs.Ranges.{LogsIn};
ghost use Rattle.fz_base.specs.Source.{HoldsLength};
ghost use Rattle.fz_base.specs.Stop.{IfRefused};
ghost use Rattle.fz_job.specs.Again.{IsAgain};
ghost use Rattle.fz_base.specs.Keeps.{SourceStays};
ghost use Rattle.fz_fetch.specs.Stops.{Fetches};
ghost use Rattle.fz_files.specs.Restored.{pixels_of};
ghost use Rattle.fz_files.specs.declared.job.Job.TheVariants.{Verify};
ghost use Rattle.fz_head.specs.Planned.{AreOptions};
ghost use Rattle.fz_job.specs.Clauses.{ComesLate, IsOfSomeRow};
ghost use Rattle.fz_pool.specs.Window.{HasSlotsFor, slot_sizes, WindowStays};
ghost use Rattle.fz_job.specs.Workspace.{SpaceStays};
ghost use Rattle.fz_strict.specs.Origins.{IsOrigin};
ghost use Rattle.fz_compare.specs.Reads.{ReadsKnown, hdu_ranges};
ghost use Rattle.fz_strict.specs.Rows.{ComparesSeen, IsHduFault, IsHduSound};
ghost use Rattle.fz_strict.specs.SameImages.{ComparesCopy, ComparesHdu};

use crate::image::compare_image;
use crate::laws::one_hdu_law;
use crate::origin::Origin;
use fz_base::{Gate, Source, Stop, ranges_law};
use fz_block::{BLOCK_LEN, hdu_at_law, next_start};
use fz_checks::packed_primary_law;
use fz_fetch::ImageIn;
use fz_head::PackOptions;
use fz_job::{Begun, ReadHdu, Survey, Workspace, hdus_law, read_front};
use fz_laws::restored_file_law;
use fz_pool::{Crew, Window};
use std::thread::Threads;

/// What is compared, by which options, and by whom: who works, the length of the file, what the look says of it, and the
/// options by which `pack` may have written it.
#[derive(Drop)]
pub(crate) struct Comparing<'a, R, G> {
    pub(crate) crew: Crew<'a, R, G>,
    pub(crate) length: u64,
    pub(crate) survey: Survey,
    pub(crate) options: PackOptions,
}

/// Whether the file is what `pack` writes by these options for the file that it stands for. All tiles are decoded,
/// whatever was found before.
pub(crate) fn compare_hdus<R: Threads + Sync, S: Source, G: Gate>(
    asked: &Comparing<'_, R, G>,
    source: &mut S,
    window: &mut Window,
    plain: &mut [u8],
    space: &mut Workspace,
) -> Result<bool, Stop>
    requires attached { S.attached source.old ≡ Some asked.now.length }
    requires some { 0 < asked.now.survey.hdus }
    requires few { asked.now.survey.hdus ≤ 65536 }
    requires options { AreOptions asked.now.options }
    requires window { slot_sizes window.old.slots ≡ replicate (2 * window.old.workers) (2 * asked.now.survey.tile, 8 * asked.now.survey.tile + 64) }
    requires long { 2880 ≤ asked.now.survey.header_len }
    requires header { len space.old.header ≡ asked.now.survey.header_len + 2880 }
    requires plain { len plain.old ≡ asked.now.survey.header_len + 2880 }
    requires copy { 4096 + 2880 ≤ len space.old.copy }
    ensures compared { IfSome (S.held source.old) (λ g. ComparesSeen asked.now.options g asked.now.survey result) }
    ensures late { IfRefused result (ComesLate Verify) }
    ensures stays { SourceStays S.held S.attached S.ranges source.old source.new × SpaceStays space.old space.new
        × WindowStays window.old window.new × (len plain.new ≡ len plain.old) }
    ensures read { IfSome (S.held source.old) (λ g. ReadsKnown g asked.now.survey (S.ranges source.old) (S.ranges source.new)) }
    ensures cause { Fetches (S.tally source.old) (S.tally source.new) result }
{
    hdu_at_law();
    hdus_law();
    one_hdu_law();
    packed_primary_law();
    ranges_law();
    restored_file_law();
    let length = asked.length;
    let mut start = 0;
    let mut after_empty = false;
    let mut origin = Some(Origin::none());
    for hdu in 0..asked.survey.hdus {
        let begun = Begun {
            hdu,
            start,
            after_empty,
        };
        let header = space.header.as_mut_slice();
        let again = read_front(source, length, begun, &asked.survey, header)?;
        let now = compare_hdu(asked, source, window, &again, &origin, plain, space)?;
        origin = now;
        start = next_start(&again.header);
        if start == length {
            return Ok(origin.is_some());
        }
        after_empty = again.is_empty_primary();
    }
    Ok(origin.is_some())
}

// Compares an HDU, whose header is in the workspace.
fn compare_hdu<R: Threads + Sync, S: Source, G: Gate>(
    asked: &Comparing<'_, R, G>,
    source: &mut S,
    window: &mut Window,
    again: &ReadHdu,
    origin: &Option<Origin>,
    plain: &mut [u8],
    space: &mut Workspace,
) -> Result<Option<Origin>, Stop>
    requires again { (n : ℕ) × (n < 2 ^ 64) × (S.attached source.old ≡ Some n) × IsAgain (S.held source.old) n space.old.header again.now }
    requires options { AreOptions asked.now.options }
    requires origin { IfSome origin.now IsOrigin }
    requires window { IfSome again.now.image (λ i. HasSlotsFor (pixels_of i.plan 0) window.old) }
    requires plain { len space.old.header ≤ len plain.old }
    requires room { 2880 * again.now.header.blocks + 2880 ≤ len space.old.header }
    requires copy { 4096 + 2880 ≤ len space.old.copy }
    ensures origin { IfOk result (λ o. IfSome o IsOrigin) }
    ensures compared { IfOk result (λ now. IfSome (S.held source.old) (λ g. ComparesHdu asked.now.options g again.now.header origin.now now)) }
    ensures sound { OnOk result (IfSome (S.held source.old) (λ g. IsHduSound g again.now.header)) }
    ensures fault { IfRefused result (λ x. IfSome (S.held source.old) (λ g. IsHduFault g again.now.header x)) }
    ensures row { IfRefused result IsOfSomeRow }
    ensures stays { SourceStays S.held S.attached S.ranges source.old source.new × SpaceStays space.old space.new
        × WindowStays window.old window.new × (len plain.new ≡ len plain.old) }
    ensures read { IfSome (S.held source.old) (λ g. LogsIn (hdu_ranges g again.now.header) (S.ranges source.old) (S.ranges source.new)) }
    ensures cause { Fetches (S.tally source.old) (S.tally source.new) result }
{
    match &again.image {
        Some(image) => {
            let header = &again.header;
            let packed = ImageIn { header, image };
            compare_image(asked, source, window, packed, origin, plain, space)
        }
        None => Ok(compare_copied(&asked.options, again, origin, space)),
    }
}

// The HDUs so far with one that is not packed, if `pack` copies it.
fn compare_copied(
    options: &PackOptions,
    again: &ReadHdu,
    origin: &Option<Origin>,
    space: &Workspace,
) -> Option<Origin>
    requires again { (held : Option (List ℕ)) × (n : ℕ) × (n < 2 ^ 64) × IsAgain held n space.now.header again.now }
    requires options { AreOptions options.now }
    requires origin { IfSome origin.now IsOrigin }
    ensures origin { IfSome result IsOrigin }
    ensures compared { (held : Option (List ℕ)) (n : ℕ) → HoldsLength held n → IsAgain held n space.now.header again.now → again.now.image ≡ None
        → IfSome held (λ g. ComparesCopy options.now g again.now.header origin.now result) }
{
    let header = &again.header;
    let buf = &space.header.as_slice()[..BLOCK_LEN * header.blocks as usize];
    let len = next_start(header) - header.start;
    match origin {
        Some(origin) => origin.with_copied(buf, header, len, options),
        None => None,
    }
}

//! The job `verify`: look at all headers, take all buffers, and then decode, judge and print.
ghost use Rattle.std.specs.Prelude.{◌≡◌, ◌+◌, ◌<◌, ◌≤◌, max, true, [], None, Some, length as len, sum, IfOk, IfSome, IsSome, OnOk};
ghost use Rattle.fz_base.specs.Ranges.{LogsIn};
ghost use Rattle.fz_base.specs.Stop.{IfRefused, TellsLimit};
ghost use Rattle.fz_base.specs.Takings.{TellsFirstPast, first_past, highest, piled};
ghost use Rattle.fz_base.specs.Told.{StaysTold};
ghost use Rattle.fz_files.specs.Buffers.{job_bound, job_takings};
ghost use Rattle.fz_files.specs.FirstFault.{IsFirstFault};
ghost use Rattle.fz_files.specs.declared.job.Job.TheVariants.{Verify};
ghost use Rattle.fz_pool.specs.Window.{IsEmpty};
ghost use Rattle.fz_job.specs.Workspace.{wanted_buffers};
ghost use Rattle.fz_job.specs.Hdus.{ReadsHdus};
ghost use Rattle.fz_base.specs.Keeps.{SourceStays};
ghost use Rattle.fz_files.specs.Touched.{touched_by};
ghost use Rattle.fz_job.specs.Clauses.{Answers, ComesLate, HasJobCause, IfOverLimit, IsUnmade, KeepsBuffers, KeepsSource};
ghost use Rattle.fz_job.specs.Clauses.{StaysUnmade, TellsFirstFault, greatest_bound};
ghost use Rattle.fz_verify.specs.Clauses.{IsRightAsSaid, PrintsLines};
ghost use Rattle.fz_verify.specs.Reported.{Grew, Reports};
ghost use Rattle.fz_verify.specs.Printed.{AreRowsSound, VerifiesSeen};
ghost use Rattle.fz_verify.specs.Verified.{Verifies};
ghost use Rattle.fz_job.specs.Stages.{Works, later_takings, wants_for};

use crate::checking::{Verifying, verify_hdus};
use fz_base::{Gate, Meter, Source, Stop, Text, ranges_law};
use fz_block::BLOCK_LEN;
use fz_job::{
    Survey, Wants, Workspace, hdus_law, headers_law, known_law, stages_law, survey_to_unpack,
};
use fz_pool::{Crew, Window, sizes_law};
use fz_strict::Decoded;
use std::thread::Threads;

/// Verifies the file that is attached to the source: decodes every tile of its packed images, and prints for each HDU a
/// line with the verdicts on its sums. Answers whether no sum is wrong.
///
/// All checks of headers come first, then all buffers are taken. Refused: as `survey_to_unpack` refuses the file, and
/// then nothing is printed; the lowest faulty row of the first packed image that has one, as `fetch_tiles` refuses it,
/// after the lines of the HDUs before. Of a source that gives other bytes at the second reading also an HDU that is no
/// longer the one that was looked at.
pub fn verify<R: Threads + Sync, S: Source, T: Text, G: Gate>(
    rt: &R,
    source: &mut S,
    length: u64,
    text: &mut T,
    meter: &mut Meter,
    window: &mut Window,
    gate: &G,
) -> Result<bool, Stop>
    requires attached { S.attached source.old ≡ Some length }
    requires nothing_live { meter.old.live ≡ 0 }
    requires window { IsEmpty window.old }
    requires one_worker { window.old.workers ≡ 1 }

    ensures lines { PrintsLines Verify (S.held source.old) (T.contents text.old) (T.contents text.new) result }
    ensures right { IfOk result (λ right. IfSome (S.held source.old) (IsRightAsSaid right)) }
    // Of every source: the answer says what the lines say, and nothing that was printed is taken back.
    ensures reported { IfOk result (Reports (T.contents text.old) (T.contents text.new)) }
    ensures grown { Grew (T.contents text.old) (T.contents text.new) }
    ensures first_fault { TellsFirstFault Verify (S.held source.old) result }
    // If no count of faults rose and the limit is at least the bound, only the first fault decides.
    ensures answered { Answers Verify (S.held source.old) (S.tally source.old) (S.tally source.new) (T.tally text.old)
        (T.tally text.new) meter.old.limit 1 result }
    ensures cause { HasJobCause Verify (S.held source.old) (S.tally source.old) (S.tally source.new) (T.tally text.old)
        (T.tally text.new) meter.old.limit 1 result }
    // Nothing is printed if a header is refused.
    ensures silent { IsUnmade Verify (S.held source.old) meter.old.limit 1
        ((T.contents text.new ≡ T.contents text.old) × (T.tally text.new ≡ T.tally text.old)) result }
    ensures buffers { KeepsBuffers Verify (S.held source.old) meter.old meter.new window.old window.new }
    // Every byte that is read, whatever the answer, is of a header that the checks come to, or, if no header is
    // rejected, of a row or a record of a packed image, or of the data of an HDU, of which the sums are made.
    ensures touched { IfSome (S.held source.old) (λ g. LogsIn (touched_by Verify g) (S.ranges source.old) (S.ranges source.new)) }
    // After a job that is done the peak is exactly the greatest sum of its takings, for so many workers.
    ensures exact_peak { OnOk result (IfSome (S.held source.old) (λ g. meter.new.peak ≡ max meter.old.peak (highest (job_takings Verify g 1)))) }
    // The first block is taken before anything is read.
    ensures unread { meter.old.limit < 2880 → S.ranges source.new ≡ S.ranges source.old }
    ensures kept { KeepsSource (S.held source.old) (S.held source.new) (S.attached source.old) (S.attached source.new)
        (S.tally source.old) (S.tally source.new) (T.tally text.old) (T.tally text.new) }
    ensures stays { StaysTold (S.ranges source.old) (S.ranges source.new)
        × StaysTold (T.contents text.old) (T.contents text.new) }
{
    let workers = window.workers();
    let crew = Crew { rt, gate, workers };
    let decoded: Option<Decoded<S>> = None;
    verify_decoded(crew, source, length, text, meter, window, &decoded)
}

/// The same of a file of which all tiles may have been decoded before, without a fault: if `strict_decoded` says so of this
/// very source, as it is now, they are not decoded again. The crew has as many workers as the window.
pub fn verify_decoded<R: Threads + Sync, S: Source, T: Text, G: Gate>(
    crew: Crew<'_, R, G>,
    source: &mut S,
    length: u64,
    text: &mut T,
    meter: &mut Meter,
    window: &mut Window,
    decoded: &Option<Decoded<S>>,
) -> Result<bool, Stop>
    requires attached { S.attached source.old ≡ Some length }
    requires nothing_live { meter.old.live ≡ 0 }
    requires window { IsEmpty window.old }
    requires one_worker { window.old.workers ≡ 1 }
    requires of { IfSome decoded.now (λ d. d.of.value ≡ source.old) }
    requires sound { IsSome decoded.now → IfSome (S.held source.old) (λ g. IsFirstFault Verify g None) }
    ensures { Verifies S.held S.attached S.ranges S.tally T.contents T.tally source.old source.new text.old text.new
        meter.old meter.new window.old window.new result }
{
    // How the promises of the job follow from its stages.
    stages_law::<bool>();
    let skip = decoded.is_some();
    let asked = Verifying {
        crew,
        length,
        decoded: skip,
    };
    let mut block = meter.bytes(BLOCK_LEN as u64)?;
    let answer = verify_with_block(&asked, source, text, meter, window, block.as_mut_slice());
    meter.give_bytes(block);
    answer
}

// Looks at the headers, and then works.
fn verify_with_block<R: Threads + Sync, S: Source, T: Text, G: Gate>(
    asked: &Verifying<'_, R, G>,
    source: &mut S,
    text: &mut T,
    meter: &mut Meter,
    window: &mut Window,
    block: &mut [u8],
) -> Result<bool, Stop>
    requires attached { S.attached source.old ≡ Some asked.now.length }
    requires one_block { meter.old.live ≡ 2880 }
    requires window { IsEmpty window.old }
    requires one_worker { window.old.workers ≡ 1 }
    requires block { len block.old ≡ 2880 }
    requires sound { asked.now.decoded ≡ true → IfSome (S.held source.old) (λ g. IsFirstFault Verify g None) }
    ensures lines { PrintsLines Verify (S.held source.old) (T.contents text.old) (T.contents text.new) result }
    ensures right { IfOk result (λ right. IfSome (S.held source.old) (IsRightAsSaid right)) }
    ensures reported { IfOk result (Reports (T.contents text.old) (T.contents text.new)) }
    ensures grown { Grew (T.contents text.old) (T.contents text.new) }
    ensures first_fault { TellsFirstFault Verify (S.held source.old) result }
    ensures silent { StaysUnmade Verify (S.held source.old) meter.old.limit (λ g. later_takings Verify g 1)
        ((T.contents text.new ≡ T.contents text.old) × (T.tally text.new ≡ T.tally text.old)) result }
    ensures first_past { IfSome (S.held source.old) (λ g. TellsFirstPast meter.old.limit (later_takings Verify g 1) result) }
    ensures peak { IfSome (S.held source.old) (λ g. meter.new.peak ≤ max meter.old.peak (job_bound Verify g 1)) }
    ensures exact_peak { OnOk result (IfSome (S.held source.old) (λ g. meter.new.peak ≡ max meter.old.peak (highest (later_takings Verify g 1)))) }
    ensures most { TellsLimit meter.old.limit (greatest_bound Verify 1) result }
    ensures peak_most { meter.new.peak ≤ max meter.old.peak (greatest_bound Verify 1) }
    ensures emptied { window.new ≡ record { slots = []; workers = window.old.workers } }
    ensures touched { IfSome (S.held source.old) (λ g. LogsIn (touched_by Verify g) (S.ranges source.old) (S.ranges source.new)) }
    ensures stays { SourceStays S.held S.attached S.ranges source.old source.new
        × StaysTold (T.contents text.old) (T.contents text.new) × (meter.new.live ≡ meter.old.live)
        × (meter.new.limit ≡ meter.old.limit) }
    ensures cause { Works (S.tally source.old) (S.tally source.new) (T.tally text.old) (T.tally text.new) meter.old.limit result }
{
    // What the survey reads and says of the file, and what follows from it for the job.
    hdus_law();
    headers_law();
    known_law();
    ranges_law();
    stages_law::<bool>();
    let survey = survey_to_unpack(source, asked.length, meter, block)?;
    verify_seen(asked, source, text, meter, window, &survey)
}

// Takes all buffers, verifies the HDUs, and hands the buffers back.
fn verify_seen<R: Threads + Sync, S: Source, T: Text, G: Gate>(
    asked: &Verifying<'_, R, G>,
    source: &mut S,
    text: &mut T,
    meter: &mut Meter,
    window: &mut Window,
    survey: &Survey,
) -> Result<bool, Stop>
    requires attached { S.attached source.old ≡ Some asked.now.length }
    requires window { IsEmpty window.old }
    requires some { 0 < survey.now.hdus }
    requires few { survey.now.hdus ≤ 65536 }
    requires long { 2880 ≤ survey.now.header_len }
    requires sound { asked.now.decoded ≡ true → IfSome (S.held source.old) (AreRowsSound survey.now) }
    ensures verified { IfSome (S.held source.old) (λ g. VerifiesSeen g survey.now (T.contents text.old) (T.contents text.new) result) }
    ensures reported { IfOk result (Reports (T.contents text.old) (T.contents text.new)) }
    ensures grown { Grew (T.contents text.old) (T.contents text.new) }
    ensures silent { IfOverLimit result ((T.contents text.new ≡ T.contents text.old) × (T.tally text.new ≡ T.tally text.old)) }
    ensures first_past { TellsFirstPast meter.old.limit
        (piled meter.old.live (wanted_buffers (wants_for Verify survey.now) window.old.workers)) result }
    ensures past { IsSome (first_past meter.old.limit (piled meter.old.live (wanted_buffers (wants_for Verify survey.now) window.old.workers)))
        → (T.contents text.new ≡ T.contents text.old) × (T.tally text.new ≡ T.tally text.old) }
    ensures peak { meter.new.peak ≤ max meter.old.peak (meter.old.live + sum (wanted_buffers (wants_for Verify survey.now) window.old.workers)) }
    ensures exact_peak { OnOk result (meter.new.peak ≡ max meter.old.peak
        (meter.old.live + sum (wanted_buffers (wants_for Verify survey.now) window.old.workers))) }
    ensures emptied { window.new ≡ record { slots = []; workers = window.old.workers } }
    ensures late { IfRefused result (ComesLate Verify) }
    ensures read { IfSome (S.held source.old) (λ g. ReadsHdus Verify g survey.now (S.ranges source.old) (S.ranges source.new)) }
    ensures stays { SourceStays S.held S.attached S.ranges source.old source.new
        × StaysTold (T.contents text.old) (T.contents text.new) × (meter.new.live ≡ meter.old.live)
        × (meter.new.limit ≡ meter.old.limit) }
    ensures cause { Works (S.tally source.old) (S.tally source.new) (T.tally text.old) (T.tally text.new) meter.old.limit result }
{
    // How long the slots are that were filled, and that what was taken comes back.
    sizes_law();
    stages_law::<bool>();
    let wants = Wants {
        header_len: survey.header_len,
        translates: false,
        tile: Some(survey.tile),
    };
    let mut space = Workspace::take(meter, window, &wants)?;
    let answer = verify_hdus(asked, source, text, window, survey, &mut space);
    space.give_back(meter, window);
    answer
}

//! The job: look at the headers up to the HDU that is cut from, take all buffers, and then write.
ghost use Rattle.std.specs.Prelude.{◌≡◌, ◌+◌, ◌<◌, ◌≤◌, max, true, None, Some, [], length as len, sum, OnOk, IfSome, IsSome};
ghost use Rattle.fz_base.specs.Ranges.{LogsIn};
ghost use Rattle.fz_base.specs.Counts.{nameless};
ghost use Rattle.fz_base.specs.Keeps.{SourceStays};
ghost use Rattle.fz_base.specs.Names.{NamesOnce};
ghost use Rattle.fz_base.specs.Stop.{IfRefused, TellsLimit};
ghost use Rattle.fz_base.specs.Takings.{TellsFirstPast, first_past, highest, piled};
ghost use Rattle.fz_base.specs.Told.{StaysTold};
ghost use Rattle.fz_pool.specs.Window.{IsEmpty};
ghost use Rattle.fz_job.specs.Workspace.{wanted_buffers};
ghost use Rattle.fz_files.specs.Buffers.{job_bound, job_takings};
ghost use Rattle.fz_files.specs.Cutout.{touched};
ghost use Rattle.fz_files.specs.Walks.{box_of};
ghost use Rattle.fz_files.specs.declared.job.Job.TheVariants.{Cut};
ghost use Rattle.fz_job.specs.Clauses.{Answers, ComesLate, HasJobCause, IfOverLimit, IsShutOrWhole, IsUnmade, KeepsBuffers};
ghost use Rattle.fz_job.specs.Clauses.{KeepsSource, StaysUnmade, TellsFirstFault, greatest_bound};
ghost use Rattle.fz_cut.specs.Again.{WasSeen};
ghost use Rattle.fz_files.specs.Picks.{HasPicks};
ghost use Rattle.fz_cut.specs.Output.{HoldsCutout};
ghost use Rattle.fz_job.specs.Stages.{Works, later_takings, wants_for};
ghost use Rattle.fz_cut.specs.Written.{FinishesSeen, IsShutOrPart, work_ranges};

use crate::boxes::box_of;
use crate::file::{Cutting, Found, write_file};
use crate::law::{known_law, touched_law};
use fz_base::{Gate, Meter, Sink, Source, Stop, ranges_law};
use fz_block::BLOCK_LEN;
use fz_grid::Sieve;
use fz_job::{Wants, Workspace, stages_law, survey_to_cut};
use fz_pool::{Crew, Window, sizes_law};
use std::thread::Threads;

/// Cuts the picks of a sieve out of a packed image of the file that is attached to the source: of the HDU of this
/// number, or of the first packed one. They become the primary image of the sink, which it makes by this name.
///
/// No HDU after that one is looked at. All checks of headers come first, then all buffers are taken, and only then the
/// sink is made; its byte 0 is written last. Refused: as `survey_to_cut` refuses the file; the lowest faulty row of
/// a tile that holds a pick, as `fetch_tiles` refuses it. Of a source that gives other bytes at the second reading also
/// the HDU, if it is no longer the one that was looked at.
pub fn cut<R: Threads + Sync, S: Source, K: Sink, G: Gate>(
    rt: &R,
    source: &mut S,
    length: u64,
    name: &str,
    sink: &mut K,
    meter: &mut Meter,
    window: &mut Window,
    gate: &G,
    hdu: Option<u32>,
    sieve: &Sieve,
) -> Result<(), Stop>
    requires attached { S.attached source.old ≡ Some length }
    requires empty { IfSome (K.contents sink.old) (λ c. c ≡ []) }
    requires nothing_live { meter.old.live ≡ 0 }
    requires window { IsEmpty window.old }
    requires sieve { HasPicks sieve.now }

    ensures output { OnOk result (HoldsCutout hdu sieve.now (S.held source.old) (K.contents sink.new)) }
    ensures finished { OnOk result (K.finished sink.new ≡ true) }
    ensures first_fault { TellsFirstFault (Cut hdu sieve.now) (S.held source.old) result }
    // Every byte of the ranges that it read, whatever its answer, lies in a header that it comes to, or in the row or the
    // record of a tile that holds a pick.
    ensures touched { IfSome (S.held source.old) (λ g. LogsIn (touched hdu sieve.now g) (S.ranges source.old) (S.ranges source.new)) }
    // If no count of faults rose and the limit is at least the bound, only the first fault decides.
    ensures answered { Answers (Cut hdu sieve.now) (S.held source.old) (S.tally source.old) (S.tally source.new)
        (nameless (K.tally sink.old)) (nameless (K.tally sink.new)) meter.old.limit window.old.workers result }
    ensures cause { HasJobCause (Cut hdu sieve.now) (S.held source.old) (S.tally source.old) (S.tally source.new)
        (nameless (K.tally sink.old)) (nameless (K.tally sink.new)) meter.old.limit window.old.workers result }
    ensures names { NamesOnce name.now (K.tally sink.old).names (K.tally sink.new).names result }
    // What was cut short does not begin with the S of a FITS file.
    ensures first_byte { IsShutOrWhole (K.contents sink.new) (HoldsCutout hdu sieve.now (S.held source.old) (K.contents sink.new)) result }
    ensures unmade { IsUnmade (Cut hdu sieve.now) (S.held source.old) meter.old.limit window.old.workers
        ((K.created sink.new ≡ K.created sink.old) × (K.contents sink.new ≡ K.contents sink.old)) result }
    ensures buffers { KeepsBuffers (Cut hdu sieve.now) (S.held source.old) meter.old meter.new window.old window.new }
    // After a job that is done the peak is exactly the greatest sum of its takings, for so many workers.
    ensures exact_peak { OnOk result (IfSome (S.held source.old)
        (λ g. meter.new.peak ≡ max meter.old.peak (highest (job_takings (Cut hdu sieve.now) g window.old.workers)))) }
    // The first block is taken before anything is read.
    ensures unread { meter.old.limit < 2880 → S.ranges source.new ≡ S.ranges source.old }
    ensures kept { KeepsSource (S.held source.old) (S.held source.new) (S.attached source.old) (S.attached source.new)
        (S.tally source.old) (S.tally source.new) (nameless (K.tally sink.old)) (nameless (K.tally sink.new)) }
    ensures stays { StaysTold (S.ranges source.old) (S.ranges source.new)
        × StaysTold (K.contents sink.old) (K.contents sink.new) }
{
    // How the promises of the job follow from its stages.
    stages_law::<()>();
    let workers = window.workers();
    let crew = Crew { rt, gate, workers };
    let asked = Cutting {
        crew,
        length,
        name,
        hdu,
        sieve: *sieve,
    };
    let mut block = meter.bytes(BLOCK_LEN as u64)?;
    let answer = with_block(&asked, source, sink, meter, window, block.as_mut_slice());
    meter.give_bytes(block);
    answer
}

// Looks at the headers, and then works.
fn with_block<R: Threads + Sync, S: Source, K: Sink, G: Gate>(
    asked: &Cutting<'_, '_, R, G>,
    source: &mut S,
    sink: &mut K,
    meter: &mut Meter,
    window: &mut Window,
    block: &mut [u8],
) -> Result<(), Stop>
    requires attached { S.attached source.old ≡ Some asked.now.length }
    requires empty { IfSome (K.contents sink.old) (λ c. c ≡ []) }
    requires one_block { meter.old.live ≡ 2880 }
    requires window { IsEmpty window.old }
    requires sieve { HasPicks asked.now.sieve }
    requires block { len block.old ≡ 2880 }
    ensures output { OnOk result (HoldsCutout asked.now.hdu asked.now.sieve (S.held source.old) (K.contents sink.new)) }
    ensures finished { OnOk result (K.finished sink.new ≡ true) }
    ensures first_fault { TellsFirstFault (Cut asked.now.hdu asked.now.sieve) (S.held source.old) result }
    ensures touched { IfSome (S.held source.old) (λ g. LogsIn (touched asked.now.hdu asked.now.sieve g) (S.ranges source.old) (S.ranges source.new)) }
    ensures first_byte { IsShutOrWhole (K.contents sink.new) (HoldsCutout asked.now.hdu asked.now.sieve (S.held source.old) (K.contents sink.new)) result }
    ensures unmade { StaysUnmade (Cut asked.now.hdu asked.now.sieve) (S.held source.old) meter.old.limit
        (λ g. later_takings (Cut asked.now.hdu asked.now.sieve) g window.old.workers)
        ((K.created sink.new ≡ K.created sink.old) × (K.contents sink.new ≡ K.contents sink.old)) result }
    ensures first_past { IfSome (S.held source.old) (λ g. TellsFirstPast meter.old.limit
        (later_takings (Cut asked.now.hdu asked.now.sieve) g window.old.workers) result) }
    ensures peak { IfSome (S.held source.old)
        (λ g. meter.new.peak ≤ max meter.old.peak (job_bound (Cut asked.now.hdu asked.now.sieve) g window.old.workers)) }
    ensures exact_peak { OnOk result (IfSome (S.held source.old)
        (λ g. meter.new.peak ≡ max meter.old.peak (highest (later_takings (Cut asked.now.hdu asked.now.sieve) g window.old.workers)))) }
    ensures most { TellsLimit meter.old.limit (greatest_bound (Cut asked.now.hdu asked.now.sieve) window.old.workers) result }
    ensures peak_most { meter.new.peak ≤ max meter.old.peak (greatest_bound (Cut asked.now.hdu asked.now.sieve) window.old.workers) }
    ensures emptied { window.new ≡ record { slots = []; workers = window.old.workers } }
    ensures stays { SourceStays S.held S.attached S.ranges source.old source.new
        × StaysTold (K.contents sink.old) (K.contents sink.new) × (meter.new.live ≡ meter.old.live)
        × (meter.new.limit ≡ meter.old.limit) }
    ensures cause { Works (S.tally source.old) (S.tally source.new) (nameless (K.tally sink.old)) (nameless (K.tally sink.new))
        meter.old.limit result }
    ensures names { NamesOnce asked.now.name.now (K.tally sink.old).names (K.tally sink.new).names result }
{
    // What the survey says of the file, what is read of it, and what follows for the job.
    known_law();
    touched_law();
    ranges_law();
    stages_law::<()>();
    let region = box_of(&asked.sieve);
    let survey = survey_to_cut(source, asked.length, meter, block, asked.hdu, &region)?;
    let Some(from) = &survey.stopped else {
        // A survey for a cut ends at the HDU that is cut from, or it is refused.
        unreachable!()
    };
    let found = Found {
        survey,
        from: *from,
    };
    work(asked, source, sink, meter, window, &found)
}

// Takes all buffers, writes the cutout, and hands the buffers back.
fn work<R: Threads + Sync, S: Source, K: Sink, G: Gate>(
    asked: &Cutting<'_, '_, R, G>,
    source: &mut S,
    sink: &mut K,
    meter: &mut Meter,
    window: &mut Window,
    found: &Found,
) -> Result<(), Stop>
    requires attached { S.attached source.old ≡ Some asked.now.length }
    requires empty { IfSome (K.contents sink.old) (λ c. c ≡ []) }
    requires window { IsEmpty window.old }
    requires sieve { HasPicks asked.now.sieve }
    requires long { 2880 ≤ found.now.survey.header_len }
    ensures written { IfSome (S.held source.old) (λ g. FinishesSeen g asked.now.sieve found.now.survey.header_len found.now.survey.tile found.now.from
        (K.contents sink.new) result) }
    ensures finished { OnOk result (K.finished sink.new ≡ true) }
    ensures shut { IsShutOrPart (S.held source.old) asked.now.sieve found.now.survey.header_len found.now.survey.tile found.now.from
        (K.contents sink.new) result }
    ensures touched { IfSome (S.held source.old)
        (λ g. WasSeen g (box_of asked.now.sieve) found.now.survey.header_len found.now.survey.tile found.now.from
        → LogsIn (work_ranges g asked.now.sieve found.now.from) (S.ranges source.old) (S.ranges source.new)) }
    ensures unmade { IfOverLimit result ((K.created sink.new ≡ K.created sink.old) × (K.contents sink.new ≡ K.contents sink.old)) }
    // The number of the HDU has no part in what is wanted.
    ensures first_past { TellsFirstPast meter.old.limit
        (piled meter.old.live (wanted_buffers (wants_for (Cut None asked.now.sieve) found.now.survey) window.old.workers)) result }
    ensures past { IsSome (first_past meter.old.limit (piled meter.old.live
        (wanted_buffers (wants_for (Cut None asked.now.sieve) found.now.survey) window.old.workers)))
        → (K.created sink.new ≡ K.created sink.old) × (K.contents sink.new ≡ K.contents sink.old) }
    ensures peak { meter.new.peak ≤ max meter.old.peak (meter.old.live + sum
        (wanted_buffers (wants_for (Cut None asked.now.sieve) found.now.survey) window.old.workers)) }
    ensures exact_peak { OnOk result (meter.new.peak ≡ max meter.old.peak
        (meter.old.live + sum (wanted_buffers (wants_for (Cut None asked.now.sieve) found.now.survey) window.old.workers))) }
    ensures emptied { window.new ≡ record { slots = []; workers = window.old.workers } }
    ensures late { IfRefused result (ComesLate (Cut None asked.now.sieve)) }
    ensures stays { SourceStays S.held S.attached S.ranges source.old source.new
        × StaysTold (K.contents sink.old) (K.contents sink.new) × (meter.new.live ≡ meter.old.live)
        × (meter.new.limit ≡ meter.old.limit) }
    ensures cause { Works (S.tally source.old) (S.tally source.new) (nameless (K.tally sink.old)) (nameless (K.tally sink.new))
        meter.old.limit result }
    ensures names { NamesOnce asked.now.name.now (K.tally sink.old).names (K.tally sink.new).names result }
{
    // How long the slots are that were filled, and that what was taken comes back.
    sizes_law();
    stages_law::<()>();
    let wants = Wants {
        header_len: found.survey.header_len,
        translates: true,
        tile: Some(found.survey.tile),
    };
    let mut space = Workspace::take(meter, window, &wants)?;
    let answer = write_file(asked, source, sink, window, found, &mut space);
    space.give_back(meter, window);
    answer
}

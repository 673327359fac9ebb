//! The job: look at all headers, take all buffers, and then write.
ghost use Rattle.std.specs.Prelude.{◌≡◌, ◌+◌, ◌^◌, ◌<◌, ◌≤◌, max, true, Some, [], length as len, sum, OnOk, IfSome, IsSome};
ghost use Rattle.fz_base.specs.Counts.{nameless};
ghost use Rattle.fz_base.specs.Names.{NamesOnce};
ghost use Rattle.fz_base.specs.Ranges.{LogsIn};
ghost use Rattle.fz_base.specs.Stop.{IfRefused, TellsLimit};
ghost use Rattle.fz_base.specs.Told.{StaysTold};
ghost use Rattle.fz_base.specs.Takings.{TellsFirstPast, first_past, highest, piled};
ghost use Rattle.fz_pool.specs.Window.{IsEmpty};
ghost use Rattle.fz_job.specs.Workspace.{wanted_buffers};
ghost use Rattle.fz_files.specs.Buffers.{job_bound, job_takings};
ghost use Rattle.fz_files.specs.declared.job.Job.TheVariants.{Unpack};
ghost use Rattle.fz_job.specs.Hdus.{ReadsHdus};
ghost use Rattle.fz_base.specs.Keeps.{SourceStays};
ghost use Rattle.fz_files.specs.Touched.{touched_by};
ghost use Rattle.fz_unpack.specs.Output.{HoldsRestored};
ghost use Rattle.fz_job.specs.Clauses.{Answers, ComesLate, HasJobCause, IfOverLimit, IsShutOrWhole, IsUnmade, KeepsBuffers};
ghost use Rattle.fz_job.specs.Clauses.{KeepsSource, StaysUnmade, TellsFirstFault, greatest_bound};
ghost use Rattle.fz_job.specs.Stages.{Works, later_takings, wants_for};
ghost use Rattle.fz_unpack.specs.Written.{AreShutOrWhole, FinishesSeen};

use crate::file::{Unpacking, write_file};
use fz_base::{Gate, Meter, Sink, Source, Stop, ranges_law};
use fz_block::BLOCK_LEN;
use fz_job::{
    Survey, Wants, Workspace, hdus_law, headers_law, known_law, stages_law, survey_to_unpack,
};
use fz_pool::{Crew, Window, sizes_law};
use std::thread::Threads;

/// Unpacks the file that is attached to the source into the sink, which it makes by this name: the sink then holds the
/// file that the packed file stands for.
///
/// All checks of headers come first, then all buffers are taken, and only then the sink is made; its byte 0 is
/// written last. Refused: as `survey_to_unpack` refuses the file; the lowest faulty row of the first packed image that
/// has one, as `fetch_tiles` refuses it; and, if the source gives other bytes at the second reading, an HDU that is no
/// longer the one that was looked at. HDU 0 is not read again if HDU 1 is a packed primary.
pub fn unpack<R: Threads + Sync, S: Source, K: Sink, G: Gate>(
    rt: &R,
    source: &mut S,
    length: u64,
    name: &str,
    sink: &mut K,
    meter: &mut Meter,
    window: &mut Window,
    gate: &G,
) -> Result<(), Stop>
    requires attached { S.attached source.old ≡ Some length }
    requires empty { IfSome (K.contents sink.old) (λ c. c ≡ []) }
    requires nothing_live { meter.old.live ≡ 0 }
    requires window { IsEmpty window.old }

    ensures output { OnOk result (HoldsRestored (S.held source.old) (K.contents sink.new)) }
    ensures finished { OnOk result (K.finished sink.new ≡ true) }
    ensures first_fault { TellsFirstFault Unpack (S.held source.old) result }
    // If no count of faults rose and the limit is at least the bound, only the first fault decides.
    ensures answered { Answers Unpack (S.held source.old) (S.tally source.old) (S.tally source.new) (nameless (K.tally sink.old))
        (nameless (K.tally sink.new)) meter.old.limit window.old.workers result }
    ensures cause { HasJobCause Unpack (S.held source.old) (S.tally source.old) (S.tally source.new) (nameless (K.tally sink.old))
        (nameless (K.tally sink.new)) meter.old.limit window.old.workers result }
    ensures names { NamesOnce name.now (K.tally sink.old).names (K.tally sink.new).names result }
    // What was cut short does not begin with the S of a FITS file.
    ensures first_byte { IsShutOrWhole (K.contents sink.new) (HoldsRestored (S.held source.old) (K.contents sink.new)) result }
    ensures unmade { IsUnmade Unpack (S.held source.old) meter.old.limit window.old.workers
        ((K.created sink.new ≡ K.created sink.old) × (K.contents sink.new ≡ K.contents sink.old)) result }
    ensures buffers { KeepsBuffers Unpack (S.held source.old) meter.old meter.new window.old window.new }
    // Every byte that is read, whatever the answer, is of a header that the checks come to, or, if no header is
    // rejected, of a row or a record of a packed image, or of the data of an HDU that is copied.
    ensures touched { IfSome (S.held source.old) (λ g. LogsIn (touched_by Unpack g) (S.ranges source.old) (S.ranges source.new)) }
    // After a job that is done the peak is exactly the greatest sum of its takings, for so many workers.
    ensures exact_peak { OnOk result (IfSome (S.held source.old)
        (λ g. meter.new.peak ≡ max meter.old.peak (highest (job_takings Unpack g window.old.workers)))) }
    // The first block is taken before anything is read.
    ensures unread { meter.old.limit < 2880 → S.ranges source.new ≡ S.ranges source.old }
    ensures kept { KeepsSource (S.held source.old) (S.held source.new) (S.attached source.old) (S.attached source.new)
        (S.tally source.old) (S.tally source.new) (nameless (K.tally sink.old)) (nameless (K.tally sink.new)) }
    ensures stays { StaysTold (S.ranges source.old) (S.ranges source.new)
        × StaysTold (K.contents sink.old) (K.contents sink.new) }
{
    // How the promises of the job follow from its stages.
    stages_law::<()>();
    let workers = window.workers();
    let crew = Crew { rt, gate, workers };
    let asked = Unpacking { crew, length, name };
    let mut block = meter.bytes(BLOCK_LEN as u64)?;
    let answer = with_block(&asked, source, sink, meter, window, block.as_mut_slice());
    meter.give_bytes(block);
    answer
}

// Looks at the headers, and then works.
fn with_block<R: Threads + Sync, S: Source, K: Sink, G: Gate>(
    asked: &Unpacking<'_, '_, R, G>,
    source: &mut S,
    sink: &mut K,
    meter: &mut Meter,
    window: &mut Window,
    block: &mut [u8],
) -> Result<(), Stop>
    requires attached { S.attached source.old ≡ Some asked.now.length }
    requires empty { IfSome (K.contents sink.old) (λ c. c ≡ []) }
    requires one_block { meter.old.live ≡ 2880 }
    requires window { IsEmpty window.old }
    requires block { len block.old ≡ 2880 }
    ensures output { OnOk result (HoldsRestored (S.held source.old) (K.contents sink.new)) }
    ensures finished { OnOk result (K.finished sink.new ≡ true) }
    ensures first_fault { TellsFirstFault Unpack (S.held source.old) result }
    ensures first_byte { IsShutOrWhole (K.contents sink.new) (HoldsRestored (S.held source.old) (K.contents sink.new)) result }
    ensures unmade { StaysUnmade Unpack (S.held source.old) meter.old.limit (λ g. later_takings Unpack g window.old.workers)
        ((K.created sink.new ≡ K.created sink.old) × (K.contents sink.new ≡ K.contents sink.old)) result }
    ensures first_past { IfSome (S.held source.old) (λ g. TellsFirstPast meter.old.limit (later_takings Unpack g window.old.workers) result) }
    ensures peak { IfSome (S.held source.old) (λ g. meter.new.peak ≤ max meter.old.peak (job_bound Unpack g window.old.workers)) }
    ensures exact_peak { OnOk result (IfSome (S.held source.old)
        (λ g. meter.new.peak ≡ max meter.old.peak (highest (later_takings Unpack g window.old.workers)))) }
    ensures most { TellsLimit meter.old.limit (greatest_bound Unpack window.old.workers) result }
    ensures peak_most { meter.new.peak ≤ max meter.old.peak (greatest_bound Unpack window.old.workers) }
    ensures emptied { window.new ≡ record { slots = []; workers = window.old.workers } }
    ensures touched { IfSome (S.held source.old) (λ g. LogsIn (touched_by Unpack g) (S.ranges source.old) (S.ranges source.new)) }
    ensures stays { SourceStays S.held S.attached S.ranges source.old source.new
        × StaysTold (K.contents sink.old) (K.contents sink.new) × (meter.new.live ≡ meter.old.live)
        × (meter.new.limit ≡ meter.old.limit) }
    ensures cause { Works (S.tally source.old) (S.tally source.new) (nameless (K.tally sink.old)) (nameless (K.tally sink.new))
        meter.old.limit result }
    ensures names { NamesOnce asked.now.name.now (K.tally sink.old).names (K.tally sink.new).names result }
{
    // What the survey reads and says of the file, and what follows from it for the job.
    hdus_law();
    headers_law();
    known_law();
    ranges_law();
    stages_law::<()>();
    let survey = survey_to_unpack(source, asked.length, meter, block)?;
    work(asked, source, sink, meter, window, &survey)
}

// Takes all buffers, writes the restored file, and hands the buffers back.
fn work<R: Threads + Sync, S: Source, K: Sink, G: Gate>(
    asked: &Unpacking<'_, '_, R, G>,
    source: &mut S,
    sink: &mut K,
    meter: &mut Meter,
    window: &mut Window,
    survey: &Survey,
) -> Result<(), Stop>
    requires attached { S.attached source.old ≡ Some asked.now.length }
    requires empty { IfSome (K.contents sink.old) (λ c. c ≡ []) }
    requires window { IsEmpty window.old }
    requires some { 0 < survey.now.hdus }
    requires few { survey.now.hdus ≤ 65536 }
    requires long { 2880 ≤ survey.now.header_len }
    requires primary { IfSome survey.now.packed_primary (λ start. (start < asked.now.length) × (start ≤ 2 ^ 62)) }
    ensures written { IfSome (S.held source.old) (λ g. FinishesSeen g survey.now (K.contents sink.new) result) }
    ensures finished { OnOk result (K.finished sink.new ≡ true) }
    ensures shut { AreShutOrWhole survey.now (S.held source.old) (K.contents sink.new) result }
    ensures unmade { IfOverLimit result ((K.created sink.new ≡ K.created sink.old) × (K.contents sink.new ≡ K.contents sink.old)) }
    ensures first_past { TellsFirstPast meter.old.limit
        (piled meter.old.live (wanted_buffers (wants_for Unpack survey.now) window.old.workers)) result }
    ensures past { IsSome (first_past meter.old.limit (piled meter.old.live (wanted_buffers (wants_for Unpack survey.now) window.old.workers)))
        → (K.created sink.new ≡ K.created sink.old) × (K.contents sink.new ≡ K.contents sink.old) }
    ensures peak { meter.new.peak ≤ max meter.old.peak (meter.old.live + sum (wanted_buffers (wants_for Unpack survey.now) window.old.workers)) }
    ensures exact_peak { OnOk result (meter.new.peak ≡ max meter.old.peak
        (meter.old.live + sum (wanted_buffers (wants_for Unpack survey.now) window.old.workers))) }
    ensures emptied { window.new ≡ record { slots = []; workers = window.old.workers } }
    ensures late { IfRefused result (ComesLate Unpack) }
    ensures read { IfSome (S.held source.old) (λ g. ReadsHdus Unpack g survey.now (S.ranges source.old) (S.ranges source.new)) }
    ensures stays { SourceStays S.held S.attached S.ranges source.old source.new
        × StaysTold (K.contents sink.old) (K.contents sink.new) × (meter.new.live ≡ meter.old.live)
        × (meter.new.limit ≡ meter.old.limit) }
    ensures cause { Works (S.tally source.old) (S.tally source.new) (nameless (K.tally sink.old)) (nameless (K.tally sink.new))
        meter.old.limit result }
    ensures names { NamesOnce asked.now.name.now (K.tally sink.old).names (K.tally sink.new).names result }
{
    // How long the slots are that were filled, and that what was taken comes back.
    sizes_law();
    stages_law::<()>();
    let wants = Wants {
        header_len: survey.header_len,
        translates: true,
        tile: Some(survey.tile),
    };
    let mut space = Workspace::take(meter, window, &wants)?;
    let answer = write_file(asked, source, sink, window, survey, &mut space);
    space.give_back(meter, window);
    answer
}

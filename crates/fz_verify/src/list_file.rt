//! The job `list`: look at all headers, take a buffer for the longest, and print.
ghost use Rattle.std.specs.Prelude.{◌≡◌, ◌+◌, ◌<◌, ◌≤◌, max, Some, length as len, sum, IfSome, IsSome, OnOk};
ghost use Rattle.fz_base.specs.Keeps.{SourceStays};
ghost use Rattle.fz_base.specs.Ranges.{LogsIn};
ghost use Rattle.fz_base.specs.Stop.{IfRefused, TellsLimit};
ghost use Rattle.fz_base.specs.Takings.{TellsFirstPast, first_past, highest, piled};
ghost use Rattle.fz_base.specs.Told.{StaysTold};
ghost use Rattle.fz_files.specs.Buffers.{job_bound, job_takings};
ghost use Rattle.fz_files.specs.Reads.{header_ranges};
ghost use Rattle.fz_files.specs.declared.job.Job.TheVariants.{List as ListHdus};
ghost use Rattle.fz_job.specs.Workspace.{wanted_buffers};
ghost use Rattle.fz_job.specs.Clauses.{Answers, HasJobCause, IfOverLimit, IsChanged, IsUnmade, KeepsSource, StaysUnmade, TellsFirstFault, greatest_bound};
ghost use Rattle.fz_verify.specs.Clauses.{KeepsMeter, PrintsLines};
ghost use Rattle.fz_verify.specs.Printed.{ListsSeen};
ghost use Rattle.fz_verify.specs.Reported.{Grew};
ghost use Rattle.fz_verify.specs.Reads.{ReadsHeaders};
ghost use Rattle.fz_job.specs.Stages.{Works, later_takings, wants_for};

use crate::listing::list_hdus;
use fz_base::{Meter, Source, Stop, Text, ranges_law};
use fz_block::BLOCK_LEN;
use fz_job::{Survey, headers_law, known_law, stages_law, survey_to_unpack};

/// Prints what each HDU of the file is that is attached to the source, a line for each.
///
/// All checks of headers come first. Refused: as `survey_to_unpack` refuses the file, and then nothing is printed. Of a
/// source that gives other bytes at the second reading also an HDU that is no longer the one that was looked at.
pub fn list<S: Source, T: Text>(
    source: &mut S,
    length: u64,
    text: &mut T,
    meter: &mut Meter,
) -> Result<(), Stop>
    requires attached { S.attached source.old ≡ Some length }
    requires nothing_live { meter.old.live ≡ 0 }

    ensures lines { PrintsLines ListHdus (S.held source.old) (T.contents text.old) (T.contents text.new) result }
    // Of every source: nothing that was printed is taken back.
    ensures grown { Grew (T.contents text.old) (T.contents text.new) }
    ensures first_fault { TellsFirstFault ListHdus (S.held source.old) result }
    // If no count of faults rose and the limit is at least the bound, only the first fault decides.
    ensures answered { Answers ListHdus (S.held source.old) (S.tally source.old) (S.tally source.new) (T.tally text.old)
        (T.tally text.new) meter.old.limit 1 result }
    ensures cause { HasJobCause ListHdus (S.held source.old) (S.tally source.old) (S.tally source.new) (T.tally text.old)
        (T.tally text.new) meter.old.limit 1 result }
    // Nothing is printed if a header is refused.
    ensures silent { IsUnmade ListHdus (S.held source.old) meter.old.limit 1
        ((T.contents text.new ≡ T.contents text.old) × (T.tally text.new ≡ T.tally text.old)) result }
    ensures buffers { KeepsMeter ListHdus (S.held source.old) meter.old meter.new }
    // No data are read.
    ensures touched { IfSome (S.held source.old) (λ g. LogsIn (header_ranges ListHdus g) (S.ranges source.old) (S.ranges source.new)) }
    // After a job that is done the peak is exactly the greatest sum of its takings, for so many workers.
    ensures exact_peak { OnOk result (IfSome (S.held source.old) (λ g. meter.new.peak ≡ max meter.old.peak (highest (job_takings ListHdus g 1)))) }
    // The first block is taken before anything is read.
    ensures unread { meter.old.limit < 2880 → S.ranges source.new ≡ S.ranges source.old }
    ensures kept { KeepsSource (S.held source.old) (S.held source.new) (S.attached source.old) (S.attached source.new)
        (S.tally source.old) (S.tally source.new) (T.tally text.old) (T.tally text.new) }
    ensures stays { StaysTold (S.ranges source.old) (S.ranges source.new)
        × StaysTold (T.contents text.old) (T.contents text.new) }
{
    // How the promises of the job follow from its stages.
    stages_law::<()>();
    let mut block = meter.bytes(BLOCK_LEN as u64)?;
    let answer = list_with_block(source, length, text, meter, block.as_mut_slice());
    meter.give_bytes(block);
    answer
}

// Looks at the headers, and then prints.
fn list_with_block<S: Source, T: Text>(
    source: &mut S,
    length: u64,
    text: &mut T,
    meter: &mut Meter,
    block: &mut [u8],
) -> Result<(), Stop>
    requires attached { S.attached source.old ≡ Some length }
    requires one_block { meter.old.live ≡ 2880 }
    requires block { len block.old ≡ 2880 }
    ensures lines { PrintsLines ListHdus (S.held source.old) (T.contents text.old) (T.contents text.new) result }
    ensures grown { Grew (T.contents text.old) (T.contents text.new) }
    ensures first_fault { TellsFirstFault ListHdus (S.held source.old) result }
    ensures silent { StaysUnmade ListHdus (S.held source.old) meter.old.limit (λ g. later_takings ListHdus g 1)
        ((T.contents text.new ≡ T.contents text.old) × (T.tally text.new ≡ T.tally text.old)) result }
    ensures first_past { IfSome (S.held source.old) (λ g. TellsFirstPast meter.old.limit (later_takings ListHdus g 1) result) }
    ensures peak { IfSome (S.held source.old) (λ g. meter.new.peak ≤ max meter.old.peak (job_bound ListHdus g 1)) }
    ensures exact_peak { OnOk result (IfSome (S.held source.old) (λ g. meter.new.peak ≡ max meter.old.peak (highest (later_takings ListHdus g 1)))) }
    ensures most { TellsLimit meter.old.limit (greatest_bound ListHdus 1) result }
    ensures peak_most { meter.new.peak ≤ max meter.old.peak (greatest_bound ListHdus 1) }
    ensures stays { SourceStays S.held S.attached S.ranges source.old source.new
        × StaysTold (T.contents text.old) (T.contents text.new) × (meter.new.live ≡ meter.old.live)
        × (meter.new.limit ≡ meter.old.limit) }
    ensures cause { Works (S.tally source.old) (S.tally source.new) (T.tally text.old) (T.tally text.new) meter.old.limit result }
    ensures touched { IfSome (S.held source.old) (λ g. LogsIn (header_ranges ListHdus g) (S.ranges source.old) (S.ranges source.new)) }
{
    // What the survey reads and says of the file, and what follows from it for the job.
    headers_law();
    known_law();
    ranges_law();
    stages_law::<()>();
    let survey = survey_to_unpack(source, length, meter, block)?;
    list_seen(source, length, text, meter, &survey)
}

// Takes a buffer for the longest header, prints, and hands the buffer back.
fn list_seen<S: Source, T: Text>(
    source: &mut S,
    length: u64,
    text: &mut T,
    meter: &mut Meter,
    survey: &Survey,
) -> Result<(), Stop>
    requires attached { S.attached source.old ≡ Some length }
    requires some { 0 < survey.now.hdus }
    requires few { survey.now.hdus ≤ 65536 }
    requires long { 2880 ≤ survey.now.header_len }
    ensures listed { IfSome (S.held source.old) (λ g. ListsSeen g survey.now (T.contents text.old) (T.contents text.new) result) }
    ensures grown { Grew (T.contents text.old) (T.contents text.new) }
    ensures silent { IfOverLimit result ((T.contents text.new ≡ T.contents text.old) × (T.tally text.new ≡ T.tally text.old)) }
    ensures first_past { TellsFirstPast meter.old.limit (piled meter.old.live (wanted_buffers (wants_for ListHdus survey.now) 1)) result }
    ensures past { IsSome (first_past meter.old.limit (piled meter.old.live (wanted_buffers (wants_for ListHdus survey.now) 1)))
        → (T.contents text.new ≡ T.contents text.old) × (T.tally text.new ≡ T.tally text.old) }
    ensures peak { meter.new.peak ≤ max meter.old.peak (meter.old.live + sum (wanted_buffers (wants_for ListHdus survey.now) 1)) }
    ensures exact_peak { OnOk result (meter.new.peak ≡ max meter.old.peak (meter.old.live + sum (wanted_buffers (wants_for ListHdus survey.now) 1))) }
    ensures changed { IfRefused result IsChanged }
    ensures read { IfSome (S.held source.old) (λ g. ReadsHeaders g survey.now (S.ranges source.old) (S.ranges source.new)) }
    ensures stays { SourceStays S.held S.attached S.ranges source.old source.new
        × StaysTold (T.contents text.old) (T.contents text.new) × (meter.new.live ≡ meter.old.live)
        × (meter.new.limit ≡ meter.old.limit) }
    ensures cause { Works (S.tally source.old) (S.tally source.new) (T.tally text.old) (T.tally text.new) meter.old.limit result }
{
    // How the promises of the job follow from its stages.
    stages_law::<()>();
    let mut header = meter.bytes(u64::from(survey.header_len))?;
    let answer = list_hdus(source, length, text, survey, header.as_mut_slice());
    meter.give_bytes(header);
    answer
}

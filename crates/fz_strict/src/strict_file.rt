//! The call: look at all headers, take all buffers, and then compare.
ghost use Rattle.std.specs.Prelude.{◌≡◌, ◌+◌, ◌*◌, ◌<◌, ◌≤◌, max, [], None, Some, length as len, replicate, sum, IfOk, IfSome, IsErrOf, IsSome, OnOk};
ghost use Rattle.std.specs.Prelude.{is_ok, is_some};
ghost use Rattle.fz_base.specs.Keeps.{SourceStays};
ghost use Rattle.fz_base.specs.Ranges.{LogsIn};
ghost use Rattle.fz_base.specs.Stop.{IfRefused, IsDefined, ReadsAndTakes, TellsLimit};
ghost use Rattle.fz_base.specs.Takings.{TellsFirstPast, highest, piled};
ghost use Rattle.fz_base.specs.Told.{StaysTold};
ghost use Rattle.fz_base.specs.declared.failure.Stop.TheVariants.{OverLimit};
ghost use Rattle.fz_fetch.specs.Stops.{Fetches};
ghost use Rattle.fz_files.specs.FirstFault.{IsFirstFault};
ghost use Rattle.fz_files.specs.Reads.{header_ranges};
ghost use Rattle.fz_files.specs.Touched.{touched_by};
ghost use Rattle.fz_files.specs.declared.job.Job.TheVariants.{Verify};
ghost use Rattle.fz_pool.specs.Window.{IsEmpty, slot_sizes, WindowStays};
ghost use Rattle.fz_job.specs.Surveys.{IsSurvey, surveyed};
ghost use Rattle.fz_job.specs.Workspace.{SpaceStays, wanted_buffers};
ghost use Rattle.fz_job.specs.declared.checks.JobChecks.TheVariants.{Unpack};
ghost use Rattle.fz_job.specs.Clauses.{ComesLate, KeepsBuffers, KeepsSource, TellsFirstFault};
ghost use Rattle.fz_strict.specs.Clauses.{AnswersStrict, HasStrictCause, IsLateOrEarly, IsStrictAsSaid};
ghost use Rattle.fz_strict.specs.Clauses.{look_takings, strict_buffers, strict_takings, strict_wants};
ghost use Rattle.fz_compare.specs.Reads.{ReadsKnown};
ghost use Rattle.fz_strict.specs.Rows.{ComparesFound};

use crate::hdus::{Comparing, compare_hdus};
use crate::laws::same_hdus_law;
use crate::options::find_options;
use fz_base::{Gate, Meter, Source, Stop, ranges_law};
use fz_block::BLOCK_LEN;
use fz_files::same_faults_law;
use fz_job::{
    Survey, Wants, Workspace, hdus_law, headers_law, known_law, stages_law, survey_law,
    survey_to_unpack, workspace_law,
};
use fz_pool::{Crew, Window, sizes_law};
use std::snapshot::Snapshot;
use std::thread::Threads;

/// Whether the file that is attached to the source is the packed file, by some options, of the file that it stands for.
///
/// All checks of headers come first, then all buffers are taken, and every tile is decoded, also if a difference was
/// found before. Refused: as `verify` refuses the file.
pub fn strict<R: Threads + Sync, S: Source, G: Gate>(
    rt: &R,
    source: &mut S,
    length: u64,
    meter: &mut Meter,
    window: &mut Window,
    gate: &G,
) -> Result<bool, Stop>
    requires attached { S.attached source.old ≡ Some length }
    requires nothing_live { meter.old.live ≡ 0 }
    requires window { IsEmpty window.old }
    requires one_worker { window.old.workers ≡ 1 }

    ensures right { IfOk result (λ same. IfSome (S.held source.old) (IsStrictAsSaid same)) }
    ensures first_fault { TellsFirstFault Verify (S.held source.old) result }
    // Of every source: what is refused, if the peak passed what the look may take.
    ensures late { IfRefused result (IsLateOrEarly meter.old.peak meter.new.peak) }
    // If no count of faults rose and the limit is at least the bound, only the first fault decides.
    ensures answered { AnswersStrict (S.held source.old) (S.tally source.old) (S.tally source.new) meter.old.limit result }
    ensures cause { HasStrictCause (S.held source.old) (S.tally source.old) (S.tally source.new) meter.old.limit result }
    ensures buffers { KeepsBuffers Verify (S.held source.old) meter.old meter.new window.old window.new }
    // After Ok the peak is exactly the greatest sum of the takings.
    ensures exact_peak { OnOk result (IfSome (S.held source.old) (λ g. meter.new.peak ≡ max meter.old.peak (highest (strict_takings g)))) }
    // The first block is taken before anything is read.
    ensures unread { meter.old.limit < 2880 → S.ranges source.new ≡ S.ranges source.old }
    ensures kept { KeepsSource (S.held source.old) (S.held source.new) (S.attached source.old) (S.attached source.new)
        (S.tally source.old) (S.tally source.new) (S.tally source.old) (S.tally source.new) }
    ensures touched { IfSome (S.held source.old) (λ g. LogsIn (touched_by Verify g) (S.ranges source.old) (S.ranges source.new)) }
    ensures told { StaysTold (S.ranges source.old) (S.ranges source.new) }
{
    // What the look reads and says of the file, and how the promises follow from the look and the work.
    hdus_law();
    known_law();
    ranges_law();
    same_faults_law();
    same_hdus_law();
    stages_law::<bool>();
    survey_law();
    workspace_law();
    let workers = window.workers();
    let crew = Crew { rt, gate, workers };
    let survey = look(source, length, meter)?;
    compare(crew, source, length, meter, window, &survey)
}

/// What `strict_decoded` hands out after it decoded every tile of a file, and none had a fault. Nothing else makes one, so a
/// call that is shown one of the source as it is need not decode the tiles again.
pub struct Decoded<S> {
    // The source as it was when its tiles had been decoded. It takes no memory.
    of: Snapshot<S>,
}

impl<S> Drop for Decoded<S> {
    fn drop(self) {
        let Self { of } = self;
        drop(of);
    }
}

/// Does what `strict` does; and if and only if it answers Ok, it also says that all tiles were decoded of this very source.
pub fn strict_decoded<R: Threads + Sync, S: Source, G: Gate>(
    rt: &R,
    source: &mut S,
    length: u64,
    meter: &mut Meter,
    window: &mut Window,
    gate: &G,
) -> (Result<bool, Stop>, Option<Decoded<S>>)
    requires attached { S.attached source.old ≡ Some length }
    requires nothing_live { meter.old.live ≡ 0 }
    requires window { IsEmpty window.old }
    requires one_worker { window.old.workers ≡ 1 }

    ensures of { IfSome result.1 (λ d. d.of.value ≡ source.new) }
    ensures only { is_some result.1 ≡ is_ok result.0 }
    ensures sound { IsSome result.1 → IfSome (S.held source.new) (λ g. IsFirstFault Verify g None) }
    // The rest is said of the answer as `strict` says it.
    ensures right { IfOk result.0 (λ same. IfSome (S.held source.old) (IsStrictAsSaid same)) }
    ensures first_fault { TellsFirstFault Verify (S.held source.old) result.0 }
    ensures late { IfRefused result.0 (IsLateOrEarly meter.old.peak meter.new.peak) }
    ensures answered { AnswersStrict (S.held source.old) (S.tally source.old) (S.tally source.new) meter.old.limit result.0 }
    ensures cause { HasStrictCause (S.held source.old) (S.tally source.old) (S.tally source.new) meter.old.limit result.0 }
    ensures buffers { KeepsBuffers Verify (S.held source.old) meter.old meter.new window.old window.new }
    ensures exact_peak { OnOk result.0 (IfSome (S.held source.old) (λ g. meter.new.peak ≡ max meter.old.peak (highest (strict_takings g)))) }
    ensures unread { meter.old.limit < 2880 → S.ranges source.new ≡ S.ranges source.old }
    ensures kept { KeepsSource (S.held source.old) (S.held source.new) (S.attached source.old) (S.attached source.new)
        (S.tally source.old) (S.tally source.new) (S.tally source.old) (S.tally source.new) }
    ensures touched { IfSome (S.held source.old) (λ g. LogsIn (touched_by Verify g) (S.ranges source.old) (S.ranges source.new)) }
    ensures told { StaysTold (S.ranges source.old) (S.ranges source.new) }
{
    let answer = strict(rt, source, length, meter, window, gate);
    let decoded = decoded_by(&answer, &*source);
    (answer, decoded)
}

// What is said of the source after this answer of `strict`.
fn decoded_by<S>(answer: &Result<bool, Stop>, source: &S) -> Option<Decoded<S>>
    ensures of { IfSome result (λ d. d.of.value ≡ source.now) }
    ensures only { is_some result ≡ is_ok answer.now }
{
    match answer {
        Ok(_) => Some(Decoded {
            of: Snapshot::of(source),
        }),
        Err(_) => None,
    }
}

// Looks at all headers. The block for it is handed back.
fn look<S: Source>(source: &mut S, length: u64, meter: &mut Meter) -> Result<Survey, Stop>
    requires attached { S.attached source.old ≡ Some length }
    requires nothing_live { meter.old.live ≡ 0 }
    ensures exact { IfSome (S.held source.old) (λ g. IsDefined (surveyed Unpack g) result) }
    ensures survey { IfOk result (IsSurvey Unpack length) }
    ensures first_past { IfSome (S.held source.old) (λ g. TellsFirstPast meter.old.limit (look_takings g) result) }
    ensures peak { IfSome (S.held source.old) (λ g. meter.new.peak ≤ max meter.old.peak (highest (look_takings g))) }
    ensures exact_peak { OnOk result (IfSome (S.held source.old) (λ g. meter.new.peak ≡ max meter.old.peak (highest (look_takings g)))) }
    ensures most { TellsLimit meter.old.limit (2880 + 737280) result }
    ensures peak_most { meter.new.peak ≤ max meter.old.peak (2880 + 737280) }
    ensures block { meter.old.limit < 2880 → IsErrOf result (OverLimit 0 2880 meter.old.limit) × (S.tally source.new ≡ S.tally source.old) }
    ensures unread { meter.old.limit < 2880 → S.ranges source.new ≡ S.ranges source.old }
    ensures live { meter.new.live ≡ 0 }
    ensures stays { SourceStays S.held S.attached S.ranges source.old source.new × (meter.new.limit ≡ meter.old.limit) }
    ensures read { IfSome (S.held source.old) (λ g. LogsIn (header_ranges Verify g) (S.ranges source.old) (S.ranges source.new)) }
    ensures cause { ReadsAndTakes (S.tally source.old) (S.tally source.new) meter.old.limit result }
{
    headers_law();
    let mut block = meter.bytes(BLOCK_LEN as u64)?;
    let answer = survey_to_unpack(source, length, meter, block.as_mut_slice());
    meter.give_bytes(block);
    answer
}

// Takes the buffer of restored headers, and compares.
fn compare<R: Threads + Sync, S: Source, G: Gate>(
    crew: Crew<'_, R, G>,
    source: &mut S,
    length: u64,
    meter: &mut Meter,
    window: &mut Window,
    survey: &Survey,
) -> Result<bool, Stop>
    requires attached { S.attached source.old ≡ Some length }
    requires nothing_live { meter.old.live ≡ 0 }
    requires window { IsEmpty window.old }
    requires some { 0 < survey.now.hdus }
    requires few { survey.now.hdus ≤ 65536 }
    requires long { 2880 ≤ survey.now.header_len }
    requires short { survey.now.header_len ≤ 737280 }
    ensures compared { IfSome (S.held source.old) (λ g. ComparesFound g survey.now result) }
    ensures live { meter.new.live ≡ 0 }
    ensures peak { meter.new.peak ≤ max meter.old.peak (sum (strict_buffers survey.now.header_len survey.now.tile window.old.workers)) }
    ensures exact_peak { OnOk result (meter.new.peak ≡ max meter.old.peak (sum (strict_buffers survey.now.header_len survey.now.tile window.old.workers))) }
    ensures first_past { TellsFirstPast meter.old.limit (piled 0 (strict_buffers survey.now.header_len survey.now.tile window.old.workers)) result }
    ensures emptied { window.new ≡ record { slots = []; workers = window.old.workers } }
    ensures late { IfRefused result (ComesLate Verify) }
    ensures stays { SourceStays S.held S.attached S.ranges source.old source.new × (meter.new.limit ≡ meter.old.limit) }
    ensures read { IfSome (S.held source.old) (λ g. ReadsKnown g survey.now (S.ranges source.old) (S.ranges source.new)) }
    ensures cause { ReadsAndTakes (S.tally source.old) (S.tally source.new) meter.old.limit result }
{
    let mut plain = meter.bytes(u64::from(survey.header_len) + BLOCK_LEN as u64)?;
    let answer = with_plain(
        crew,
        source,
        length,
        meter,
        window,
        survey,
        plain.as_mut_slice(),
    );
    meter.give_bytes(plain);
    answer
}

// Takes the other buffers, compares, and hands them back.
fn with_plain<R: Threads + Sync, S: Source, G: Gate>(
    crew: Crew<'_, R, G>,
    source: &mut S,
    length: u64,
    meter: &mut Meter,
    window: &mut Window,
    survey: &Survey,
    plain: &mut [u8],
) -> Result<bool, Stop>
    requires attached { S.attached source.old ≡ Some length }
    requires window { IsEmpty window.old }
    requires some { 0 < survey.now.hdus }
    requires few { survey.now.hdus ≤ 65536 }
    requires long { 2880 ≤ survey.now.header_len }
    requires short { survey.now.header_len ≤ 737280 }
    requires plain { len plain.old ≡ survey.now.header_len + 2880 }
    ensures compared { IfSome (S.held source.old) (λ g. ComparesFound g survey.now result) }
    ensures peak { meter.new.peak ≤ max meter.old.peak (meter.old.live + sum (wanted_buffers (strict_wants survey.now) window.old.workers)) }
    ensures exact_peak { OnOk result (meter.new.peak
        ≡ max meter.old.peak (meter.old.live + sum (wanted_buffers (strict_wants survey.now) window.old.workers))) }
    ensures first_past { TellsFirstPast meter.old.limit (piled meter.old.live (wanted_buffers (strict_wants survey.now) window.old.workers)) result }
    ensures emptied { window.new ≡ record { slots = []; workers = window.old.workers } }
    ensures late { IfRefused result (ComesLate Verify) }
    ensures stays { SourceStays S.held S.attached S.ranges source.old source.new × (len plain.new ≡ len plain.old)
        × (meter.new.live ≡ meter.old.live) × (meter.new.limit ≡ meter.old.limit) }
    ensures read { IfSome (S.held source.old) (λ g. ReadsKnown g survey.now (S.ranges source.old) (S.ranges source.new)) }
    ensures cause { ReadsAndTakes (S.tally source.old) (S.tally source.new) meter.old.limit result }
{
    // How long the slots are that were filled, and that what was taken comes back.
    sizes_law();
    stages_law::<bool>();
    let wants = Wants {
        header_len: survey.header_len + BLOCK_LEN as u32,
        translates: false,
        tile: Some(survey.tile),
    };
    let mut space = Workspace::take(meter, window, &wants)?;
    let answer = compare_file(crew, source, length, window, survey, plain, &mut space);
    space.give_back(meter, window);
    answer
}

// Finds the options, and compares the file with what `pack` writes by them.
fn compare_file<R: Threads + Sync, S: Source, G: Gate>(
    crew: Crew<'_, R, G>,
    source: &mut S,
    length: u64,
    window: &mut Window,
    survey: &Survey,
    plain: &mut [u8],
    space: &mut Workspace,
) -> Result<bool, Stop>
    requires attached { S.attached source.old ≡ Some length }
    requires some { 0 < survey.now.hdus }
    requires few { survey.now.hdus ≤ 65536 }
    requires long { 2880 ≤ survey.now.header_len }
    requires window { slot_sizes window.old.slots ≡ replicate (2 * window.old.workers) (2 * survey.now.tile, 8 * survey.now.tile + 64) }
    requires header { len space.old.header ≡ survey.now.header_len + 2880 }
    requires plain { len plain.old ≡ survey.now.header_len + 2880 }
    requires copy { 4096 + 2880 ≤ len space.old.copy }
    ensures compared { IfSome (S.held source.old) (λ g. ComparesFound g survey.now result) }
    ensures late { IfRefused result (ComesLate Verify) }
    ensures stays { SourceStays S.held S.attached S.ranges source.old source.new × SpaceStays space.old space.new
        × WindowStays window.old window.new × (len plain.new ≡ len plain.old) }
    ensures read { IfSome (S.held source.old) (λ g. ReadsKnown g survey.now (S.ranges source.old) (S.ranges source.new)) }
    ensures cause { Fetches (S.tally source.old) (S.tally source.new) result }
{
    ranges_law();
    let header = space.header.as_mut_slice();
    let options = find_options(source, length, survey, header)?;
    let asked = Comparing {
        crew,
        length,
        survey: *survey,
        options,
    };
    compare_hdus(&asked, source, window, plain, space)
}

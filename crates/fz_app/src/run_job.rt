//! The top call: it does all that the program does.
ghost use Rattle.std.specs.Prelude.{◌≡◌, ◌≤◌, ◌^◌, ℕ, max, Bool, List, [], Option, Some, IfOk, IfSome, OnOk};
ghost use Rattle.fz_files.specs.declared.job.Job.TheVariants.{Cut, Drill, Retile, List as ListHdus, Pack, Unpack, Verify};
ghost use Rattle.fz_head.specs.Planned.{AreOptions};
ghost use Rattle.fz_words.specs.Jobs.{job_of};
ghost use Rattle.fz_files.specs.Picks.{HasPicks};
ghost use Rattle.fz_words.specs.Lawful.{IsLawful};
ghost use Rattle.fz_words.specs.Parts.{texts_of};
ghost use Rattle.fz_words.specs.Seen.{asked_of};
ghost use Rattle.fz_base.specs.Counts.{CountsKept, Tally, nameless};
ghost use Rattle.fz_base.specs.Meter.{narrowed};
ghost use Rattle.fz_base.specs.Names.{NamesOnce};
ghost use Rattle.fz_base.specs.Source.{HoldsLength};
ghost use Rattle.fz_base.specs.Sink.{MayAppend, appended};
ghost use Rattle.fz_base.specs.Stop.{Codes, IfRefused};
ghost use Rattle.fz_base.specs.Takings.{TellsFirstPast, highest};
ghost use Rattle.fz_base.specs.Told.{StaysTold};
ghost use Rattle.fz_files.specs.Buffers.{job_bound};
ghost use Rattle.fz_job.specs.Clauses.{Answers, IfOverLimit, KeepsSource, TellsFirstFault, greatest_bound};
ghost use Rattle.fz_pool.specs.Window.{IsEmpty};
ghost use Rattle.fz_strict.specs.Clauses.{IsStrictAsSaid, strict_takings};
ghost use Rattle.fz_verify.specs.Clauses.{IsRightAsSaid};
ghost use Rattle.fz_verify.specs.Reported.{Reports};
ghost use Rattle.fz_app.specs.Answer.{IfAnswer, IsEnd, IsPromisedTo, IsRightBy, done_of};
ghost use Rattle.fz_app.specs.Asked.{given, uncompared};
ghost use Rattle.fz_app.specs.Causes.{AreCountsKept, ComparesFor, DoneHasCause, IsDifferent, IsUnmadeFor, IsUntouched, IsUsage};
ghost use Rattle.fz_app.specs.Causes.{OverLimitHasCause, ReadFaultHasCause, RefusedHasCause, WriteFaultHasCause};
ghost use Rattle.fz_app.specs.Ends.{SinkIs, ends, text_is};
ghost use Rattle.fz_app.specs.Lines.{status_line, strict_text, GotLine};
ghost use Rattle.fz_app.specs.Names.{AreNamed, JobNames};
ghost use Rattle.fz_app.specs.Outputs.{LeavesSink, LeavesSource, ReadsTouched};
ghost use Rattle.fz_app.specs.Printed.{IsReported, ReportsBy};
ghost use Rattle.fz_app.specs.Promised.{IsPromised};
ghost use Rattle.fz_app.specs.Promises.{BuffersAreBounded, GotText, HasFirstByteLast, HasFirstFault, HasOutput, HasSlice, IsComplete, IsRestored, ReadsWithin};
ghost use Rattle.fz_app.specs.Shown.{CanBegin, IsPromisedOfPrinting, WritesAsAsked, ends_of};
ghost use Rattle.fz_app.specs.declared.status.Status.TheVariants.{Usage as IsUsageStatus};

use crate::comparing::{is_ample, run_compared};
use crate::host::Host;
use crate::line::{line_of, strict_line};
use crate::status::{Status, ended, verified};
use fz_base::{Gate, Meter, Sink, Source, Stop, Text, ranges_law, takings_law};
use fz_cut::{cut, slice_law};
use fz_drill::drill;
use fz_files::{Job, buffers_law, one_file_law};
use fz_grid::Sieve;
use fz_head::PackOptions;
use fz_laws::{first_fault_law, round_trip_law};
use fz_pack::pack;
use fz_pool::Window;
use fz_retile::{retile_law, retile_within};
use fz_strict::strict;
use fz_unpack::unpack;
use fz_verify::{list, verify};
use fz_words::{Request, Usage, read_words};
use std::alloc::Global;
use std::thread::Threads;

/// Does what the words ask for, reads the source, writes the sink and prints to the text, and answers
/// how that ended. The words are those after the program's name.
///
/// `pack`, `unpack`, `cut` and `retile` write the sink, `cut` from the headers and the tiles with a pick only, and `retile`
/// if nothing is wrong with the whole file; `verify` and `list` print their lines and leave the sink as it is; `drill`
/// works on a file of its own, in memory, prints its lines, and leaves the source as it is too. The words of `patch` ask
/// for nothing here. For each status but Done and Different one line is put to the text at the end; if that fails, the
/// status stays.
pub fn run<R: Threads + Sync, S: Source, K: Sink, T: Text, G: Gate>(
    rt: &R,
    alloc: Global,
    words: &[String],
    source: &mut S,
    sink: &mut K,
    text: &mut T,
    gate: &G,
    meter: &mut Meter,
) -> Status
    requires empty { IfSome (K.contents sink.old) (λ c. c ≡ []) }
    requires unused { (meter.old.live ≡ 0) × (meter.old.peak ≡ 0) }

    ensures output { HasOutput (texts_of words.now) (S.held source.old) (K.contents sink.new) (K.finished sink.new) result }
    ensures restored { IsRestored (texts_of words.now) (S.held source.old) (K.contents sink.new) result }
    ensures first_fault { HasFirstFault (texts_of words.now) (S.held source.old) result }
    ensures slice { HasSlice (texts_of words.now) (S.held source.old) (K.contents sink.new) result }
    ensures touched { ReadsWithin (texts_of words.now) (S.held source.old) (S.ranges source.old) (S.ranges source.new) }
    ensures buffers { BuffersAreBounded (texts_of words.now) (S.held source.old) meter.old meter.new result }
    ensures first_byte { HasFirstByteLast (texts_of words.now) (S.held source.old) (K.contents sink.new) result }
    ensures text { GotText (texts_of words.now) (S.held source.old) meter.old.limit
        (text_is (T.contents text.old) (T.tally text.old)) (text_is (T.contents text.new) (T.tally text.new)) result }
    ensures complete { IsComplete (texts_of words.now) (S.held source.old) (nameless (S.tally source.old))
        (nameless (S.tally source.new)) (nameless (K.tally sink.old)) (nameless (K.tally sink.new)) (T.tally text.old)
        (T.tally text.new) meter.old.limit result }

    ensures different { IsDifferent (texts_of words.now) (S.held source.old) result }
    ensures usage { IsUsage (texts_of words.now) result }
    ensures untouched { IsUntouched (texts_of words.now) (source.new ≡ source.old) (sink.new ≡ sink.old) (meter.new ≡ meter.old)
        (text_is (T.contents text.old) (T.tally text.old)) (text_is (T.contents text.new) (T.tally text.new)) result }
    ensures done { DoneHasCause (texts_of words.now) (nameless (S.tally source.old)) (nameless (S.tally source.new))
        (nameless (K.tally sink.old)) (nameless (K.tally sink.new)) (T.tally text.old) (T.tally text.new) result }
    ensures refused { RefusedHasCause (texts_of words.now) (nameless (S.tally source.old)) (nameless (S.tally source.new))
        (nameless (K.tally sink.old)) (nameless (K.tally sink.new)) result }
    ensures read_fault { ReadFaultHasCause (texts_of words.now) (nameless (S.tally source.old)) (nameless (S.tally source.new)) result }
    ensures write_fault { WriteFaultHasCause (texts_of words.now) (nameless (K.tally sink.old)) (nameless (K.tally sink.new))
        (T.tally text.old) (T.tally text.new) result }
    ensures over_limit { OverLimitHasCause (texts_of words.now) (S.held source.old) meter.old.limit (S.ranges source.old)
        (S.ranges source.new) result }
    ensures unmade { IsUnmadeFor (texts_of words.now) (S.held source.old) meter.old.limit ((K.created sink.new ≡ K.created sink.old)
        × (K.contents sink.new ≡ K.contents sink.old)) result }

    ensures stays { StaysTold (S.ranges source.old) (S.ranges source.new)
        × StaysTold (K.contents sink.old) (K.contents sink.new) × (S.held source.new ≡ S.held source.old) }
    ensures counts { AreCountsKept (nameless (S.tally source.old)) (nameless (S.tally source.new)) (nameless (K.tally sink.old))
        (nameless (K.tally sink.new)) (T.tally text.old) (T.tally text.new) }
    ensures names { AreNamed (texts_of words.now) (S.tally source.old).names (S.tally source.new).names (K.tally sink.old).names
        (K.tally sink.new).names result }
{
    // Every file has a first fault or none, and no other.
    first_fault_law();
    // A packed file has no fault.
    round_trip_law();
    // No taking passes the bound.
    buffers_law();
    takings_law();
    let host = Host { rt, gate, alloc };
    let status = answer_to(&host, words, source, sink, text, meter);
    // This call shows that the peak is within the limit.
    let _peak = meter.peak();
    report(text, &status);
    status
}

// Does what the words ask for.
fn answer_to<R: Threads + Sync, S: Source, K: Sink, T: Text, G: Gate>(
    host: &Host<'_, R, G>,
    words: &[String],
    source: &mut S,
    sink: &mut K,
    text: &mut T,
    meter: &mut Meter,
) -> Status
    requires empty { IfSome (K.contents sink.old) (λ c. c ≡ []) }
    requires unused { (meter.old.live ≡ 0) × (meter.old.peak ≡ 0) }
    ensures promised { IsPromisedTo (job_of (texts_of words.now)) result (λ asked. IsPromised asked
        (ends_of S.held S.ranges S.tally K.created K.contents K.finished K.tally source.old sink.old
        (text_is (T.contents text.old) (T.tally text.old)) meter.old)
        (ends_of S.held S.ranges S.tally K.created K.contents K.finished K.tally source.new sink.new
        (text_is (T.contents text.new) (T.tally text.new)) meter.new)) }
    ensures untouched { result ≡ IsUsageStatus → (source.new ≡ source.old) × (sink.new ≡ sink.old) × (text.new ≡ text.old) × (meter.new ≡ meter.old) }
    ensures ended { IfSome (job_of (texts_of words.now)) (λ asked. IsEnd asked (given asked.job (S.held source.old)) result) }
    ensures left { IfSome (job_of (texts_of words.now)) (λ asked. LeavesSink asked.job (sink.new ≡ sink.old)) }
    ensures unread { IfSome (job_of (texts_of words.now)) (λ asked. LeavesSource asked.job (source.new ≡ source.old)) }
    ensures reported { IsReported (job_of (texts_of words.now)) (T.contents text.old) (T.contents text.new) result }
    ensures names { IfSome (job_of (texts_of words.now))
        (λ asked. IfAnswer result (λ answer. JobNames asked (S.tally source.old).names (S.tally source.new).names
        (K.tally sink.old).names (K.tally sink.new).names answer)) }
{
    match read_words(words) {
        Ok(request) => run_request(host, &request, source, sink, text, meter),
        Err(Usage) => Status::Usage,
    }
}

// Does what is asked for.
fn run_request<R: Threads + Sync, S: Source, K: Sink, T: Text, G: Gate>(
    host: &Host<'_, R, G>,
    request: &Request<'_>,
    source: &mut S,
    sink: &mut K,
    text: &mut T,
    meter: &mut Meter,
) -> Status
    requires lawful { IsLawful request.now }
    requires empty { IfSome (K.contents sink.old) (λ c. c ≡ []) }
    requires unused { (meter.old.live ≡ 0) × (meter.old.peak ≡ 0) }
    ensures promised { IsPromisedTo (Some (asked_of request.now)) result (λ asked. IsPromised asked
        (ends_of S.held S.ranges S.tally K.created K.contents K.finished K.tally source.old sink.old
        (text_is (T.contents text.old) (T.tally text.old)) meter.old)
        (ends_of S.held S.ranges S.tally K.created K.contents K.finished K.tally source.new sink.new
        (text_is (T.contents text.new) (T.tally text.new)) meter.new)) }
    ensures untouched { result ≡ IsUsageStatus → (source.new ≡ source.old) × (sink.new ≡ sink.old) × (text.new ≡ text.old) × (meter.new ≡ meter.old) }
    ensures ended { IfSome (Some (asked_of request.now)) (λ asked. IsEnd asked (given asked.job (S.held source.old)) result) }
    ensures left { IfSome (Some (asked_of request.now)) (λ asked. LeavesSink asked.job (sink.new ≡ sink.old)) }
    ensures unread { IfSome (Some (asked_of request.now)) (λ asked. LeavesSource asked.job (source.new ≡ source.old)) }
    ensures reported { IsReported (Some (asked_of request.now)) (T.contents text.old) (T.contents text.new) result }
    ensures names { IfSome (Some (asked_of request.now))
        (λ asked. IfAnswer result (λ answer. JobNames asked (S.tally source.old).names (S.tally source.new).names
        (K.tally sink.old).names (K.tally sink.new).names answer)) }
{
    match &request.job {
        Job::Pack(options) => ended(run_pack(host, request, options, source, sink, meter)),
        Job::Unpack => ended(run_unpack(host, request, source, sink, meter)),
        Job::Verify => verified(run_verify(host, request, source, text, meter)),
        Job::List => ended(run_list(request, source, text, meter)),
        Job::Cut { hdu, sieve } => ended(run_cut(host, request, *hdu, sieve, source, sink, meter)),
        Job::Drill { rows } => ended(run_drill(host, request, *rows, text, meter)),
        Job::Retile(options) => ended(run_retile(host, request, options, source, sink, meter)),
    }
}

// Packs the file IN into OUT.
#[tactic(auto, using(crate::proofs::Before::before_the_job))]
fn run_pack<R: Threads + Sync, S: Source, K: Sink, G: Gate>(
    host: &Host<'_, R, G>,
    request: &Request<'_>,
    options: &PackOptions,
    source: &mut S,
    sink: &mut K,
    meter: &mut Meter,
) -> Result<(), Stop>
    requires job { request.now.job ≡ Pack options.now }
    requires options { AreOptions options.now }
    requires ready { CanBegin request.now.workers (K.contents sink.old) meter.old }
    ensures { WritesAsAsked S.held S.ranges S.tally K.created K.contents K.finished K.tally
        (asked_of request.now) source.old source.new sink.old sink.new meter.old meter.new result }
{
    // What is packed comes back.
    round_trip_law();
    let (length, mut window) = begin(host.alloc, request, request.workers, source, meter)?;
    let (rt, gate, output) = (host.rt, host.gate, request.output);
    let window = &mut window;
    pack(
        rt, source, length, output, sink, meter, window, gate, options,
    )
}

// Unpacks the file IN into OUT.
#[tactic(auto, using(crate::proofs::Before::before_the_job))]
fn run_unpack<R: Threads + Sync, S: Source, K: Sink, G: Gate>(
    host: &Host<'_, R, G>,
    request: &Request<'_>,
    source: &mut S,
    sink: &mut K,
    meter: &mut Meter,
) -> Result<(), Stop>
    requires job { request.now.job ≡ Unpack }
    requires ready { CanBegin request.now.workers (K.contents sink.old) meter.old }
    ensures { WritesAsAsked S.held S.ranges S.tally K.created K.contents K.finished K.tally
        (asked_of request.now) source.old source.new sink.old sink.new meter.old meter.new result }
{
    // What was packed comes back, and a packed file stands for one file.
    round_trip_law();
    one_file_law();
    let (length, mut window) = begin(host.alloc, request, request.workers, source, meter)?;
    let (rt, gate, output) = (host.rt, host.gate, request.output);
    let window = &mut window;
    unpack(rt, source, length, output, sink, meter, window, gate)
}

// Cuts the picks of a sieve out of the file IN into OUT.
#[tactic(auto, using(crate::proofs::Before::before_the_job))]
fn run_cut<R: Threads + Sync, S: Source, K: Sink, G: Gate>(
    host: &Host<'_, R, G>,
    request: &Request<'_>,
    hdu: Option<u32>,
    sieve: &Sieve,
    source: &mut S,
    sink: &mut K,
    meter: &mut Meter,
) -> Result<(), Stop>
    requires job { request.now.job ≡ Cut hdu sieve.now }
    requires sieve { HasPicks sieve.now }
    requires ready { CanBegin request.now.workers (K.contents sink.old) meter.old }
    ensures { WritesAsAsked S.held S.ranges S.tally K.created K.contents K.finished K.tally
        (asked_of request.now) source.old source.new sink.old sink.new meter.old meter.new result }
{
    // A cutout is a slice of what the packed file stands for.
    slice_law(sieve);
    let (length, mut window) = begin(host.alloc, request, request.workers, source, meter)?;
    let (rt, gate, output) = (host.rt, host.gate, request.output);
    let window = &mut window;
    cut(
        rt, source, length, output, sink, meter, window, gate, hdu, sieve,
    )
}

// Packs anew what the file IN stands for, into OUT.
#[tactic(auto, using(crate::proofs::Before::before_the_job))]
fn run_retile<R: Threads + Sync, S: Source, K: Sink, G: Gate>(
    host: &Host<'_, R, G>,
    request: &Request<'_>,
    options: &PackOptions,
    source: &mut S,
    sink: &mut K,
    meter: &mut Meter,
) -> Result<(), Stop>
    requires job { request.now.job ≡ Retile options.now }
    requires options { AreOptions options.now }
    requires ready { CanBegin request.now.workers (K.contents sink.old) meter.old }
    ensures { WritesAsAsked S.held S.ranges S.tally K.created K.contents K.finished K.tally
        (asked_of request.now) source.old source.new sink.old sink.new meter.old meter.new result }
{
    // With one limit both meters are as one, and what is packed anew stands for the same file.
    first_fault_law();
    retile_law();
    let (length, mut window) = begin(host.alloc, request, request.workers, source, meter)?;
    let (rt, gate, output) = (host.rt, host.gate, request.output);
    let window = &mut window;
    // The buffers in which the packed file is decoded are those of a second meter, with the same limit.
    let retiled = retile_within(
        rt, host.alloc, source, length, output, sink, meter, window, gate, options,
    );
    retiled.0
}

// Verifies the file IN, with one worker, and if that is asked, compares it with what `pack` writes. Answers whether no
// sum is wrong and, if it was compared, the file is strict.
fn run_verify<R: Threads + Sync, S: Source, T: Text, G: Gate>(
    host: &Host<'_, R, G>,
    request: &Request<'_>,
    source: &mut S,
    text: &mut T,
    meter: &mut Meter,
) -> Result<bool, Stop>
    requires job { request.now.job ≡ Verify }
    requires unused { (meter.old.live ≡ 0) × (meter.old.peak ≡ 0) }
    ensures promised { (sink : SinkIs) → IfSome sink.contents (λ c. c ≡ []) → IsPromisedOfPrinting S.held S.ranges S.tally
        T.contents T.tally sink (asked_of request.now) source.old source.new text.old text.new meter.old meter.new (done_of result) }
    ensures names { (made : Option (List (List ℕ))) → JobNames (asked_of request.now) (S.tally source.old).names
        (S.tally source.new).names made made (done_of result) }
    ensures right { IfOk result (λ right. IfSome (S.held source.old) (IsRightBy request.now.strict right)) }
    ensures reported { IfOk result (ReportsBy request.now.strict (T.contents text.old) (T.contents text.new)) }
{
    // A file in which `verify` finds no fault has none.
    first_fault_law();
    ranges_law();
    // A lower limit may be too low to compare a file, and not to verify it: then the lines of `verify` come first.
    if request.strict && is_ample(meter.limit().min(request.memory)) {
        return run_compared(host, request, source, text, meter);
    }
    let (length, mut window, right) = verify_sums(host, request, source, text, meter)?;
    if !request.strict {
        return Ok(right);
    }
    let same = compare(host, source, length, text, meter, &mut window)?;
    Ok(right & same)
}

// Verifies the file IN. Answers its length, the window, which is empty again, and whether no sum is wrong.
#[tactic(auto, using(crate::proofs::Before::before_the_job))]
fn verify_sums<R: Threads + Sync, S: Source, T: Text, G: Gate>(
    host: &Host<'_, R, G>,
    request: &Request<'_>,
    source: &mut S,
    text: &mut T,
    meter: &mut Meter,
) -> Result<(u64, Window, bool), Stop>
    requires job { request.now.job ≡ Verify }
    requires unused { (meter.old.live ≡ 0) × (meter.old.peak ≡ 0) }
    ensures promised { (sink : SinkIs) → IfSome sink.contents (λ c. c ≡ []) → IsPromisedOfPrinting S.held S.ranges S.tally
        T.contents T.tally sink (uncompared (asked_of request.now)) source.old source.new text.old text.new meter.old meter.new (done_of result) }
    ensures names { (made : Option (List (List ℕ))) → JobNames (asked_of request.now) (S.tally source.old).names
        (S.tally source.new).names made made (done_of result) }
    ensures right { IfOk result (λ done. IfSome (S.held source.old) (IsRightAsSaid done.2)) }
    ensures reported { IfOk result (λ done. Reports (T.contents text.old) (T.contents text.new) done.2) }
    ensures attached { IfOk result (λ done. S.attached source.new ≡ Some done.0) }
    ensures window { IfOk result (λ done. done.1 ≡ record { slots = []; workers = 1 }) }
    ensures live { IfOk result (λ done. meter.new.live ≡ 0) }
    ensures held { S.held source.new ≡ S.held source.old }
{
    let (length, mut window) = begin(host.alloc, request, 1, source, meter)?;
    let right = verify(host.rt, source, length, text, meter, &mut window, host.gate)?;
    Ok((length, window, right))
}

// Compares the file with what `pack` writes, and prints the line that says whether it is strict.
fn compare<R: Threads + Sync, S: Source, T: Text, G: Gate>(
    host: &Host<'_, R, G>,
    source: &mut S,
    length: u64,
    text: &mut T,
    meter: &mut Meter,
    window: &mut Window,
) -> Result<bool, Stop>
    requires attached { S.attached source.old ≡ Some length }
    requires nothing_live { meter.old.live ≡ 0 }
    requires window { IsEmpty window.old }
    requires one_worker { window.old.workers ≡ 1 }
    ensures right { IfOk result (λ same. IfSome (S.held source.old) (IsStrictAsSaid same)) }
    ensures line { IfOk result (λ same. T.contents text.new ≡ appended (strict_text same) (T.contents text.old)) }
    ensures front { IfSome (S.held source.old) (λ g. (same : Bool) → IsStrictAsSaid same g
        → MayAppend (strict_text same) (T.contents text.old) (T.contents text.new)) }
    ensures over_limit { IfOverLimit result ((T.contents text.new ≡ T.contents text.old) × (T.tally text.new ≡ T.tally text.old)) }
    ensures refused { IfRefused result (λ x. (T.contents text.new ≡ T.contents text.old) × (T.tally text.new ≡ T.tally text.old)) }
    ensures first_fault { TellsFirstFault Verify (S.held source.old) result }
    ensures answered { Answers Verify (S.held source.old) (S.tally source.old) (S.tally source.new) (T.tally text.old)
        (T.tally text.new) meter.old.limit 1 result }
    ensures cause { ComparesFor (S.tally source.old) (S.tally source.new) (T.tally text.old) (T.tally text.new) meter.old.limit
        result }
    ensures first_past { IfSome (S.held source.old) (λ g. TellsFirstPast meter.old.limit (strict_takings g) result) }
    ensures live { meter.new.live ≡ 0 }
    ensures peak { IfSome (S.held source.old) (λ g. meter.new.peak ≤ max meter.old.peak (job_bound Verify g 1)) }
    ensures most { meter.new.peak ≤ max meter.old.peak (greatest_bound Verify 1) }
    ensures exact_peak { OnOk result (IfSome (S.held source.old) (λ g. meter.new.peak ≡ max meter.old.peak (highest (strict_takings g)))) }
    ensures kept { KeepsSource (S.held source.old) (S.held source.new) (S.attached source.old) (S.attached source.new)
        (S.tally source.old) (S.tally source.new) (T.tally text.old) (T.tally text.new) }
    ensures touched { ReadsTouched Verify (S.held source.old) (S.ranges source.old) (S.ranges source.new) }
    ensures stays { StaysTold (S.ranges source.old) (S.ranges source.new)
        × StaysTold (T.contents text.old) (T.contents text.new) × (meter.new.limit ≡ meter.old.limit) }
{
    let same = strict(host.rt, source, length, meter, window, host.gate)?;
    text.put(strict_line(same)).map_err(Stop::writing)?;
    Ok(same)
}

// Lists the HDUs of the file IN.
#[tactic(auto, using(crate::proofs::Before::before_the_job))]
fn run_list<S: Source, T: Text>(
    request: &Request<'_>,
    source: &mut S,
    text: &mut T,
    meter: &mut Meter,
) -> Result<(), Stop>
    requires job { request.now.job ≡ ListHdus }
    requires unused { (meter.old.live ≡ 0) × (meter.old.peak ≡ 0) }
    ensures promised { (sink : SinkIs) → IfSome sink.contents (λ c. c ≡ []) → IsPromisedOfPrinting S.held S.ranges S.tally
        T.contents T.tally sink (asked_of request.now) source.old source.new text.old text.new meter.old meter.new result }
    ensures names { (made : Option (List (List ℕ))) → JobNames (asked_of request.now) (S.tally source.old).names
        (S.tally source.new).names made made result }
{
    let length = attach(request, source, meter)?;
    list(source, length, text, meter)
}

// Drills a file of so many rows, in memory: nothing is attached.
fn run_drill<R: Threads + Sync, T: Text, G: Gate>(
    host: &Host<'_, R, G>,
    request: &Request<'_>,
    rows: u32,
    text: &mut T,
    meter: &mut Meter,
) -> Result<(), Stop>
    requires job { request.now.job ≡ Drill rows }
    requires rows { (1 ≤ rows) × (rows ≤ 16384) }
    requires unused { (meter.old.live ≡ 0) × (meter.old.peak ≡ 0) }
    ensures promised { (held : Option (List ℕ)) (ranges : Option (List (ℕ × ℕ))) (source : Tally) (sink : SinkIs)
        → IfSome sink.contents (λ c. c ≡ []) → IsPromised (asked_of request.now)
        (ends held ranges source sink (text_is (T.contents text.old) (T.tally text.old)) meter.old)
        (ends held ranges source sink (text_is (T.contents text.new) (T.tally text.new)) meter.new) result }
    ensures names { (opened made : Option (List (List ℕ))) → JobNames (asked_of request.now) opened opened made made result }
{
    let memory = request.memory;
    meter.narrow(memory);
    drill(host.rt, host.alloc, rows, text, meter, host.gate)
}

/// What comes before each job that works on tiles: IN is attached, and there is an empty window for so many workers. Answers the
/// length of IN and the window.
pub(crate) fn begin<S: Source>(
    alloc: Global,
    request: &Request<'_>,
    workers: u32,
    source: &mut S,
    meter: &mut Meter,
) -> Result<(u64, Window), Stop>
    requires workers { (1 ≤ workers) × (workers ≤ 64) }
    requires unused { (meter.old.live ≡ 0) × (meter.old.peak ≡ 0) }
    ensures attached { IfOk result (λ begun. (S.attached source.new ≡ Some begun.0) × (begun.0 ≤ 2 ^ 62) × HoldsLength (S.held source.old) begun.0) }
    ensures window { IfOk result (λ begun. begun.1 ≡ record { slots = []; workers = workers }) }
    ensures narrowed { meter.new ≡ narrowed meter.old request.now.memory }
    ensures stays { (S.held source.new ≡ S.held source.old) × (S.ranges source.new ≡ S.ranges source.old) }
    ensures names { NamesOnce request.now.input.now (S.tally source.old).names (S.tally source.new).names result }
    ensures cause { Codes (nameless (S.tally source.old)) (nameless (S.tally source.new)) result }
{
    let length = attach(request, source, meter)?;
    let window = Window::new(alloc, workers).map_err(|_| Stop::NoMemory)?;
    Ok((length, window))
}

// What comes before every job on a file: the meter is narrowed to the limit of the words, and IN is attached. Answers the length of IN.
fn attach<S: Source>(request: &Request<'_>, source: &mut S, meter: &mut Meter) -> Result<u64, Stop>
    requires unused { (meter.old.live ≡ 0) × (meter.old.peak ≡ 0) }
    ensures attached { IfOk result (λ length. (S.attached source.new ≡ Some length) × (length ≤ 2 ^ 62) × HoldsLength (S.held source.old) length) }
    ensures narrowed { meter.new ≡ narrowed meter.old request.now.memory }
    ensures stays { (S.held source.new ≡ S.held source.old) × (S.ranges source.new ≡ S.ranges source.old) }
    ensures names { NamesOnce request.now.input.now (S.tally source.old).names (S.tally source.new).names result }
    ensures cause { Codes (nameless (S.tally source.old)) (nameless (S.tally source.new)) result }
{
    meter.narrow(request.memory);
    attach_by_name(source, request.input)
}

/// Attaches a source by this name, and answers its length.
pub(crate) fn attach_by_name<S: Source>(source: &mut S, name: &str) -> Result<u64, Stop>
    ensures attached { IfOk result (λ length. (S.attached source.new ≡ Some length) × (length ≤ 2 ^ 62) × HoldsLength (S.held source.old) length) }
    ensures stays { (S.held source.new ≡ S.held source.old) × (S.ranges source.new ≡ S.ranges source.old) }
    ensures names { NamesOnce name.now (S.tally source.old).names (S.tally source.new).names result }
    ensures cause { Codes (nameless (S.tally source.old)) (nameless (S.tally source.new)) result }
{
    source.attach(name).map_err(Stop::reading)
}

/// Puts the line of the status, if it has one. If that fails, nothing else can be reported.
pub(crate) fn report<T: Text>(text: &mut T, status: &Status)
    ensures line { GotLine (status_line status.now) (T.contents text.old) (T.contents text.new) (T.tally text.old) (T.tally text.new) }
    ensures counts { CountsKept (T.tally text.old) (T.tally text.new) }
{
    let line = line_of(status);
    if !line.is_empty() {
        let _ = text.put(line.as_str().as_bytes());
    }
}

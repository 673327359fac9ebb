//! `verify --strict` that decodes each tile once: the file is compared first, and then verified.
ghost use Rattle.std.specs.Prelude.{ℕ, ◌≡◌, ◌≤◌, min, true, List, [], Option, IfErr, IfOk, IfSome, Ok, Err};
ghost use Rattle.fz_base.specs.Counts.{CountsKept, Tally};
ghost use Rattle.fz_base.specs.Sink.{MayAppend, appended};
ghost use Rattle.fz_base.specs.Stop.{IfRefused};
ghost use Rattle.fz_base.specs.Told.{StaysTold};
ghost use Rattle.fz_files.specs.declared.job.Job.TheVariants.{Verify};
ghost use Rattle.fz_job.specs.Clauses.{IfOverLimit, greatest_bound};
ghost use Rattle.fz_words.specs.Seen.{asked_of};
ghost use Rattle.fz_app.specs.Answer.{IsRightBy, done_of};
ghost use Rattle.fz_app.specs.Causes.{ComparesFor};
ghost use Rattle.fz_app.specs.Ends.{SinkIs};
ghost use Rattle.fz_app.specs.Found.{found_of};
ghost use Rattle.fz_app.specs.Lines.{strict_text};
ghost use Rattle.fz_app.specs.Names.{JobNames};
ghost use Rattle.fz_app.specs.Printed.{ReportsBy};
ghost use Rattle.fz_app.specs.Shown.{IsPromisedOfPrinting};

use crate::host::Host;
use crate::line::strict_line;
use crate::run_job::begin;
use fz_base::{Fault, Gate, Meter, Source, Stop, Text, ranges_law};
use fz_laws::first_fault_law;
use fz_pool::Crew;
use fz_strict::strict_decoded;
use fz_verify::verify_decoded;
use fz_words::Request;
use std::thread::Threads;

/// The bound of the buffers if one worker verifies or compares a file with headers of 256 blocks and tiles of 2^26 pixels: no
/// file has a greater one.
const AMPLE: u64 = 2 * 737_280 + 5_760 + 2 * (16 * (1 << 26) + 64) + 65_536;

/// Whether every file can be verified and compared under this limit.
pub(crate) fn is_ample(limit: u64) -> bool
    ensures { result ≡ true → greatest_bound Verify 1 ≤ limit }
{
    limit >= AMPLE
}

/// Compares the file IN with what `pack` writes, and then verifies it: tiles that were decoded to compare them are not
/// decoded again. Answers whether no sum is wrong and the file is strict.
///
/// If a row is rejected, `verify` decodes it again, after the lines of the HDUs before. No buffer exceeds the limit, which is ample.
pub(crate) fn run_compared<R: Threads + Sync, S: Source, T: Text, G: Gate>(
    host: &Host<'_, R, G>,
    request: &Request<'_>,
    source: &mut S,
    text: &mut T,
    meter: &mut Meter,
) -> Result<bool, Stop>
    requires job { request.now.job ≡ Verify }
    requires strict { request.now.strict ≡ true }
    requires ample { greatest_bound Verify 1 ≤ min meter.old.limit request.now.memory }
    requires unused { (meter.old.live ≡ 0) × (meter.old.peak ≡ 0) }
    ensures promised { (sink : SinkIs) → IfSome sink.contents (λ c. c ≡ []) → IsPromisedOfPrinting S.held S.ranges S.tally
        T.contents T.tally sink (asked_of request.now) source.old source.new text.old text.new meter.old meter.new (done_of result) }
    ensures names { (made : Option (List (List ℕ))) → JobNames (asked_of request.now) (S.tally source.old).names
        (S.tally source.new).names made made (done_of result) }
    ensures right { IfOk result (λ right. IfSome (S.held source.old) (IsRightBy true right)) }
    ensures reported { IfOk result (ReportsBy true (T.contents text.old) (T.contents text.new)) }
{
    first_fault_law();
    ranges_law();
    let (length, mut window) = begin(host.alloc, request, 1, source, meter)?;
    let (answer, decoded) = strict_decoded(host.rt, source, length, meter, &mut window, host.gate);
    let found = found_by(answer)?;
    let crew = Crew {
        rt: host.rt,
        gate: host.gate,
        workers: window.workers(),
    };
    let right = verify_decoded(crew, source, length, text, meter, &mut window, &decoded)?;
    let same = print_found(text, found)?;
    Ok(right & same)
}

// What the comparison found; its other stops stay stops.
fn found_by(answer: Result<bool, Stop>) -> Result<Result<bool, Fault>, Stop>
    ensures { result ≡ found_of answer }
{
    match answer {
        Ok(same) => Ok(Ok(same)),
        Err(Stop::Refused(fault)) => Ok(Err(fault)),
        Err(stop) => Err(stop),
    }
}

// Prints the line that says whether the file is strict. A file that is rejected has none: after `verify` that can only be one whose
// source gives other bytes than before.
fn print_found<T: Text>(text: &mut T, found: Result<bool, Fault>) -> Result<bool, Stop>
    ensures right { IfOk result (λ same. found ≡ Ok same) }
    ensures line { IfOk result (λ same. T.contents text.new ≡ appended (strict_text same) (T.contents text.old)) }
    ensures front { IfOk found (λ same. MayAppend (strict_text same) (T.contents text.old) (T.contents text.new)) }
    ensures silent { IfErr found (λ x. (T.contents text.new ≡ T.contents text.old) × (T.tally text.new ≡ T.tally text.old)) }
    ensures refused { IfRefused result (λ x. found ≡ Err x) }
    ensures over_limit { IfOverLimit result ((T.contents text.new ≡ T.contents text.old) × (T.tally text.new ≡ T.tally text.old)) }
    ensures cause { (source : Tally) (limit : ℕ) → ComparesFor source source (T.tally text.old) (T.tally text.new) limit result }
    ensures stays { StaysTold (T.contents text.old) (T.contents text.new)
        × CountsKept (T.tally text.old) (T.tally text.new) }
{
    let same = found.map_err(Stop::Refused)?;
    text.put(strict_line(same)).map_err(Stop::writing)?;
    Ok(same)
}

//! The top call of `patch`.
ghost use Rattle.std.specs.Prelude.{◌≡◌, ◌≢◌, ◌-◌, ◌<◌, Some, IfOk, IfSome, map, take};
ghost use Rattle.fz_base.specs.Counts.{nameless};
ghost use Rattle.fz_base.specs.Told.{StaysTold};
ghost use Rattle.fz_grid.specs.Region.{lengths_of};
ghost use Rattle.fz_head.specs.Planned.{IsTile};
ghost use Rattle.fz_patch.specs.Kept.{LeavesRest};
ghost use Rattle.fz_target.specs.Reads.{ReadsGiven};
ghost use Rattle.fz_words.specs.Lawful.{IsLawfulPatch};
ghost use Rattle.fz_words.specs.Parts.{texts_of};
ghost use Rattle.fz_words.specs.PatchJobs.{patch_job_of};
ghost use Rattle.fz_words.specs.Seen.{patch_asked_of};
ghost use Rattle.fz_app.specs.Answer.{IsPromisedTo};
ghost use Rattle.fz_app.specs.Lines.{GotLine, status_line};
ghost use Rattle.fz_app.specs.PatchPromises.{ArePatchCountsKept, ArePatchNames, HasPatchFault, IsKeptBeside, IsLeftSafe, IsPatchComplete, IsPatchUsage};
ghost use Rattle.fz_app.specs.PatchPromises.{IsPatchUnread, IsPatchedFor, IsReplacedFor, IsUnwrittenFor, OpensBoth, PatchEnds};
ghost use Rattle.fz_app.specs.PatchPromises.{PatchHasCause, PatchIsBounded, PatchNames, PatchReadsGiven, job_asked, patch_limit};
ghost use Rattle.fz_app.specs.declared.status.Status.TheVariants.{Different as IsDifferentStatus, Usage as IsUsageStatus};

use crate::run_job::{attach_by_name, report};
use crate::status::{Status, ended};
use fz_base::{Meter, Source, Stop, Store, Text, takings_law};
use fz_block::Axes;
use fz_laws::{patch_buffers_law, whole_patch_law};
use fz_patch::patch as put_in;
use fz_words::{PatchRequest, Usage, read_patch_words};
use std::alloc::Global;
use std::thread::Threads;

/// Does what the words of `patch` ask for: puts the first image of the file PATCH into a box of a packed image of the
/// file FILE, in place, and answers how that ended. The words are those after the program's name; those of any other
/// command ask for nothing here.
///
/// FILE is attached to the store, and then PATCH to the source, before anything is read of either. For each status but
/// Done one line is put to the text at the end, and nothing else; if that fails, the status stays.
pub fn run_patch<R: Threads + Sync, S: Source, D: Store, T: Text>(
    rt: &R,
    alloc: Global,
    words: &[String],
    patch: &mut S,
    store: &mut D,
    text: &mut T,
    meter: &mut Meter,
) -> Status
    requires unused { (meter.old.live ≡ 0) × (meter.old.peak ≡ 0) }

    ensures usage { IsPatchUsage (texts_of words.now) (store.new ≡ store.old) (patch.new ≡ patch.old) (meter.new ≡ meter.old) result }
    ensures patched { IsPatchedFor (texts_of words.now) (D.held store.old) (S.held patch.old) (D.held store.new)
        (D.tally store.old).amended (D.tally store.new).amended result }
    ensures replaced { IsReplacedFor (texts_of words.now) (D.held store.old) (S.held patch.old) (D.held store.new) result }
    ensures safe { IsLeftSafe (texts_of words.now) (D.held store.old) (S.held patch.old) (D.held store.new)
        (D.tally store.old).amended (D.tally store.new).amended }
    ensures unwritten { IsUnwrittenFor (texts_of words.now) (D.held store.old) (S.held patch.old) meter.old
        ((D.held store.new ≡ D.held store.old) × ((D.tally store.new).amended ≡ (D.tally store.old).amended)) result }
    ensures kept { IsKeptBeside (texts_of words.now) (D.held store.old) (S.held patch.old) (S.attached patch.new) (D.held store.new)
        (D.tally store.old).amended (D.tally store.new).amended }
    ensures unread { IsPatchUnread (texts_of words.now) (D.ranges store.old) (D.ranges store.new) (S.ranges patch.old) (S.ranges patch.new) meter.old }
    ensures given_touched { PatchReadsGiven (texts_of words.now) (D.held store.old) (S.held patch.old) (S.ranges patch.old) (S.ranges patch.new) }
    ensures first_fault { HasPatchFault (texts_of words.now) (D.held store.old) (S.held patch.old) result }
    ensures complete { IsPatchComplete (texts_of words.now) (D.held store.old) (S.held patch.old) (nameless (D.tally store.old))
        (nameless (D.tally store.new)) (nameless (S.tally patch.old)) (nameless (S.tally patch.new)) meter.old result }
    ensures cause { PatchHasCause (texts_of words.now) (D.held store.old) (S.held patch.old) (nameless (D.tally store.old))
        (nameless (D.tally store.new)) (nameless (S.tally patch.old)) (nameless (S.tally patch.new)) meter.old result }
    ensures buffers { PatchIsBounded (texts_of words.now) (D.held store.old) (S.held patch.old) meter.old meter.new }
    ensures text { GotLine (status_line result) (T.contents text.old) (T.contents text.new) (T.tally text.old) (T.tally text.new) }
    ensures names { ArePatchNames (texts_of words.now) (D.tally store.old).names (D.tally store.new).names (S.tally patch.old).names
        (S.tally patch.new).names result }
    ensures counts { ArePatchCountsKept (nameless (D.tally store.old)) (nameless (D.tally store.new)) (nameless (S.tally patch.old))
        (nameless (S.tally patch.new)) (T.tally text.old) (T.tally text.new) }
    ensures held { (S.held patch.new ≡ S.held patch.old) × StaysTold (D.held store.old) (D.held store.new) }
{
    // What all writes of a patch make of a file, and that no taking passes the bound.
    whole_patch_law();
    patch_buffers_law();
    takings_law();
    let status = answer_to(rt, alloc, words, patch, store, meter);
    // This call shows that the peak is within the limit.
    let _peak = meter.peak();
    report(text, &status);
    status
}

// Does what the words ask for.
fn answer_to<R: Threads + Sync, S: Source, D: Store>(
    rt: &R,
    alloc: Global,
    words: &[String],
    patch: &mut S,
    store: &mut D,
    meter: &mut Meter,
) -> Status
    requires unused { (meter.old.live ≡ 0) × (meter.old.peak ≡ 0) }
    ensures promised { IsPromisedTo (patch_job_of (texts_of words.now)) result (λ asked. PatchEnds asked (D.held store.old) (D.held store.new)
        (S.held patch.old) (D.tally store.old) (D.tally store.new) (S.tally patch.old) (S.tally patch.new) meter.old meter.new) }
    ensures kept { IsKeptBeside (texts_of words.now) (D.held store.old) (S.held patch.old) (S.attached patch.new) (D.held store.new)
        (D.tally store.old).amended (D.tally store.new).amended }
    ensures unread { IsPatchUnread (texts_of words.now) (D.ranges store.old) (D.ranges store.new) (S.ranges patch.old) (S.ranges patch.new) meter.old }
    ensures given_touched { PatchReadsGiven (texts_of words.now) (D.held store.old) (S.held patch.old) (S.ranges patch.old) (S.ranges patch.new) }
    ensures untouched { result ≡ IsUsageStatus → (store.new ≡ store.old) × (patch.new ≡ patch.old) × (meter.new ≡ meter.old) }
    ensures never_different { result ≢ IsDifferentStatus }
    ensures held { (S.held patch.new ≡ S.held patch.old) × StaysTold (D.held store.old) (D.held store.new) }
{
    match read_patch_words(words) {
        Ok(request) => ended(patch_asked(rt, alloc, &request, patch, store, meter)),
        Err(Usage) => Status::Usage,
    }
}

// Does what is asked for.
fn patch_asked<R: Threads + Sync, S: Source, D: Store>(
    rt: &R,
    alloc: Global,
    request: &PatchRequest<'_>,
    patch: &mut S,
    store: &mut D,
    meter: &mut Meter,
) -> Result<(), Stop>
    requires unused { (meter.old.live ≡ 0) × (meter.old.peak ≡ 0) }
    requires lawful { IsLawfulPatch request.now }
    ensures ends { PatchEnds (patch_asked_of request.now) (D.held store.old) (D.held store.new) (S.held patch.old) (D.tally store.old)
        (D.tally store.new) (S.tally patch.old) (S.tally patch.new) meter.old meter.new result }
    ensures unread { patch_limit (patch_asked_of request.now) meter.old < 2880
        → (D.ranges store.new ≡ D.ranges store.old) × (S.ranges patch.new ≡ S.ranges patch.old) }
    ensures kept { IfSome (D.held store.old) (LeavesRest (job_asked (patch_asked_of request.now)) (S.attached patch.new) (S.held patch.old)
        (D.held store.new) (D.tally store.old).amended.writes (D.tally store.new).amended.writes) }
    ensures given_touched { ReadsGiven (D.held store.old) (S.held patch.old) (job_asked (patch_asked_of request.now))
        (S.ranges patch.old) (S.ranges patch.new) }
    ensures held { (S.held patch.new ≡ S.held patch.old) × StaysTold (D.held store.old) (D.held store.new) }
{
    meter.narrow(request.memory);
    let (length, patch_length) = attach_both(request, patch, store)?;
    let corner = corner_of(&request.at);
    put_in(
        rt,
        alloc,
        store,
        length,
        patch,
        patch_length,
        meter,
        request.hdu,
        &corner[..request.at.n as usize],
    )
}

// Attaches FILE, and then PATCH. Answers their lengths.
fn attach_both<S: Source, D: Store>(
    request: &PatchRequest<'_>,
    patch: &mut S,
    store: &mut D,
) -> Result<(u64, u64), Stop>
    ensures attached { IfOk result (λ lengths. (D.attached store.new ≡ Some lengths.0) × (S.attached patch.new ≡ Some lengths.1)) }
    ensures stays { ((D.held store.new ≡ D.held store.old) × (S.held patch.new ≡ S.held patch.old))
        × ((D.ranges store.new ≡ D.ranges store.old) × (S.ranges patch.new ≡ S.ranges patch.old)) }
    ensures names { PatchNames request.now.file.now request.now.patch.now (D.tally store.old).names (D.tally store.new).names
        (S.tally patch.old).names (S.tally patch.new).names result }
    ensures cause { OpensBoth (nameless (D.tally store.old)) (nameless (D.tally store.new)) (nameless (S.tally patch.old))
        (nameless (S.tally patch.new)) result }
{
    let length = attach_by_name(store, request.file)?;
    let patch_length = attach_by_name(patch, request.patch)?;
    Ok((length, patch_length))
}

// The coordinates of a place, counted from 0.
fn corner_of(at: &Axes) -> [u32; 9]
    requires { IsTile (Some at.now) }
    ensures { take at.now.n result ≡ map (λ n. n - 1) (lengths_of at.now) }
{
    let mut corner = [0; 9];
    for i in 0..at.n as usize {
        corner[i] = at.len[i] - 1;
    }
    corner
}

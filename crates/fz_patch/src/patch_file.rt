//! The call: all checks of headers, all buffers, and then the writes.
ghost use Rattle.std.specs.Prelude.{ℕ, ◌≡◌, ◌⊎◌, ◌∷◌, [], ◌+◌, ◌<◌, ◌≤◌, ◌^◌, max, sum, false, Option, Ok, Err, Some, length as len, IfOk, IfSome, OnErr, OnOk};
ghost use Rattle.fz_base.specs.Counts.{CountsKept};
ghost use Rattle.fz_base.specs.Keeps.{SourceStays};
ghost use Rattle.fz_base.specs.Meter.{taken};
ghost use Rattle.fz_base.specs.Ranges.{LogsIn};
ghost use Rattle.fz_base.specs.Refusal.{first_refusal};
ghost use Rattle.fz_base.specs.Source.{LogsWithin};
ghost use Rattle.fz_base.specs.Stop.{IfRefused, IsRefused, ReadsAndTakes, TellsLimit};
ghost use Rattle.fz_base.specs.Store.{StoreKept};
ghost use Rattle.fz_base.specs.Takings.{TellsFirstPast, highest, piled};
ghost use Rattle.fz_base.specs.Told.{StaysTold};
ghost use Rattle.fz_base.specs.declared.fault.Fault.{Fault as FaultOf};
ghost use Rattle.fz_block.specs.Checks.{hdu_at, header_blocks_of};
ghost use Rattle.fz_block.specs.Facts.{IsHeaderOf};
ghost use Rattle.fz_block.specs.Header.{next_start_of};
ghost use Rattle.fz_block.specs.Takings.{header_taking};
ghost use Rattle.fz_files.specs.FirstFault.{picked_tiles_of};
ghost use Rattle.fz_files.specs.Restored.{header_in, pixels_of};
ghost use Rattle.fz_checks.specs.WorkBuffers.{work_buffers};
ghost use Rattle.fz_job.specs.Clauses.{IfOverLimit};
ghost use Rattle.fz_laws.specs.PatchBuffers.{given_takings, patch_takings};
ghost use Rattle.fz_laws.specs.Given.{given_header};
ghost use Rattle.fz_laws.specs.PatchChecks.{own_checks, patch_target};
ghost use Rattle.fz_patch.specs.Clauses.{AnswersPatch, HasPatchCause, IsPatchedBy, IsUnwritten, KeepsPatchBuffers, LeavesSafe, TellsPatchFault};
ghost use Rattle.fz_patch.specs.Clauses.{IsUnpassed, greatest_patch_bound, later_takings};
ghost use Rattle.fz_target.specs.Ends.{WorksInPlace};
ghost use Rattle.fz_patch.specs.Jobs.{ForJobs, IsWanted, IsReadAgain, NamesWanted};
ghost use Rattle.fz_patch.specs.Kept.{IsKept, KeepsBytes, LeavesRest};
ghost use Rattle.fz_target.specs.Reads.{ReadsGiven, found_alone, given_data, given_header_range, pixels_end};
ghost use Rattle.fz_target.specs.Steps.{ComesInWork, KeepsReach};
ghost use Rattle.fz_target.specs.Targets.{GivesWithin, IsCorner, IsFoundIn, job_at};
ghost use Rattle.fz_target.specs.Told.{IfBoth};

use crate::steps::write_patch;
use fz_base::{Meter, NoMemory, Source, Stop, Store, log_law, ranges_law, takings_law};
use fz_block::{BLOCK_LEN, Header, ReadHeader, found_hdus_law, hdu_at_law, header_at};
use fz_job::{Wants, Workspace, survey_every, survey_law, survey_to_amend, workspace_law};
use fz_laws::{one_patch_law, patch_buffers_law, safe_patch_law};
use fz_pool::{Window, sizes_law};
use fz_target::{Asked, Target, changed, find_target};
use std::alloc::Global;
use std::thread::Threads;

/// What is asked for, and what works on it.
#[derive(Drop)]
struct Patching<'r, 'c, R> {
    /// What starts threads.
    rt: &'r R,
    /// What the window is allocated with.
    alloc: Global,
    /// What is asked for.
    asked: Asked<'c>,
}

/// Puts the image of the first HDU of the file PATCH, which is attached to the source, into a packed image of the file
/// FILE, which is attached to the store, in place: into that of the HDU of this number, or of the first that is packed.
/// Its first pixel goes to the corner, whose coordinates are counted from 0.
///
/// All checks come first, and all buffers are taken before the first write. Refused: an HDU of FILE, as `header_at` refuses
/// it; the HDU of the image, as `survey_to_amend` refuses it; Unpatchable, if it is not the last HDU (at the byte after it),
/// or its table has not the form of one that can be patched (at card 0); OutOfBox, if the corner has another number of axes
/// than the image (at ZNAXIS); BadPatch, if the first HDU of PATCH is refused or does not fit (at byte 0 of HDU 0);
/// OutOfBox, if the box ends after an axis (at ZNAXISi); the lowest faulty row of the tiles with a pixel in the box; Limit,
/// if the heap with the new codes is longer than one may be (at card 5). Of a file that gives other bytes at a later reading
/// also BadCard at card 0, or a row, which may come after some of the writes.
///
/// The writes are those of `fz_laws`, in its order; each step is settled before the next one begins (`safe`).
pub fn patch<R: Threads + Sync, D: Store, S: Source>(
    rt: &R,
    alloc: Global,
    store: &mut D,
    length: u64,
    patch: &mut S,
    patch_length: u64,
    meter: &mut Meter,
    hdu: Option<u32>,
    corner: &[u32],
) -> Result<(), Stop>
    requires attached { D.attached store.old ≡ Some length }
    requires given { S.attached patch.old ≡ Some patch_length }
    requires nothing_live { meter.old.live ≡ 0 }
    requires corner { IsCorner corner.now }

    ensures patched { OnOk result (IfBoth (D.held store.old) (S.held patch.old)
        (IsPatchedBy (job_at hdu corner.now) (D.held store.new) (D.tally store.old).amended (D.tally store.new).amended)) }
    // Whatever the answer is, only writes of the patch were made, in their order; and after each of them the file is safe.
    ensures safe { IfBoth (D.held store.old) (S.held patch.old)
        (LeavesSafe (job_at hdu corner.now) (D.held store.new) (D.tally store.old).amended (D.tally store.new).amended) }
    // Nothing was written if a buffer passes the limit, whatever the answer, and nothing was read below one block.
    ensures unwritten { IsUnwritten (D.held store.old) (S.held patch.old) meter.old.limit (λ g p. patch_takings g p (job_at hdu corner.now))
        ((D.held store.new ≡ D.held store.old) × ((D.tally store.new).amended ≡ (D.tally store.old).amended)) result }
    ensures unread { meter.old.limit < 2880 → (D.ranges store.new ≡ D.ranges store.old) × (S.ranges patch.new ≡ S.ranges patch.old) }
    // Of FILE only, whatever PATCH gives: a refusal after some writes is that of a row of the image, or of its HDU.
    ensures named { IfSome (D.held store.old) (λ g. NamesWanted hdu ((D.held store.new ≡ D.held store.old)
        × ((D.tally store.new).amended ≡ (D.tally store.old).amended)) g result) }
    // Of FILE only, whatever PATCH holds or shows: only bytes that have a place in a patch are changed.
    ensures kept { IfSome (D.held store.old) (LeavesRest (job_at hdu corner.now) (S.attached patch.old) (S.held patch.old) (D.held store.new)
        (D.tally store.old).amended.writes (D.tally store.new).amended.writes) }
    // Every byte that was read of PATCH, whatever the answer.
    ensures given_touched { ReadsGiven (D.held store.old) (S.held patch.old) (job_at hdu corner.now) (S.ranges patch.old) (S.ranges patch.new) }
    ensures first_fault { TellsPatchFault (job_at hdu corner.now) (D.held store.old) (S.held patch.old) result }
    // If no count of faults rose and the limit is at least the bound, only the first fault decides.
    ensures answered { AnswersPatch (job_at hdu corner.now) (D.held store.old) (S.held patch.old) (D.tally store.old) (D.tally store.new)
        (S.tally patch.old) (S.tally patch.new) meter.old.limit result }
    ensures cause { HasPatchCause (job_at hdu corner.now) (D.held store.old) (S.held patch.old) (D.tally store.old) (D.tally store.new)
        (S.tally patch.old) (S.tally patch.new) meter.old.limit result }
    ensures buffers { KeepsPatchBuffers (job_at hdu corner.now) (D.held store.old) (S.held patch.old) meter.old meter.new }
    // After a patch that is done the peak is exactly the greatest sum of what was taken.
    ensures exact_peak { OnOk result (IfBoth (D.held store.old) (S.held patch.old)
        (λ g p. meter.new.peak ≡ max meter.old.peak (highest (patch_takings g p (job_at hdu corner.now))))) }
    ensures reach { KeepsReach (D.attached store.old) (D.attached store.new) }
    ensures counts { StoreKept (D.tally store.old) (D.tally store.new) × CountsKept (S.tally patch.old) (S.tally patch.new) }
    ensures stays { SourceStays S.held S.attached S.ranges patch.old patch.new
        × StaysTold (D.held store.old) (D.held store.new) }
{
    // No taking passes the bound.
    patch_buffers_law();
    takings_law();
    let asked = Asked {
        length,
        patch_length,
        corner,
    };
    let patching = Patching { rt, alloc, asked };
    let mut block = meter.bytes(BLOCK_LEN as u64)?;
    let answer = with_block(&patching, store, patch, meter, hdu, block.as_mut_slice());
    meter.give_bytes(block);
    answer
}

// Looks at all headers of FILE, finds the image, keeps its header, and patches it.
fn with_block<R: Threads + Sync, D: Store, S: Source>(
    patching: &Patching<'_, '_, R>,
    store: &mut D,
    patch: &mut S,
    meter: &mut Meter,
    hdu: Option<u32>,
    block: &mut [u8],
) -> Result<(), Stop>
    requires attached { D.attached store.old ≡ Some patching.now.asked.length }
    requires given { S.attached patch.old ≡ Some patching.now.asked.patch_length }
    requires one_block { meter.old.live ≡ 2880 }
    requires corner { IsCorner patching.now.asked.corner.now }
    requires block { len block.old ≡ 2880 }
    ensures patched { OnOk result (IfBoth (D.held store.old) (S.held patch.old)
        (IsPatchedBy (job_at hdu patching.now.asked.corner.now) (D.held store.new) (D.tally store.old).amended (D.tally store.new).amended)) }
    ensures safe { IfBoth (D.held store.old) (S.held patch.old)
        (LeavesSafe (job_at hdu patching.now.asked.corner.now) (D.held store.new) (D.tally store.old).amended (D.tally store.new).amended) }
    ensures unwritten { IsUnwritten (D.held store.old) (S.held patch.old) meter.old.limit (λ g p. later_takings g p (job_at hdu patching.now.asked.corner.now))
        ((D.held store.new ≡ D.held store.old) × ((D.tally store.new).amended ≡ (D.tally store.old).amended)) result }
    ensures named { IfSome (D.held store.old) (λ g. NamesWanted hdu ((D.held store.new ≡ D.held store.old)
        × ((D.tally store.new).amended ≡ (D.tally store.old).amended)) g result) }
    ensures kept { IfSome (D.held store.old) (LeavesRest (job_at hdu patching.now.asked.corner.now) (S.attached patch.old) (S.held patch.old)
        (D.held store.new) (D.tally store.old).amended.writes (D.tally store.new).amended.writes) }
    ensures given_touched { ReadsGiven (D.held store.old) (S.held patch.old) (job_at hdu patching.now.asked.corner.now)
        (S.ranges patch.old) (S.ranges patch.new) }
    ensures first_fault { TellsPatchFault (job_at hdu patching.now.asked.corner.now) (D.held store.old) (S.held patch.old) result }
    ensures first_past { IfBoth (D.held store.old) (S.held patch.old)
        (λ g p. TellsFirstPast meter.old.limit (later_takings g p (job_at hdu patching.now.asked.corner.now)) result) }
    ensures peak { IfBoth (D.held store.old) (S.held patch.old)
        (λ g p. meter.new.peak ≤ max meter.old.peak (highest (later_takings g p (job_at hdu patching.now.asked.corner.now)))) }
    ensures exact_peak { OnOk result (IfBoth (D.held store.old) (S.held patch.old)
        (λ g p. meter.new.peak ≡ max meter.old.peak (highest (later_takings g p (job_at hdu patching.now.asked.corner.now))))) }
    ensures most { TellsLimit meter.old.limit greatest_patch_bound result }
    ensures peak_most { meter.new.peak ≤ max meter.old.peak greatest_patch_bound }
    ensures risen { meter.old.peak ≤ meter.new.peak }
    ensures reach { KeepsReach (D.attached store.old) (D.attached store.new) }
    ensures stays { SourceStays S.held S.attached S.ranges patch.old patch.new
        × StaysTold (D.held store.old) (D.held store.new) × (meter.new.live ≡ meter.old.live)
        × (meter.new.limit ≡ meter.old.limit) }
    ensures cause { WorksInPlace (D.tally store.old) (D.tally store.new) (S.tally patch.old) (S.tally patch.new) meter.old.limit result }
{
    // The first look goes over all headers, and the second up to the HDU that is wanted, which is found where it begins.
    found_hdus_law();
    hdu_at_law();
    survey_law();
    takings_law();
    let length = patching.asked.length;
    survey_every(store, length, meter, block)?;
    let found = survey_to_amend(store, length, meter, block, hdu)?;
    let mut kept = read_again(store, length, &found, meter, block)?;
    let answer = with_header(
        patching,
        store,
        patch,
        meter,
        &kept.facts,
        kept.bytes.as_mut_slice(),
        block,
    );
    meter.give_bytes(kept.bytes);
    answer
}

// Reads the header of the HDU once more, into a buffer from the meter.
fn read_again<D: Source>(
    store: &mut D,
    length: u64,
    found: &Header,
    meter: &mut Meter,
    block: &mut [u8],
) -> Result<ReadHeader, Stop>
    requires attached { D.attached store.old ≡ Some length }
    requires block { len block.old ≡ 2880 }
    ensures again { IfOk result (λ r. IsReadAgain (D.held store.old) length found.now r) }
    ensures same { IfSome (D.held store.old) (λ g. hdu_at found.now.hdu found.now.start g ≡ Ok found.now
        → (¬ IsRefused result) × IfOk result (λ r. r.facts ≡ found.now)) }
    ensures taken { IfOk result (λ r. (meter.old.live + len r.bytes ≤ meter.old.limit) × (meter.new ≡ taken meter.old (len r.bytes))) }
    ensures given { OnErr result ((meter.new.live ≡ meter.old.live) × (meter.new.limit ≡ meter.old.limit) × (meter.old.peak ≤ meter.new.peak)) }
    ensures first_past { IfSome (D.held store.old)
        (λ g. TellsFirstPast meter.old.limit (header_taking meter.old.live (header_blocks_of found.now.hdu found.now.start g)) result) }
    ensures peak { IfSome (D.held store.old)
        (λ g. meter.new.peak ≤ max meter.old.peak (highest (header_taking meter.old.live (header_blocks_of found.now.hdu found.now.start g)))) }
    ensures most { TellsLimit meter.old.limit (meter.old.live + 737280) result }
    ensures peak_most { meter.new.peak ≤ max meter.old.peak (meter.old.live + 737280) }
    ensures block { len block.new ≡ 2880 }
    ensures store { SourceStays D.held D.attached D.ranges store.old store.new }
    ensures cause { ReadsAndTakes (D.tally store.old) (D.tally store.new) meter.old.limit result }
{
    // A header that begins where the file ends, or after that, is not the one that was found.
    hdu_at_law();
    if found.start >= length {
        return Err(changed(found.hdu));
    }
    match header_at(store, length, found.hdu, found.start, meter, block) {
        Err(Stop::Refused(_)) => Err(changed(found.hdu)),
        answer => answer,
    }
}

// Finds what is patched, and by what, and patches it.
fn with_header<R: Threads + Sync, D: Store, S: Source>(
    patching: &Patching<'_, '_, R>,
    store: &mut D,
    patch: &mut S,
    meter: &mut Meter,
    header: &Header,
    buf: &mut [u8],
    block: &mut [u8],
) -> Result<(), Stop>
    requires attached { D.attached store.old ≡ Some patching.now.asked.length }
    requires given { S.attached patch.old ≡ Some patching.now.asked.patch_length }
    requires corner { IsCorner patching.now.asked.corner.now }
    requires header { IsHeaderOf buf.old header.now }
    requires end { (next_start_of header.now ≤ patching.now.asked.length) × (next_start_of header.now ≤ 2 ^ 62) }
    requires read { IfSome (D.held store.old) (λ g. header_in g header.now ≡ buf.old) }
    requires block { len block.old ≡ 2880 }
    ensures patched { OnOk result (IfBoth (D.held store.old) (S.held patch.old) (λ g p. (wanted : Option ℕ) → IsWanted wanted header.now g
        → IsPatchedBy (job_at wanted patching.now.asked.corner.now) (D.held store.new)
        (D.tally store.old).amended (D.tally store.new).amended g p)) }
    ensures safe { IfBoth (D.held store.old) (S.held patch.old) (λ g p. (wanted : Option ℕ) → IsWanted wanted header.now g
        → LeavesSafe (job_at wanted patching.now.asked.corner.now) (D.held store.new)
        (D.tally store.old).amended (D.tally store.new).amended g p) }
    ensures unwritten { IsRefused result → IfBoth (D.held store.old) (S.held patch.old) (λ g p. (wanted : Option ℕ) → IsWanted wanted header.now g
        → (D.held store.new ≡ D.held store.old) × (D.tally store.new ≡ D.tally store.old)) }
    ensures unpassed { IfBoth (D.held store.old) (S.held patch.old) (λ g p. (wanted : Option ℕ) → IsWanted wanted header.now g
        → meter.old.live ≡ 2880 + len buf.old
        → IsUnpassed ((D.held store.new ≡ D.held store.old) × (D.tally store.new ≡ D.tally store.old)) meter.old.limit
        (given_takings g p (job_at wanted patching.now.asked.corner.now) header.now
        (first_refusal (own_checks g header.now (job_at wanted patching.now.asked.corner.now))))) }
    ensures over_limit { IfOverLimit result ((D.held store.new ≡ D.held store.old) × (D.tally store.new ≡ D.tally store.old)) }
    ensures kept { IfSome (D.held store.old) (λ g. (wanted : Option ℕ) → IsWanted wanted header.now g
        → LeavesRest (job_at wanted patching.now.asked.corner.now) (S.attached patch.old) (S.held patch.old) (D.held store.new)
        (D.tally store.old).amended.writes (D.tally store.new).amended.writes g) }
    ensures given_within { IfSome (S.held patch.old) (λ p. LogsIn (given_header_range p ∷ given_data (given_header p))
        (S.ranges patch.old) (S.ranges patch.new)) }
    ensures given_alone { IfSome (D.held store.old) (λ g. (wanted : Option ℕ) (x : FaultOf) → IsWanted wanted header.now g
        → found_alone g (job_at wanted patching.now.asked.corner.now) ≡ Err x → S.ranges patch.new ≡ S.ranges patch.old) }
    ensures given_refused { IfBoth (D.held store.old) (S.held patch.old) (λ g p. (wanted : Option ℕ) (x : FaultOf) → IsWanted wanted header.now g
        → patch_target g p (job_at wanted patching.now.asked.corner.now) ≡ Err x
        → LogsIn (given_header_range p ∷ []) (S.ranges patch.old) (S.ranges patch.new)) }
    ensures first_fault { IfBoth (D.held store.old) (S.held patch.old) (λ g p. (wanted : Option ℕ) → IsWanted wanted header.now g
        → TellsPatchFault (job_at wanted patching.now.asked.corner.now) (Some g) (Some p) result) }
    ensures first_past { IfBoth (D.held store.old) (S.held patch.old) (λ g p. (wanted : Option ℕ) → IsWanted wanted header.now g
        → meter.old.live ≡ 2880 + len buf.old
        → TellsFirstPast meter.old.limit (given_takings g p (job_at wanted patching.now.asked.corner.now) header.now
        (first_refusal (own_checks g header.now (job_at wanted patching.now.asked.corner.now)))) result) }
    ensures peak { IfBoth (D.held store.old) (S.held patch.old) (λ g p. (wanted : Option ℕ) → IsWanted wanted header.now g
        → meter.old.live ≡ 2880 + len buf.old
        → meter.new.peak ≤ max meter.old.peak (highest (given_takings g p (job_at wanted patching.now.asked.corner.now) header.now
        (first_refusal (own_checks g header.now (job_at wanted patching.now.asked.corner.now)))))) }
    ensures exact_peak { OnOk result (IfBoth (D.held store.old) (S.held patch.old) (λ g p. (wanted : Option ℕ) → IsWanted wanted header.now g
        → meter.old.live ≡ 2880 + len buf.old
        → meter.new.peak ≡ max meter.old.peak (highest (given_takings g p (job_at wanted patching.now.asked.corner.now) header.now
        (first_refusal (own_checks g header.now (job_at wanted patching.now.asked.corner.now))))))) }
    ensures most { meter.old.live ≤ 2880 + 737280 → TellsLimit meter.old.limit greatest_patch_bound result }
    ensures peak_most { meter.old.live ≤ 2880 + 737280 → meter.new.peak ≤ max meter.old.peak greatest_patch_bound }
    ensures late { IfRefused result (λ x. ((D.held store.new ≡ D.held store.old) × (D.tally store.new ≡ D.tally store.old)) ⊎ ComesInWork header.now.hdu x) }
    ensures risen { meter.old.peak ≤ meter.new.peak }
    ensures reach { KeepsReach (D.attached store.old) (D.attached store.new) }
    ensures stays { SourceStays S.held S.attached S.ranges patch.old patch.new
        × StaysTold (D.held store.old) (D.held store.new) × (len buf.new ≡ len buf.old)
        × (meter.new.live ≡ meter.old.live) × (meter.new.limit ≡ meter.old.limit) }
    ensures cause { WorksInPlace (D.tally store.old) (D.tally store.new) (S.tally patch.old) (S.tally patch.new) meter.old.limit result }
{
    // The HDU that is wanted passes the checks of its image; and no taking passes the bound.
    found_hdus_law();
    hdu_at_law();
    ranges_law();
    takings_law();
    workspace_law();
    let target = find_target(&patching.asked, patch, meter, header, buf, block)?;
    work(
        patching.rt,
        patching.alloc,
        store,
        patch,
        meter,
        &target,
        buf,
    )
}

// Takes all buffers of the work, does it, and hands them back.
fn work<R: Threads + Sync, D: Store, S: Source>(
    rt: &R,
    alloc: Global,
    store: &mut D,
    patch: &mut S,
    meter: &mut Meter,
    target: &Target,
    buf: &mut [u8],
) -> Result<(), Stop>
    requires found { IsFoundIn (D.attached store.old) (D.held store.old) buf.old target.now }
    requires given { GivesWithin (S.attached patch.old) target.now }
    ensures patched { OnOk result (ForJobs (D.held store.old) (S.held patch.old) target.now
        (λ job. IsPatchedBy job (D.held store.new) (D.tally store.old).amended (D.tally store.new).amended)) }
    ensures safe { ForJobs (D.held store.old) (S.held patch.old) target.now
        (λ job. LeavesSafe job (D.held store.new) (D.tally store.old).amended (D.tally store.new).amended) }
    ensures first_fault { ForJobs (D.held store.old) (S.held patch.old) target.now
        (λ job file by. TellsPatchFault job (Some file) (Some by) result) }
    ensures unwritten { IsRefused result → ForJobs (D.held store.old) (S.held patch.old) target.now
        (λ job file by. (D.held store.new ≡ D.held store.old) × (D.tally store.new ≡ D.tally store.old)) }
    ensures unpassed { IsUnpassed ((D.held store.new ≡ D.held store.old) × (D.tally store.new ≡ D.tally store.old)) meter.old.limit
        (piled meter.old.live (work_buffers 0 false (Some (pixels_of target.now.image.plan 0)) 1)) }
    ensures over_limit { IfOverLimit result ((D.held store.new ≡ D.held store.old) × (D.tally store.new ≡ D.tally store.old)) }
    ensures first_past { TellsFirstPast meter.old.limit
        (piled meter.old.live (work_buffers 0 false (Some (pixels_of target.now.image.plan 0)) 1)) result }
    ensures peak { meter.new.peak ≤ max meter.old.peak
        (meter.old.live + sum (work_buffers 0 false (Some (pixels_of target.now.image.plan 0)) 1)) }
    ensures exact_peak { OnOk result (meter.new.peak ≡ max meter.old.peak
        (meter.old.live + sum (work_buffers 0 false (Some (pixels_of target.now.image.plan 0)) 1))) }
    ensures late { IfRefused result (λ x. ((D.held store.new ≡ D.held store.old) × (D.tally store.new ≡ D.tally store.old))
        ⊎ ComesInWork target.now.header.hdu x) }
    ensures kept { IfSome (D.held store.old) (λ f. KeepsBytes
        (IsKept buf.old target.now.header target.now.image.table (picked_tiles_of target.now.image.plan target.now.sieve))
        f (D.held store.new) (D.tally store.old).amended.writes (D.tally store.new).amended.writes) }
    ensures pixels_read { LogsWithin target.now.pixels_at (pixels_end target.now) (S.ranges patch.old) (S.ranges patch.new) }
    ensures risen { meter.old.peak ≤ meter.new.peak }
    ensures reach { KeepsReach (D.attached store.old) (D.attached store.new) }
    ensures stays { SourceStays S.held S.attached S.ranges patch.old patch.new
        × StaysTold (D.held store.old) (D.held store.new) × (len buf.new ≡ len buf.old)
        × (meter.new.live ≡ meter.old.live) × (meter.new.limit ≡ meter.old.limit) }
    ensures cause { WorksInPlace (D.tally store.old) (D.tally store.new) (S.tally patch.old) (S.tally patch.new) meter.old.limit result }
{
    // How long the slots are that were filled, and that what was taken comes back.
    workspace_law();
    log_law();
    sizes_law();
    let mut window = match Window::new(alloc, 1) {
        Ok(window) => window,
        Err(NoMemory) => return Err(Stop::NoMemory),
    };
    let wants = Wants {
        header_len: 0,
        translates: false,
        tile: Some(target.grid().largest()),
    };
    let mut space = Workspace::take(meter, &mut window, &wants)?;
    let copy = space.copy.as_mut_slice();
    let answer = write_patch(rt, store, patch, target, buf, &mut window, copy);
    space.give_back(meter, &mut window);
    answer
}

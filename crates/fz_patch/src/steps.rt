//! The three passes and the writes, in their order.
ghost use Rattle.std.specs.Prelude.{◌≡◌, ◌⊎◌, ◌≤◌, Some, length as len, IfSome, OnOk};
ghost use Rattle.fz_base.specs.Keeps.{SourceStays};
ghost use Rattle.fz_base.specs.Source.{LogsWithin};
ghost use Rattle.fz_base.specs.Stop.{IfRefused, IsRefused};
ghost use Rattle.fz_base.specs.Told.{StaysTold};
ghost use Rattle.fz_files.specs.FirstFault.{picked_tiles_of};
ghost use Rattle.fz_job.specs.Images.{HaveRoom};
ghost use Rattle.fz_patch.specs.Clauses.{IsPatchedBy, LeavesSafe, TellsPatchFault};
ghost use Rattle.fz_target.specs.Ends.{Patches};
ghost use Rattle.fz_patch.specs.Jobs.{ForJobs};
ghost use Rattle.fz_patch.specs.Kept.{IsKept, KeepsBytes};
ghost use Rattle.fz_target.specs.Reads.{pixels_end};
ghost use Rattle.fz_target.specs.Steps.{ComesInWork, KeepsReach};
ghost use Rattle.fz_target.specs.Targets.{GivesWithin, IsFoundIn};
ghost use Rattle.fz_pool.specs.Window.{WindowStays};

use crate::cards::write_cards;
use crate::codes::write_codes;
use crate::column::find_forms;
use crate::places::find_places;
use crate::rows::write_rows;
use crate::sums::write_sums;
use fz_base::{Source, Stop, Store, log_law, places_law};
use fz_card::card_laws;
use fz_head::sum_cards_law;
use fz_laws::{card_in_file_law, grown_header_law, safe_patch_law, whole_patch_law};
use fz_pool::Window;
use fz_sum::{sum_law, with_card_law};
use fz_target::{Target, measure_codes};
use std::thread::Threads;

/// Measures the new codes, and then writes them, the cards, the rows and the checksums, in this order.
///
/// Refused: as `measure_codes` refuses the patch, before anything is written. Later only if a file gave other bytes than before.
pub(crate) fn write_patch<R: Threads + Sync, D: Store, S: Source>(
    rt: &R,
    store: &mut D,
    patch: &mut S,
    target: &Target,
    buf: &mut [u8],
    window: &mut Window,
    copy: &mut [u8],
) -> Result<(), Stop>
    requires found { IsFoundIn (D.attached store.old) (D.held store.old) buf.old target.now }
    requires given { GivesWithin (S.attached patch.old) target.now }
    requires window { HaveRoom target.now.image window.old }
    requires copy { 4096 ≤ len copy.old }
    ensures patched { OnOk result (ForJobs (D.held store.old) (S.held patch.old) target.now
        (λ job. IsPatchedBy job (D.held store.new) (D.tally store.old).amended (D.tally store.new).amended)) }
    ensures safe { ForJobs (D.held store.old) (S.held patch.old) target.now
        (λ job. LeavesSafe job (D.held store.new) (D.tally store.old).amended (D.tally store.new).amended) }
    ensures first_fault { ForJobs (D.held store.old) (S.held patch.old) target.now
        (λ job file by. TellsPatchFault job (Some file) (Some by) result) }
    ensures unwritten { IsRefused result → ForJobs (D.held store.old) (S.held patch.old) target.now
        (λ job file by. (D.held store.new ≡ D.held store.old) × (D.tally store.new ≡ D.tally store.old)) }
    ensures late { IfRefused result (λ x. ((D.held store.new ≡ D.held store.old) × (D.tally store.new ≡ D.tally store.old))
        ⊎ ComesInWork target.now.header.hdu x) }
    // Of FILE only, whatever PATCH gives: only bytes that have a place in a patch of the target are changed.
    ensures kept { IfSome (D.held store.old) (λ f. KeepsBytes
        (IsKept buf.old target.now.header target.now.image.table (picked_tiles_of target.now.image.plan target.now.sieve))
        f (D.held store.new) (D.tally store.old).amended.writes (D.tally store.new).amended.writes) }
    ensures pixels_read { LogsWithin target.now.pixels_at (pixels_end target.now) (S.ranges patch.old) (S.ranges patch.new) }
    ensures buf { len buf.new ≡ len buf.old }
    ensures window { WindowStays window.old window.new }
    ensures copy { len copy.new ≡ len copy.old }
    ensures reach { KeepsReach (D.attached store.old) (D.attached store.new) }
    ensures told { StaysTold (D.held store.old) (D.held store.new) }
    ensures patch { SourceStays S.held S.attached S.ranges patch.old patch.new }
    ensures cause { Patches (D.tally store.old) (D.tally store.new) (S.tally patch.old) (S.tally patch.new) result }
{
    // What the header says with other cards, that the file is safe after each write, and that it is patched after all;
    // and which bytes are kept and read.
    card_in_file_law();
    card_laws();
    grown_header_law();
    log_law();
    places_law();
    safe_patch_law();
    sum_cards_law();
    sum_law();
    whole_patch_law();
    with_card_law();
    let found = measure_codes(rt, store, patch, target, window, copy)?;
    let forms = find_forms(store, target, buf, &found, copy)?;
    let places = find_places(&target.header, buf);
    write_codes(rt, store, patch, target, &found, window, copy)?;
    write_cards(store, target, &places, &found, &forms, buf)?;
    let grown = target.grown(found.bytes);
    write_rows(rt, store, patch, &grown, &found, window, copy)?;
    write_sums(store, &grown.header, buf, copy)
}

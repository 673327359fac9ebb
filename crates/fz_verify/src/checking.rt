//! The HDUs of a file, verified one after another.
ghost use Rattle.std.specs.Prelude.{ℕ, ◌≡◌, ◌+◌, ◌*◌, ◌≤◌, ◌<◌, ◌^◌, true, Some, length as len, replicate, IfOk, IfSome};
ghost use Rattle.fz_base.specs.Ranges.{LogsIn};
ghost use Rattle.fz_base.specs.Stop.{IfRefused};
ghost use Rattle.fz_base.specs.Told.{StaysTold};
ghost use Rattle.fz_files.specs.Restored.{pixels_of};
ghost use Rattle.fz_files.specs.declared.job.Job.TheVariants.{Verify};
ghost use Rattle.fz_pool.specs.Window.{HasSlotsFor, slot_sizes, WindowStays};
ghost use Rattle.fz_job.specs.Workspace.{SpaceStays};
ghost use Rattle.fz_job.specs.Clauses.{ComesLate, IsOfSomeRow};
ghost use Rattle.fz_job.specs.Keeps.{Rewrites};
ghost use Rattle.fz_job.specs.Again.{IsAgain};
ghost use Rattle.fz_job.specs.Hdus.{ReadsHdus};
ghost use Rattle.fz_base.specs.Keeps.{SourceStays};
ghost use Rattle.fz_files.specs.Touched.{data_touched};
ghost use Rattle.fz_verify.specs.Reported.{Grew, Reports, ReportsFrom};
ghost use Rattle.fz_verify.specs.Printed.{AreRowsSound, ChecksHdu, VerifiesSeen};
ghost use Rattle.fz_verify.specs.Rows.{IsHduSound};

use crate::hdu::verify_hdu;
use crate::law::none_refused_law;
use crate::lines::{print, verify_line};
use fz_base::{Gate, Source, Stop, Text, ranges_law};
use fz_block::next_start;
use fz_job::{Begun, ReadHdu, Survey, Workspace, changed, hdus_law, read_again};
use fz_pool::{Crew, Window};
use std::thread::Threads;

/// What is verified, and by whom: who works, the length of the file, and whether all its tiles were decoded before, without a
/// fault.
#[derive(Drop)]
pub(crate) struct Verifying<'a, R, G> {
    pub(crate) crew: Crew<'a, R, G>,
    pub(crate) length: u64,
    pub(crate) decoded: bool,
}

/// Verifies each HDU and prints its line; tiles that were decoded before are not decoded again. Answers whether no sum
/// is wrong.
pub(crate) fn verify_hdus<R: Threads + Sync, S: Source, T: Text, G: Gate>(
    asked: &Verifying<'_, R, G>,
    source: &mut S,
    text: &mut T,
    window: &mut Window,
    survey: &Survey,
    space: &mut Workspace,
) -> Result<bool, Stop>
    requires attached { S.attached source.old ≡ Some asked.now.length }
    requires some { 0 < survey.now.hdus }
    requires few { survey.now.hdus ≤ 65536 }
    requires window { slot_sizes window.old.slots ≡ replicate (2 * window.old.workers) (2 * survey.now.tile, 8 * survey.now.tile + 64) }
    requires header { len space.old.header ≡ survey.now.header_len }
    requires copy { 4096 ≤ len space.old.copy }
    requires long { 2880 ≤ survey.now.header_len }
    requires sound { asked.now.decoded ≡ true → IfSome (S.held source.old) (AreRowsSound survey.now) }
    ensures verified { IfSome (S.held source.old) (λ g. VerifiesSeen g survey.now (T.contents text.old) (T.contents text.new) result) }
    ensures reported { IfOk result (Reports (T.contents text.old) (T.contents text.new)) }
    ensures grown { Grew (T.contents text.old) (T.contents text.new) }
    ensures late { IfRefused result (ComesLate Verify) }
    ensures read { IfSome (S.held source.old) (λ g. ReadsHdus Verify g survey.now (S.ranges source.old) (S.ranges source.new)) }
    ensures stays { SourceStays S.held S.attached S.ranges source.old source.new × SpaceStays space.old space.new
        × WindowStays window.old window.new × StaysTold (T.contents text.old) (T.contents text.new) }
    ensures cause { Rewrites (S.tally source.old) (S.tally source.new) (T.tally text.old) (T.tally text.new) result }
{
    none_refused_law();
    hdus_law();
    ranges_law();
    let length = asked.length;
    let mut start = 0;
    let mut after_empty = false;
    let mut right = true;
    for hdu in 0..survey.hdus {
        let buf = space.header.as_mut_slice();
        let begun = Begun {
            hdu,
            start,
            after_empty,
        };
        let again = read_again(source, length, begun, survey.tile, buf)?;
        let sound = print_verified(
            &asked.crew,
            source,
            text,
            window,
            &again,
            space,
            asked.decoded,
        )?;
        right = right & sound;
        start = next_start(&again.header);
        // An HDU ends the file exactly if it is the last.
        if (start == length) != (hdu + 1 == survey.hdus) {
            return Err(changed(hdu));
        }
        after_empty = again.is_empty_primary();
    }
    Ok(right)
}

// Verifies an HDU, whose header is in the workspace, and prints its line. Answers whether no sum is wrong.
fn print_verified<R: Threads + Sync, S: Source, T: Text, G: Gate>(
    crew: &Crew<'_, R, G>,
    source: &mut S,
    text: &mut T,
    window: &mut Window,
    again: &ReadHdu,
    space: &mut Workspace,
    decoded: bool,
) -> Result<bool, Stop>
    requires again { (n : ℕ) × (n < 2 ^ 64) × (S.attached source.old ≡ Some n) × IsAgain (S.held source.old) n space.old.header again.now }
    requires window { IfSome again.now.image (λ i. HasSlotsFor (pixels_of i.plan 0) window.old) }
    requires copy { 4096 ≤ len space.old.copy }
    requires sound { decoded ≡ true → IfSome (S.held source.old) (λ g. IsHduSound g again.now.header) }
    ensures checked { IfSome (S.held source.old) (λ g. ChecksHdu g again.now.header (T.contents text.old) (T.contents text.new) result) }
    ensures reported { IfOk result (ReportsFrom again.now.header.hdu 1 (T.contents text.old) (T.contents text.new)) }
    ensures grown { Grew (T.contents text.old) (T.contents text.new) }
    ensures row { IfRefused result IsOfSomeRow }
    ensures read { IfSome (S.held source.old) (λ g. LogsIn (data_touched Verify g again.now.header) (S.ranges source.old) (S.ranges source.new)) }
    ensures stays { SourceStays S.held S.attached S.ranges source.old source.new × SpaceStays space.old space.new
        × WindowStays window.old window.new × StaysTold (T.contents text.old) (T.contents text.new) }
    ensures cause { Rewrites (S.tally source.old) (S.tally source.new) (T.tally text.old) (T.tally text.new) result }
{
    let verdicts = verify_hdu(crew, source, window, again, space, decoded)?;
    print(
        text,
        &verify_line(again.header.hdu, &again.image, &verdicts),
    )?;
    Ok(verdicts.are_right())
}

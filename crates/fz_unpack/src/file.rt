//! The restored file, HDU by HDU.

ghost use Rattle.std.specs.Prelude.{◌≡◌, ◌+◌, ◌*◌, ◌^◌, ◌≤◌, ◌<◌, true, [], IsTrue, Some, length as len, replicate, IfSome, OnOk};
ghost use Rattle.fz_base.specs.Counts.{nameless};
ghost use Rattle.fz_base.specs.Names.{NamesOnce};
ghost use Rattle.fz_base.specs.Stop.{IfRefused};
ghost use Rattle.fz_base.specs.Told.{StaysTold};
ghost use Rattle.fz_files.specs.declared.job.Job.TheVariants.{Unpack};
ghost use Rattle.fz_pool.specs.Window.{slot_sizes, WindowStays};
ghost use Rattle.fz_job.specs.Hdus.{ReadsHdus};
ghost use Rattle.fz_base.specs.Keeps.{SinkStays, SourceStays};
ghost use Rattle.fz_unpack.specs.Behind.{RestoresSeen};
ghost use Rattle.fz_job.specs.Clauses.{ComesLate};
ghost use Rattle.fz_job.specs.Workspace.{SpaceStays};
ghost use Rattle.fz_job.specs.Keeps.{Rewrites};
ghost use Rattle.fz_unpack.specs.Written.{AreShutOrWhole, FinishesSeen};

use crate::first::first_standing;
use crate::hdu::write_hdu;
use crate::law::primary_law;
use crate::seen::{is_last_as_seen, is_primary_as_found};
use fz_base::{Gate, Sink, Source, Stop, output_law, ranges_law, seal};
use fz_block::next_start;
use fz_job::{Begun, Survey, Workspace, changed, hdus_law, read_again};
use fz_pool::{Crew, Window};
use std::thread::Threads;

/// What is unpacked, and by whom: who works, the length of the packed file, and the name of the sink.
#[derive(Drop)]
pub(crate) struct Unpacking<'a, 'n, R, G> {
    pub(crate) crew: Crew<'a, R, G>,
    pub(crate) length: u64,
    pub(crate) name: &'n str,
}

/// Makes the sink, writes the restored file, its byte 0 last, and finishes.
pub(crate) fn write_file<R: Threads + Sync, S: Source, K: Sink, G: Gate>(
    asked: &Unpacking<'_, '_, R, G>,
    source: &mut S,
    sink: &mut K,
    window: &mut Window,
    survey: &Survey,
    space: &mut Workspace,
) -> Result<(), Stop>
    requires attached { S.attached source.old ≡ Some asked.now.length }
    requires empty { IfSome (K.contents sink.old) (λ c. c ≡ []) }
    requires some { 0 < survey.now.hdus }
    requires few { survey.now.hdus ≤ 65536 }
    requires window { slot_sizes window.old.slots ≡ replicate (2 * window.old.workers) (2 * survey.now.tile, 8 * survey.now.tile + 64) }
    requires header { len space.old.header ≡ survey.now.header_len }
    requires translated { len space.old.header + 2880 ≤ len space.old.translated }
    requires copy { 4096 ≤ len space.old.copy }
    requires long { 2880 ≤ survey.now.header_len }
    requires primary { IfSome survey.now.packed_primary (λ start. (start < asked.now.length) × (start ≤ 2 ^ 62)) }
    ensures written { IfSome (S.held source.old) (λ g. FinishesSeen g survey.now (K.contents sink.new) result) }
    ensures finished { OnOk result (K.finished sink.new ≡ true) }
    ensures shut { AreShutOrWhole survey.now (S.held source.old) (K.contents sink.new) result }
    ensures late { IfRefused result (ComesLate Unpack) }
    ensures read { IfSome (S.held source.old) (λ g. ReadsHdus Unpack g survey.now (S.ranges source.old) (S.ranges source.new)) }
    ensures stays { SourceStays S.held S.attached S.ranges source.old source.new × SpaceStays space.old space.new
        × WindowStays window.old window.new × StaysTold (K.contents sink.old) (K.contents sink.new) }
    ensures cause { Rewrites (S.tally source.old) (S.tally source.new) (nameless (K.tally sink.old)) (nameless (K.tally sink.new)) result }
    ensures names { NamesOnce asked.now.name.now (K.tally sink.old).names (K.tally sink.new).names result }
{
    output_law();
    primary_law();
    sink.create(asked.name).map_err(Stop::writing)?;
    write_hdus(asked, source, sink, window, survey, space)?;
    seal(sink)
}

// Writes what the HDUs stand for, without byte 0.
//
// Refused: for a row that stands for no pixels, and if the source gives other bytes than at the first look.
fn write_hdus<R: Threads + Sync, S: Source, K: Sink, G: Gate>(
    asked: &Unpacking<'_, '_, R, G>,
    source: &mut S,
    sink: &mut K,
    window: &mut Window,
    survey: &Survey,
    space: &mut Workspace,
) -> Result<(), Stop>
    requires attached { S.attached source.old ≡ Some asked.now.length }
    requires created { IsTrue (K.created sink.old) }
    requires some { 0 < survey.now.hdus }
    requires few { survey.now.hdus ≤ 65536 }
    requires window { slot_sizes window.old.slots ≡ replicate (2 * window.old.workers) (2 * survey.now.tile, 8 * survey.now.tile + 64) }
    requires header { len space.old.header ≡ survey.now.header_len }
    requires translated { len space.old.header + 2880 ≤ len space.old.translated }
    requires copy { 4096 ≤ len space.old.copy }
    requires long { 2880 ≤ survey.now.header_len }
    requires primary { IfSome survey.now.packed_primary (λ start. (start < asked.now.length) × (start ≤ 2 ^ 62)) }
    ensures written { IfSome (S.held source.old) (λ g. RestoresSeen g survey.now (K.contents sink.old) (K.contents sink.new) result) }
    ensures stays { SourceStays S.held S.attached S.ranges source.old source.new
        × SinkStays K.created K.contents sink.old sink.new × SpaceStays space.old space.new
        × WindowStays window.old window.new }
    ensures late { IfRefused result (ComesLate Unpack) }
    ensures read { IfSome (S.held source.old) (λ g. ReadsHdus Unpack g survey.now (S.ranges source.old) (S.ranges source.new)) }
    ensures cause { Rewrites (S.tally source.old) (S.tally source.new) (K.tally sink.old) (K.tally sink.new) result }
{
    hdus_law();
    output_law();
    primary_law();
    ranges_law();
    let length = asked.length;
    let first = first_standing(survey);
    // Never so: a survey with a packed primary has two HDUs.
    if first.hdu >= survey.hdus {
        return Err(changed(first.hdu));
    }
    let mut start = first.start;
    let mut after_empty = first.after_empty;
    let mut at = 0;
    for hdu in first.hdu..survey.hdus {
        let buf = space.header.as_mut_slice();
        let begun = Begun {
            hdu,
            start,
            after_empty,
        };
        let again = read_again(source, length, begun, survey.tile, buf)?;
        if !is_primary_as_found(&first, after_empty, &again) {
            return Err(changed(hdu));
        }
        at = write_hdu(&asked.crew, source, sink, window, &again, at, space)?;
        start = next_start(&again.header);
        if !is_last_as_seen(hdu, survey.hdus, start, length) {
            return Err(changed(hdu));
        }
        after_empty = again.is_empty_primary();
    }
    Ok(())
}

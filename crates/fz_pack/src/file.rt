//! The packed file, HDU by HDU.
ghost use Rattle.std.specs.Prelude.{◌≡◌, ◌⊎◌, ◌+◌, ◌*◌, ◌≤◌, ◌<◌, true, [], IsTrue, Some, IsErrOf, length as len, replicate, IfSome, OnOk, OnErr};
ghost use Rattle.fz_base.specs.FirstByte.{IsShut, with_first_byte};
ghost use Rattle.fz_base.specs.Sink.{emptied};
ghost use Rattle.fz_head.specs.Planned.{AreOptions};
ghost use Rattle.fz_pool.specs.Window.{slot_sizes, WindowStays};
ghost use Rattle.fz_base.specs.Counts.{nameless};
ghost use Rattle.fz_base.specs.Keeps.{SinkStays, SourceStays};
ghost use Rattle.fz_base.specs.Names.{NamesOnce};
ghost use Rattle.fz_base.specs.Stop.{IfRefused};
ghost use Rattle.fz_base.specs.Told.{StaysTold};
ghost use Rattle.fz_job.specs.Clauses.{IsChanged};
ghost use Rattle.fz_pack.specs.Behind.{RewritesSeen};
ghost use Rattle.fz_pack.specs.Reads.{ReadsHdus};
ghost use Rattle.fz_pack.specs.Written.{AreShutOrWhole, FinishesSeen};
ghost use Rattle.fz_job.specs.Workspace.{SpaceStays};
ghost use Rattle.fz_job.specs.Keeps.{Rewrites};

use crate::again::read_again;
use crate::hdu::write_hdu;
use fz_base::{Gate, Sink, Source, Stop, output_law, ranges_law, seal};
use fz_block::{hdu_at_law, next_start};
use fz_head::PackOptions;
use fz_job::{Survey, Workspace, changed};
use fz_pool::{Crew, Window};
use std::thread::Threads;

/// What is packed, how, and by whom: who works, the length of the file, the name of the sink, and the options.
#[derive(Drop)]
pub(crate) struct Packing<'a, 'n, R, G> {
    pub(crate) crew: Crew<'a, R, G>,
    pub(crate) length: u64,
    pub(crate) name: &'n str,
    pub(crate) options: PackOptions,
}

/// Makes the sink, writes the packed file, its byte 0 last, and finishes.
pub(crate) fn write_file<R: Threads + Sync, S: Source, K: Sink, G: Gate>(
    asked: &Packing<'_, '_, R, G>,
    source: &mut S,
    sink: &mut K,
    window: &mut Window,
    survey: &Survey,
    space: &mut Workspace,
    block: &mut [u8],
) -> Result<(), Stop>
    requires attached { S.attached source.old ≡ Some asked.now.length }
    requires empty { IfSome (K.contents sink.old) (λ c. c ≡ []) }
    requires options { AreOptions asked.now.options }
    requires some { 0 < survey.now.hdus }
    requires few { survey.now.hdus ≤ 65535 }
    requires window { slot_sizes window.old.slots ≡ replicate (2 * window.old.workers) (2 * survey.now.tile, 8 * survey.now.tile + 64) }
    requires header { len space.old.header ≡ survey.now.header_len }
    requires translated { len space.old.header + 2880 ≤ len space.old.translated }
    requires copy { 4096 ≤ len space.old.copy }
    requires block { len block.old ≡ 2880 }
    requires long { 2880 ≤ survey.now.header_len }
    ensures written { IfSome (S.held source.old) (λ g. FinishesSeen asked.now.options g survey.now (K.contents sink.new) result) }
    ensures finished { OnOk result (K.finished sink.new ≡ true) }
    ensures shut { AreShutOrWhole asked.now.options survey.now (S.held source.old) (K.contents sink.new) result }
    ensures block { len block.new ≡ 2880 }
    ensures changed { IfRefused result IsChanged }
    ensures read { IfSome (S.held source.old) (λ g. ReadsHdus asked.now.options g survey.now (S.ranges source.old) (S.ranges source.new)) }
    ensures stays { SourceStays S.held S.attached S.ranges source.old source.new × SpaceStays space.old space.new
        × WindowStays window.old window.new × StaysTold (K.contents sink.old) (K.contents sink.new) }
    ensures cause { Rewrites (S.tally source.old) (S.tally source.new) (nameless (K.tally sink.old)) (nameless (K.tally sink.new)) result }
    ensures names { NamesOnce asked.now.name.now (K.tally sink.old).names (K.tally sink.new).names result }
{
    output_law();
    sink.create(asked.name).map_err(Stop::writing)?;
    write_hdus(asked, source, sink, window, survey, space, block)?;
    seal(sink)
}

// Writes the HDUs of the packed file, without byte 0.
fn write_hdus<R: Threads + Sync, S: Source, K: Sink, G: Gate>(
    asked: &Packing<'_, '_, R, G>,
    source: &mut S,
    sink: &mut K,
    window: &mut Window,
    survey: &Survey,
    space: &mut Workspace,
    block: &mut [u8],
) -> Result<(), Stop>
    requires attached { S.attached source.old ≡ Some asked.now.length }
    requires created { IsTrue (K.created sink.old) }
    requires options { AreOptions asked.now.options }
    requires few { survey.now.hdus ≤ 65535 }
    requires window { slot_sizes window.old.slots ≡ replicate (2 * window.old.workers) (2 * survey.now.tile, 8 * survey.now.tile + 64) }
    requires header { len space.old.header ≡ survey.now.header_len }
    requires translated { len space.old.header + 2880 ≤ len space.old.translated }
    requires copy { 4096 ≤ len space.old.copy }
    requires block { len block.old ≡ 2880 }
    requires long { 2880 ≤ survey.now.header_len }
    ensures written { IfSome (S.held source.old) (λ g. RewritesSeen asked.now.options g survey.now.header_len survey.now.tile
        survey.now.hdus (K.contents sink.old) (K.contents sink.new) result) }
    ensures block { len block.new ≡ 2880 }
    ensures stays { SourceStays S.held S.attached S.ranges source.old source.new
        × SinkStays K.created K.contents sink.old sink.new × SpaceStays space.old space.new
        × WindowStays window.old window.new }
    ensures changed { IfRefused result IsChanged }
    ensures read { IfSome (S.held source.old) (λ g. ReadsHdus asked.now.options g survey.now (S.ranges source.old) (S.ranges source.new)) }
    ensures cause { Rewrites (S.tally source.old) (S.tally source.new) (K.tally sink.old) (K.tally sink.new) result }
{
    hdu_at_law();
    output_law();
    ranges_law();
    let length = asked.length;
    let mut start = 0;
    let mut at = 0;
    for hdu in 0..survey.hdus {
        let buf = space.header.as_mut_slice();
        let again = read_again(asked, source, hdu, start, survey.tile, buf)?;
        at = write_hdu(asked, source, sink, window, &again, at, space, block)?;
        start = next_start(&again.header);
        // An HDU ends the file exactly if it is the last.
        if (start == length) != (hdu + 1 == survey.hdus) {
            return Err(changed(hdu));
        }
    }
    Ok(())
}

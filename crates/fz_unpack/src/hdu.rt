//! What one HDU stands for.

ghost use Rattle.std.specs.Prelude.{ℕ, ◌≡◌, ◌+◌, ◌^◌, ◌≤◌, ◌<◌, IsTrue, Some, length as len, IfOk, IfSome};
ghost use Rattle.fz_base.specs.Ranges.{LogsIn};
ghost use Rattle.fz_base.specs.Stop.{IfRefused};
ghost use Rattle.fz_files.specs.Restored.{pixels_of};
ghost use Rattle.fz_files.specs.declared.job.Job.TheVariants.{Unpack};
ghost use Rattle.fz_pool.specs.Window.{HasSlotsFor, WindowStays};
ghost use Rattle.fz_job.specs.Again.{IsAgain};
ghost use Rattle.fz_base.specs.Keeps.{SinkStays, SourceStays};
ghost use Rattle.fz_files.specs.Touched.{data_touched};
ghost use Rattle.fz_unpack.specs.Behind.{EndsNear, HoldsHdu, IsHduFault};
ghost use Rattle.fz_job.specs.Clauses.{IsOfSomeRow};
ghost use Rattle.fz_job.specs.Workspace.{SpaceStays};
ghost use Rattle.fz_job.specs.Keeps.{Rewrites};

use crate::image::write_image;
use fz_base::{Gate, Sink, Source, Stop};
use fz_block::BLOCK_LEN;
use fz_job::{ReadHdu, Workspace, copy_hdu, hdus_law};
use fz_pool::{Crew, Window};
use std::thread::Threads;

/// Writes what an HDU stands for, whose header is in the workspace, from this byte of the sink on, but not byte 0 of
/// the file, and answers the byte after it.
pub(crate) fn write_hdu<R: Threads + Sync, S: Source, K: Sink, G: Gate>(
    crew: &Crew<'_, R, G>,
    source: &mut S,
    sink: &mut K,
    window: &mut Window,
    again: &ReadHdu,
    at: u64,
    space: &mut Workspace,
) -> Result<u64, Stop>
    requires again { (n : ℕ) × (n < 2 ^ 64) × (S.attached source.old ≡ Some n) × IsAgain (S.held source.old) n space.old.header again.now }
    requires near { at + 2 ^ 46 ≤ 2 ^ 63 }
    requires created { IsTrue (K.created sink.old) }
    requires window { IfSome again.now.image (λ i. HasSlotsFor (pixels_of i.plan 0) window.old) }
    requires translated { len space.old.header + 2880 ≤ len space.old.translated }
    requires copy { 4096 ≤ len space.old.copy }
    ensures written { IfOk result (λ end. IfSome (S.held source.old)
        (λ g. HoldsHdu again.now.header g at end (K.contents sink.old) (K.contents sink.new))) }
    ensures fault { IfRefused result (λ x. IfSome (S.held source.old) (λ g. IsHduFault g again.now.header x)) }
    ensures end { IfOk result (EndsNear again.now.header at) }
    ensures stays { SourceStays S.held S.attached S.ranges source.old source.new
        × SinkStays K.created K.contents sink.old sink.new × SpaceStays space.old space.new
        × WindowStays window.old window.new }
    ensures row { IfRefused result IsOfSomeRow }
    ensures read { IfSome (S.held source.old) (λ g. LogsIn (data_touched Unpack g again.now.header) (S.ranges source.old) (S.ranges source.new)) }
    ensures cause { Rewrites (S.tally source.old) (S.tally source.new) (K.tally sink.old) (K.tally sink.new) result }
{
    hdus_law();
    match &again.image {
        Some(image) => write_image(crew, source, sink, window, &again.header, image, at, space),
        None => {
            let buf = &space.header.as_slice()[..BLOCK_LEN * again.header.blocks as usize];
            copy_hdu(
                source,
                &again.header,
                buf,
                sink,
                at,
                space.copy.as_mut_slice(),
            )
        }
    }
}

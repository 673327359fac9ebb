//! The job: look at the packed file, and pack what it stands for.
ghost use Rattle.std.specs.Prelude.{◌≡◌, ◌<◌, max, true, Some, [], IfSome, OnOk};
ghost use Rattle.fz_base.specs.Counts.{nameless};
ghost use Rattle.fz_base.specs.Names.{NamesOnce};
ghost use Rattle.fz_base.specs.Ranges.{LogsIn};
ghost use Rattle.fz_base.specs.Told.{StaysTold};
ghost use Rattle.fz_head.specs.Planned.{AreOptions};
ghost use Rattle.fz_pool.specs.Window.{IsEmpty};
ghost use Rattle.fz_base.specs.Takings.{highest};
ghost use Rattle.fz_files.specs.Buffers.{file_takings, own_takings};
ghost use Rattle.fz_files.specs.Touched.{touched_by};
ghost use Rattle.fz_files.specs.declared.job.Job.TheVariants.{Retile, Unpack};
ghost use Rattle.fz_job.specs.Clauses.{IsShutOrWhole, KeepsSource, TellsFirstFault};
ghost use Rattle.fz_retile.specs.Retiles.{AnswersBoth, HasRetileCause, HoldsRetiled, KeepsPacking, KeepsView, StaysUnmadeBoth, failed_of, late_of, settled_of};

use crate::pinning::{Ended, Packing, in_view};
use crate::view::PlainView;
use crate::watched::Lent;
use fz_base::{Failed, Fault, Gate, Meter, Sink, Source, Stop, takings_law};
use fz_files::buffers_law;
use fz_head::PackOptions;
use fz_laws::{first_fault_law, restored_law};
use fz_look::look;
use fz_pool::Window;
use std::marker::Brand;
use std::snapshot::Snapshot;
use std::thread::Threads;

/// Packs anew what the file that is attached to the source stands for, into the sink, which it makes by this name.
///
/// All checks of `unpack` come first, with all rows, and then those of `pack` of the file that it stands for; only then the
/// sink is made, and its byte 0 is written last. The buffers of the first part, and those in which tiles are decoded while
/// they are packed, are taken from `view`, those of `pack` from `meter`.
///
/// Refused: as `look` refuses the file; as `pack` refuses the file that it stands for, with HDU, card and byte of that file.
/// Of a source that gives other bytes at a later reading also an HDU or a row that is no longer the one that was looked at.
pub fn retile<R: Threads + Sync, S: Source, K: Sink, G: Gate>(
    rt: &R,
    source: &mut S,
    length: u64,
    name: &str,
    sink: &mut K,
    meter: &mut Meter,
    view: &mut Meter,
    window: &mut Window,
    gate: &G,
    options: &PackOptions,
) -> Result<(), Stop>
    requires attached { S.attached source.old ≡ Some length }
    requires empty { IfSome (K.contents sink.old) (λ c. c ≡ []) }
    requires nothing_live { meter.old.live ≡ 0 }
    requires nothing_viewed { view.old.live ≡ 0 }
    requires window { IsEmpty window.old }
    requires options { AreOptions options.now }

    ensures output { OnOk result (HoldsRetiled options.now (S.held source.old) (K.contents sink.new)) }
    ensures finished { OnOk result (K.finished sink.new ≡ true) }
    ensures first_fault { TellsFirstFault (Retile options.now) (S.held source.old) result }
    // If no count of faults rose and each limit is at least its own bound, only the first fault decides.
    ensures answered { AnswersBoth options.now (S.held source.old) (S.tally source.old) (S.tally source.new) (nameless (K.tally sink.old))
        (nameless (K.tally sink.new)) view.old.limit meter.old.limit window.old.workers result }
    ensures cause { HasRetileCause options.now (S.held source.old) (S.tally source.old) (S.tally source.new) (nameless (K.tally sink.old))
        (nameless (K.tally sink.new)) view.old.limit meter.old.limit window.old.workers result }
    ensures names { NamesOnce name.now (K.tally sink.old).names (K.tally sink.new).names result }
    // What was cut short does not begin with the S of a FITS file.
    ensures first_byte { IsShutOrWhole (K.contents sink.new) (HoldsRetiled options.now (S.held source.old) (K.contents sink.new)) result }
    ensures unmade { StaysUnmadeBoth options.now (S.held source.old) view.old.limit meter.old.limit window.old.workers
        ((K.created sink.new ≡ K.created sink.old) × (K.contents sink.new ≡ K.contents sink.old)) result }
    ensures buffers { KeepsPacking options.now (S.held source.old) meter.old meter.new window.old window.new }
    ensures view_buffers { KeepsView (S.held source.old) view.old view.new window.old.workers }
    // Every byte that is read, whatever the answer, is of a header that the checks come to, or, if no header is rejected, of a row or
    // a record of a packed image, or of the data of an HDU that is copied.
    ensures touched { IfSome (S.held source.old) (λ g. LogsIn (touched_by (Retile options.now) g) (S.ranges source.old) (S.ranges source.new)) }
    // After a job that is done each peak is exactly the greatest sum of what was taken of its meter, for so many workers.
    ensures exact_peak { OnOk result (IfSome (S.held source.old)
        (λ g. meter.new.peak ≡ max meter.old.peak (highest (own_takings (Retile options.now) g window.old.workers)))) }
    ensures exact_view { OnOk result (IfSome (S.held source.old)
        (λ g. view.new.peak ≡ max view.old.peak (highest (file_takings Unpack g window.old.workers)))) }
    // The first block is taken before anything is read.
    ensures unread { view.old.limit < 2880 → S.ranges source.new ≡ S.ranges source.old }
    ensures kept { KeepsSource (S.held source.old) (S.held source.new) (S.attached source.old) (S.attached source.new)
        (S.tally source.old) (S.tally source.new) (nameless (K.tally sink.old)) (nameless (K.tally sink.new)) }
    ensures stays { StaysTold (S.ranges source.old) (S.ranges source.new)
        × StaysTold (K.contents sink.old) (K.contents sink.new) }
{
    // What the file stands for, that it has one first fault, and which limits are enough.
    first_fault_law();
    restored_law();
    buffers_law();
    takings_law();
    let start = Snapshot::of(&*source);
    let looked = look(rt, source, length, view, window, gate)?;
    let plain = PlainView::new(source, start, length, looked, options.tile);
    let asked = Packing {
        rt,
        gate,
        name,
        options: *options,
    };
    let lent = Lent { inner: sink };
    let mut answer = Err(Stop::ReadFault);
    let ended = in_view::<Brand, Brand, R, S, K, G>(
        &asked,
        plain,
        lent,
        meter,
        window,
        &mut answer,
    );
    let Ended { view: plain, lent } = ended;
    let Lent { inner: _sink } = lent;
    let failed = plain.failed();
    let later = plain.later();
    let _source = plain.close(view);
    settled(answer, failed, later)
}

/// The answer with which `retile` ends, by that of `pack`: a failed reading of the source is its fault; and if a reading of the
/// view failed though none of the source did, it is what the view refused first of what the look had accepted.
pub fn settled(
    answer: Result<(), Stop>,
    failed: Option<Failed>,
    later: Option<Fault>,
) -> Result<(), Stop>
    ensures { result ≡ settled_of answer failed later }
{
    match (answer, failed) {
        (Ok(()), None) => Ok(()),
        // The source was read to the end, though a reading of it failed: no source of this program does that.
        (Ok(()), Some(_)) => Err(Stop::NoMemory),
        (Err(stop), None) => Err(late(stop, later)),
        (Err(stop), Some(failed)) => Err(unread(stop, failed)),
    }
}

// What stopped `pack`, or the refusal that it took for a failed reading.
fn late(stop: Stop, later: Option<Fault>) -> Stop
    ensures { result ≡ late_of stop later }
{
    match (stop, later) {
        (Stop::ReadFault, Some(fault)) => Stop::Refused(fault),
        (stop, _) => stop,
    }
}

// What stopped `pack`, or the reading of the source that failed and that it took for one of the view, or for a refusal.
fn unread(stop: Stop, failed: Failed) -> Stop
    ensures { result ≡ failed_of stop failed }
{
    match stop {
        Stop::Refused(_) | Stop::ReadFault => Stop::reading(failed),
        Stop::WriteFault | Stop::OverLimit { .. } | Stop::NoMemory => stop,
    }
}

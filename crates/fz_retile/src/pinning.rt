//! `pack` over a view.
ghost use Rattle.std.specs.Prelude.{◌≡◌, max, true, [], IfSome, IsErrOf, OnOk};
ghost use Rattle.fz_base.specs.Counts.{CountsKept, nameless};
ghost use Rattle.fz_base.specs.Names.{NamesOnce};
ghost use Rattle.fz_base.specs.Told.{StaysTold};
ghost use Rattle.fz_base.specs.declared.failure.Stop.TheVariants.{ReadFault};
ghost use Rattle.fz_head.specs.Planned.{AreOptions};
ghost use Rattle.fz_base.specs.Takings.{highest};
ghost use Rattle.fz_pool.specs.Window.{IsEmpty};
ghost use Rattle.fz_files.specs.Buffers.{job_takings};
ghost use Rattle.fz_files.specs.declared.job.Job.TheVariants.{Pack};
ghost use Rattle.fz_job.specs.Clauses.{Answers, HasJobCause, IsShutOrWhole, IsUnmade, KeepsBuffers, TellsFirstFault};
ghost use Rattle.fz_pack.specs.Output.{HoldsPacked};
ghost use Rattle.fz_retile.specs.Retiles.{unless_failed};
ghost use Rattle.fz_look.specs.Looked.{buffers_of};
ghost use Rattle.fz_retile.specs.Views.{restored_from, with_more};

use crate::pinned::{Origin, Pinned};
use crate::view::PlainView;
use crate::watched::{Lent, Watch, WatchedSink};
use fz_base::{Gate, Meter, Sink, Source, Stop};
use fz_head::PackOptions;
use fz_pack::pack;
use fz_pool::Window;
use std::marker::PhantomData;
use std::thread::Threads;

/// How the file is packed, and by whom: what starts threads, what each worker passes before a tile, the name of what the job
/// makes, and the options.
#[derive(Drop)]
pub(crate) struct Packing<'a, 'n, R, G> {
    /// What starts threads.
    pub(crate) rt: &'a R,
    /// What each worker passes before a tile.
    pub(crate) gate: &'a G,
    /// The name of what the job makes.
    pub(crate) name: &'n str,
    /// How it is packed.
    pub(crate) options: PackOptions,
}

/// The view and the sink, after the file was packed.
pub(crate) struct Ended<'a, 'k, S: Source, K: Sink> {
    pub(crate) view: PlainView<'a, S>,
    pub(crate) lent: Lent<'k, K>,
}

/// Packs what the view shows, and answers the view and the sink. What is pinned is what its source, its counts and its bytes were, and
/// those of the sink.
///
/// A reading that failed after a call of the sink had is reported as want of memory: `pack` ends at the first call that fails,
/// so that no source and no sink of this program bring it about.
pub(crate) fn in_view<'a, 'k, L: Origin, M: Watch, R: Threads + Sync, S: Source, K: Sink, G: Gate>(
    asked: &Packing<'_, '_, R, G>,
    view: PlainView<'a, S>,
    sink: Lent<'k, K>,
    meter: &mut Meter,
    window: &mut Window,
    answer: &mut Result<(), Stop>,
) -> Ended<'a, 'k, S, K>
    requires name { view.inner.ghost_name ≡ L.name }
    requires tally { S.tally view.start.value ≡ L.tally }
    requires ranges { S.ranges view.start.value ≡ L.ranges }
    requires held { S.held view.inner.now ≡ L.held }
    requires file { view.length ≡ L.file }
    requires length { view.plain_len ≡ L.length }
    requires space { buffers_of view.space ≡ L.space }
    requires sink { sink.inner.ghost_name ≡ M.name }
    requires counts { nameless (K.tally sink.inner.now) ≡ M.counts }
    requires empty { IfSome (K.contents sink.inner.now) (λ c. c ≡ []) }
    requires nothing_live { meter.old.live ≡ 0 }
    requires window { IsEmpty window.old }
    requires options { AreOptions asked.now.options }
    ensures name { result.view.inner.ghost_name ≡ view.entry.inner.ghost_name }
    ensures sink_name { result.lent.inner.ghost_name ≡ sink.entry.inner.ghost_name }
    ensures tally { S.tally result.view.start.value ≡ S.tally view.entry.start.value }
    ensures ranges { S.ranges result.view.start.value ≡ S.ranges view.entry.start.value }
    ensures held { S.held result.view.inner.now ≡ S.held view.entry.inner.now }
    ensures file { result.view.length ≡ view.entry.length }
    ensures space { buffers_of result.view.space ≡ buffers_of view.entry.space }
    ensures output { OnOk answer.new (HoldsPacked asked.now.options (restored_from (S.held view.entry.inner.now)) (K.contents result.lent.inner.now)) }
    ensures finished { OnOk answer.new (K.finished result.lent.inner.now ≡ true) }
    ensures first_fault { TellsFirstFault (Pack asked.now.options) (restored_from (S.held view.entry.inner.now)) answer.new }
    ensures answered { Answers (Pack asked.now.options) (restored_from (S.held view.entry.inner.now))
        (with_more (S.tally view.entry.inner.now) view.entry.more) (with_more (S.tally result.view.inner.now) result.view.more)
        (nameless (K.tally sink.entry.inner.now)) (nameless (K.tally result.lent.inner.now)) meter.old.limit window.old.workers answer.new }
    ensures cause { HasJobCause (Pack asked.now.options) (restored_from (S.held view.entry.inner.now))
        (with_more (S.tally view.entry.inner.now) view.entry.more) (with_more (S.tally result.view.inner.now) result.view.more)
        (nameless (K.tally sink.entry.inner.now)) (nameless (K.tally result.lent.inner.now)) meter.old.limit window.old.workers answer.new }
    ensures unwritten { IsErrOf answer.new ReadFault → nameless (K.tally result.lent.inner.now) ≡ nameless (K.tally sink.entry.inner.now) }
    ensures names { NamesOnce asked.now.name.now (K.tally sink.entry.inner.now).names (K.tally result.lent.inner.now).names answer.new }
    ensures first_byte { IsShutOrWhole (K.contents result.lent.inner.now)
        (HoldsPacked asked.now.options (restored_from (S.held view.entry.inner.now)) (K.contents result.lent.inner.now)) answer.new }
    ensures unmade { IsUnmade (Pack asked.now.options) (restored_from (S.held view.entry.inner.now)) meter.old.limit window.old.workers
        ((K.created result.lent.inner.now ≡ K.created sink.entry.inner.now) × (K.contents result.lent.inner.now ≡ K.contents sink.entry.inner.now)) answer.new }
    ensures buffers { KeepsBuffers (Pack asked.now.options) (restored_from (S.held view.entry.inner.now)) meter.old meter.new window.old window.new }
    ensures exact_peak { OnOk answer.new (IfSome (restored_from (S.held view.entry.inner.now))
        (λ u. meter.new.peak ≡ max meter.old.peak (highest (job_takings (Pack asked.now.options) u window.old.workers)))) }
    ensures stays { CountsKept (nameless (K.tally sink.entry.inner.now)) (nameless (K.tally result.lent.inner.now))
        × StaysTold (K.contents sink.entry.inner.now) (K.contents result.lent.inner.now) }
{
    let length = view.length();
    let mut pinned: Pinned<'a, S, L> = Pinned {
        view,
        of: PhantomData,
    };
    let mut watched: WatchedSink<'k, K, M> = WatchedSink {
        lent: sink,
        failed: false,
        of: PhantomData,
    };
    let answered = pack(
        asked.rt,
        &mut pinned,
        length,
        asked.name,
        &mut watched,
        meter,
        window,
        asked.gate,
        &asked.options,
    );
    let WatchedSink {
        lent,
        failed,
        of: _,
    } = watched;
    *answer = unless_failed(failed, answered);
    let Pinned { view, of: _ } = pinned;
    Ended { view, lent }
}

// What `pack` answers; but a reading that failed after a call of the sink had is reported as want of memory.
fn unless_failed(sink_failed: bool, answered: Result<(), Stop>) -> Result<(), Stop>
    ensures { result ≡ unless_failed sink_failed answered }
{
    match answered {
        Err(Stop::ReadFault) if sink_failed => Err(Stop::NoMemory),
        answered => answered,
    }
}

//! The job under one limit, as the program does it.
ghost use Rattle.std.specs.Prelude.{ℕ, ◌≡◌, ◌<◌, ◌≤◌, max, true, [], IfSome, OnOk};
ghost use Rattle.fz_base.specs.Counts.{nameless};
ghost use Rattle.fz_base.specs.Names.{NamesOnce};
ghost use Rattle.fz_base.specs.Ranges.{LogsIn};
ghost use Rattle.fz_base.specs.Takings.{highest};
ghost use Rattle.fz_base.specs.Told.{StaysTold};
ghost use Rattle.fz_head.specs.Planned.{AreOptions};
ghost use Rattle.fz_pool.specs.Window.{IsEmpty};
ghost use Rattle.fz_files.specs.Buffers.{file_takings, own_takings};
ghost use Rattle.fz_files.specs.Touched.{touched_by};
ghost use Rattle.fz_files.specs.declared.job.Job.TheVariants.{Retile, Unpack};
ghost use Rattle.fz_job.specs.Clauses.{IsShutOrWhole, KeepsSource, TellsFirstFault};
ghost use Rattle.fz_retile.specs.Retiles.{AnswersBoth, HasRetileCause, HoldsRetiled, KeepsPacking, KeepsView, StaysUnmadeBoth};

use crate::retile_file::retile;
use fz_base::{Gate, Meter, Sink, Source, Stop};
use fz_head::PackOptions;
use fz_pool::Window;
use std::alloc::Global;
use std::thread::Threads;

/// `retile` with a second meter that has the limit of the first. Answers that meter too, which shows how much of it was live.
pub fn retile_within<R: Threads + Sync, S: Source, K: Sink, G: Gate>(
    rt: &R,
    alloc: Global,
    source: &mut S,
    length: u64,
    name: &str,
    sink: &mut K,
    meter: &mut Meter,
    window: &mut Window,
    gate: &G,
    options: &PackOptions,
) -> (Result<(), Stop>, Meter)
    requires attached { S.attached source.old ≡ Some length }
    requires empty { IfSome (K.contents sink.old) (λ c. c ≡ []) }
    requires nothing_live { meter.old.live ≡ 0 }
    requires window { IsEmpty window.old }
    requires options { AreOptions options.now }

    // Neither meter ever has more live than the limit, of a real file too.
    ensures within { (meter.new.peak ≤ meter.old.limit) × (result.1.peak ≤ meter.old.limit) }
    ensures output { OnOk result.0 (HoldsRetiled options.now (S.held source.old) (K.contents sink.new)) }
    ensures finished { OnOk result.0 (K.finished sink.new ≡ true) }
    ensures first_fault { TellsFirstFault (Retile options.now) (S.held source.old) result.0 }
    ensures answered { AnswersBoth options.now (S.held source.old) (S.tally source.old) (S.tally source.new) (nameless (K.tally sink.old))
        (nameless (K.tally sink.new)) meter.old.limit meter.old.limit window.old.workers result.0 }
    ensures cause { HasRetileCause options.now (S.held source.old) (S.tally source.old) (S.tally source.new) (nameless (K.tally sink.old))
        (nameless (K.tally sink.new)) meter.old.limit meter.old.limit window.old.workers result.0 }
    ensures names { NamesOnce name.now (K.tally sink.old).names (K.tally sink.new).names result.0 }
    ensures first_byte { IsShutOrWhole (K.contents sink.new) (HoldsRetiled options.now (S.held source.old) (K.contents sink.new)) result.0 }
    ensures unmade { StaysUnmadeBoth options.now (S.held source.old) meter.old.limit meter.old.limit window.old.workers
        ((K.created sink.new ≡ K.created sink.old) × (K.contents sink.new ≡ K.contents sink.old)) result.0 }
    ensures buffers { KeepsPacking options.now (S.held source.old) meter.old meter.new window.old window.new }
    ensures view_buffers { KeepsView (S.held source.old) (record { live = 0; peak = 0; limit = meter.old.limit }) result.1 window.old.workers }
    ensures touched { IfSome (S.held source.old) (λ g. LogsIn (touched_by (Retile options.now) g) (S.ranges source.old) (S.ranges source.new)) }
    ensures exact_peak { OnOk result.0 (IfSome (S.held source.old)
        (λ g. meter.new.peak ≡ max meter.old.peak (highest (own_takings (Retile options.now) g window.old.workers)))) }
    ensures exact_view { OnOk result.0 (IfSome (S.held source.old)
        (λ g. result.1.peak ≡ highest (file_takings Unpack g window.old.workers))) }
    ensures unread { meter.old.limit < 2880 → S.ranges source.new ≡ S.ranges source.old }
    ensures kept { KeepsSource (S.held source.old) (S.held source.new) (S.attached source.old) (S.attached source.new)
        (S.tally source.old) (S.tally source.new) (nameless (K.tally sink.old)) (nameless (K.tally sink.new)) }
    ensures stays { StaysTold (S.ranges source.old) (S.ranges source.new)
        × StaysTold (K.contents sink.old) (K.contents sink.new) }
{
    let mut view = Meter::new(alloc, meter.limit());
    let answer = retile(
        rt, source, length, name, sink, meter, &mut view, window, gate, options,
    );
    // These calls show that each peak is within the limit of its meter.
    let _packing = meter.peak();
    let _looking = view.peak();
    (answer, view)
}

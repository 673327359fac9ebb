//! The view.
ghost use Rattle.std.specs.Prelude.{◌≡◌, ◌^◌, ◌<◌, ◌≤◌, length as len, true, Some, None, IfSome};
ghost use Rattle.std.specs.Option.{ForSome};
ghost use Rattle.std.proofs.Props.{props};
ghost use Rattle.fz_base.specs.Counts.{Rose};
ghost use Rattle.fz_base.specs.Meter.{handed_back};
ghost use Rattle.fz_base.specs.Ranges.{LogsIn};
ghost use Rattle.fz_base.specs.Source.{HoldsOctets};
ghost use Rattle.fz_base.specs.Told.{StaysTold};
ghost use Rattle.fz_base.specs.declared.failure.Failed.TheVariants.{Fault as IsFault};
ghost use Rattle.fz_files.specs.Touched.{touched_by};
ghost use Rattle.fz_files.specs.declared.job.Job.TheVariants.{Unpack};
ghost use Rattle.fz_retile.specs.Holds.{AreFailures, AreReads, AreRefusals, IsAtHand, IsFixed, IsKnownView};
ghost use Rattle.fz_look.specs.Looked.{HaveRoom, IsLooked, IsSoundLook, buffers_of};
ghost use Rattle.fz_look.specs.Marked.{AreMarksOf};
ghost use Rattle.fz_retile.specs.Views.{failed_after, failed_by, is_late, later_after, more_by, restored_from};

use fz_base::{Failed, Fault, Meter, Source, Stop};
use fz_block::Axes;
use fz_grid::Region;
use fz_job::{Survey, known_law};
use fz_laws::{first_fault_law, restored_bytes_law, restored_law};
use fz_look::{First, Here, Looked, Space};
use std::snapshot::Snapshot;

/// The file that a packed file stands for, whose bytes are made of those of another source as they are read.
pub struct PlainView<'a, S: Source> {
    /// The source that has the packed file.
    pub inner: &'a mut S,
    /// The source as it was before the look.
    pub start: Snapshot<S>,
    /// The bytes of the packed file.
    pub length: u64,
    /// The bytes of the file that it stands for.
    pub plain_len: u64,
    /// What the look learnt of its headers.
    pub survey: Survey,
    /// The first HDU that stands for something.
    pub first: First,
    /// The lengths of the tiles in which the pixels will be read, if they are known.
    pub asked: Option<Axes>,
    pub space: Space,
    /// The HDU at hand.
    pub here: Option<Here>,
    /// The box of its image whose pixels are in the band.
    pub boxed: Option<Region>,
    /// How often a reading was refused that was accepted at the look.
    pub more: u64,
    /// The first such refusal.
    pub later: Option<Fault>,
    /// The first reading of the source that failed.
    pub failed: Option<Failed>,
    pub ghost is_attached: { S.attached inner.now ≡ Some length },
    pub ghost fixed: { IsFixed length plain_len survey first asked } by { Prim.hlevel props },
    pub ghost room: { HaveRoom survey.header_len survey.tile space } by { Prim.hlevel props },
    pub ghost at_hand: { IsAtHand length plain_len survey space here boxed } by { Prim.hlevel props },
    // What holds if it shows its bytes.
    pub ghost known: { ForSome (S.held inner.now) (λ g. IsKnownView g plain_len survey first space here boxed) } by { Prim.hlevel props },
    pub ghost marks: { AreMarksOf (S.held inner.now) here space.numbers } by { Prim.hlevel props },
    pub ghost fits: { ForSome (restored_from (S.held inner.now)) (λ u. len u ≡ plain_len) } by { Prim.hlevel props },
    pub ghost octets: { HoldsOctets (restored_from (S.held inner.now)) } by { Prim.hlevel props },
    // What was read since the look began, what was refused, and what failed.
    pub ghost reads: { AreReads (S.held inner.now) (S.ranges start.value) (S.ranges inner.now) } by { Prim.hlevel props },
    pub ghost refusals: { AreRefusals (S.held inner.now) later more } by { Prim.hlevel props },
    pub ghost failures: { AreFailures (S.tally start.value) (S.tally inner.now) failed } by { Prim.hlevel props },
}

impl<'a, S: Source> PlainView<'a, S> {
    /// A view of the file that is attached to a source and was looked at. `asked` has the lengths of the tiles in which the
    /// pixels will be read, if they are no rows: these decide how fast pixels are read, and nothing else.
    pub fn new(
        source: &'a mut S,
        start: Snapshot<S>,
        length: u64,
        looked: Looked,
        asked: Option<Axes>,
    ) -> PlainView<'a, S>
        requires start { S.tally start.value ≡ S.tally source.old }
        requires touched { IfSome (S.held source.old) (λ g. LogsIn (touched_by Unpack g) (S.ranges start.value) (S.ranges source.old)) }
        requires told { StaysTold (S.ranges start.value) (S.ranges source.old) }
        requires attached { S.attached source.old ≡ Some length }
        requires near { length ≤ 2 ^ 62 }
        requires sound { IsSoundLook length looked }
        requires looked { IfSome (S.held source.old) (λ g. IsLooked g looked) }
        requires asked { IfSome asked (λ a. a.n ≤ 9) }
        ensures same_reference { result.inner.ghost_name ≡ source.entry.ghost_name }
        ensures inner { result.inner.now ≡ source.old }
        ensures start { result.start.value ≡ start.value }
        ensures file { result.length ≡ length }
        ensures length { result.plain_len ≡ looked.plain_len }
        ensures space { buffers_of result.space ≡ buffers_of looked.space }
        ensures none { (result.more ≡ 0) × (result.later ≡ None) × (result.failed ≡ None) }
    {
        // What a file of bytes stands for are bytes, and no other headers were seen than the look saw.
        first_fault_law();
        known_law();
        restored_bytes_law();
        restored_law();
        let Looked {
            plain_len,
            survey,
            first,
            space,
        } = looked;
        PlainView {
            inner: source,
            start,
            length,
            plain_len,
            survey,
            first,
            asked,
            space,
            here: None,
            boxed: None,
            more: 0,
            later: None,
            failed: None,
        }
    }

    /// The bytes of the file that the packed file stands for.
    pub fn length(&self) -> u64
        ensures value { result ≡ self.now.plain_len }
        ensures near { result ≤ 2 ^ 62 }
    {
        self.plain_len
    }

    /// The first reading that was refused though the look accepted it, with its place in the packed file: the source gave
    /// other bytes than before.
    pub fn later(&self) -> Option<Fault>
        ensures value { result ≡ self.now.later }
        ensures none { self.now.more ≡ 0 → result ≡ None }
        ensures some { result ≡ None → self.now.more ≡ 0 }
        ensures never { IfSome (S.held self.now.inner.now) (λ _. result ≡ None) }
        ensures late { IfSome result (λ x. is_late x ≡ true) }
    {
        self.later
    }

    /// The first reading of the source that failed.
    pub fn failed(&self) -> Option<Failed>
        ensures value { result ≡ self.now.failed }
        ensures clean { result ≡ None → S.tally self.now.inner.now ≡ S.tally self.now.start.value }
        ensures rose { result ≡ Some IsFault → Rose (S.tally self.now.start.value).faults (S.tally self.now.inner.now).faults }
    {
        self.failed
    }

    /// Hands the buffers back, and answers the source.
    pub fn close(self, meter: &mut Meter) -> &'a mut S
        requires live { buffers_of self.space ≤ meter.old.live }
        ensures same_reference { result.ghost_name ≡ self.entry.inner.ghost_name }
        ensures left { result.now ≡ self.entry.inner.now }
        ensures touched { IfSome (S.held self.entry.inner.now) (λ g. LogsIn (touched_by Unpack g) (S.ranges self.entry.start.value) (S.ranges result.now)) }
        ensures told { StaysTold (S.ranges self.entry.start.value) (S.ranges result.now) }
        ensures given { meter.new ≡ handed_back meter.old (buffers_of self.entry.space) }
    {
        let PlainView {
            inner,
            start: _,
            length: _,
            plain_len: _,
            survey: _,
            first: _,
            asked: _,
            space,
            here: _,
            boxed: _,
            more: _,
            later: _,
            failed: _,
        } = self;
        space.give_back(meter);
        inner
    }
}

/// Keeps why a call on the source stopped: the first failure of the source, or the first refusal of what the look accepted, and
/// that there was one more. Answers what the view answers. It is given fields of the view, since the view as a whole holds
/// again only with what is kept.
pub(crate) fn keep_stop(
    stop: Stop,
    failed: &mut Option<Failed>,
    later: &mut Option<Fault>,
    more: &mut u64,
) -> Failed
    ensures answer { result ≡ failed_by stop }
    ensures failed { failed.new ≡ failed_after stop failed.old }
    ensures later { later.new ≡ later_after stop later.old }
    ensures more { more.new ≡ more_by stop more.old }
{
    let one = match stop {
        Stop::Refused(fault) => {
            if later.is_none() {
                *later = Some(fault);
            }
            *more = more.saturating_add(1);
            return Failed::Fault;
        }
        Stop::NoMemory => Failed::NoMemory,
        Stop::ReadFault | Stop::WriteFault | Stop::OverLimit { .. } => Failed::Fault,
    };
    if failed.is_none() {
        *failed = Some(one);
    }
    one
}

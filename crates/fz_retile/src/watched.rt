//! A sink that keeps whether a call of it failed.
ghost use Rattle.std.specs.Prelude.{ℕ, ◌≡◌, ◌<◌, ◌||◌, IsTrue, false, if◌then◌else◌, length as len, OnOk, OnErr, is_ok};
ghost use Rattle.std.proofs.Props.{props};
ghost use Rattle.fz_base.specs.Counts.{CountsKept, HasCause, Tally, nameless, uncounted};
ghost use Rattle.fz_base.specs.Names.{names_by};
ghost use Rattle.fz_base.specs.Sink.{MayWrite, emptied, written};

use fz_base::{Failed, Sink};
use std::marker::{Brand, PhantomData};

/// Where a sink that is watched began, for proofs only.
pub(crate) trait Watch {
    ghost name: { ℕ };

    ghost counts: { Tally };
}

impl Watch for Brand {
    ghost name = { 0 };

    ghost counts = { uncounted };
}

/// A sink that is lent.
pub(crate) struct Lent<'k, K: Sink> {
    pub(crate) inner: &'k mut K,
}

impl<'k, K: Sink> Lent<'k, K> {
    // As the sink makes it.
    fn create(&mut self, name: &str) -> Result<(), Failed>
        ensures same_reference { self.new.inner.ghost_name ≡ self.old.inner.ghost_name }
        ensures contents { K.contents self.new.inner.now ≡ (if is_ok result then emptied (K.contents self.old.inner.now) else K.contents self.old.inner.now) }
        ensures created { K.created self.new.inner.now ≡ (is_ok result || K.created self.old.inner.now) }
        ensures finished { K.finished self.new.inner.now ≡ (if is_ok result then false else K.finished self.old.inner.now) }
        ensures names { (K.tally self.new.inner.now).names ≡ names_by name.now result (K.tally self.old.inner.now).names }
        ensures cause { HasCause (nameless (K.tally self.old.inner.now)) (nameless (K.tally self.new.inner.now)) result }
    {
        self.inner.create(name)
    }

    // As the sink writes.
    fn write_at(&mut self, at: u64, bytes: &[u8]) -> Result<(), Failed>
        requires created { IsTrue (K.created self.old.inner.now) }
        requires some { 0 < len bytes.now }
        ensures written { OnOk result (K.contents self.new.inner.now ≡ written at bytes.now (K.contents self.old.inner.now)) }
        ensures partly { OnErr result (MayWrite at bytes.now (K.contents self.old.inner.now) (K.contents self.new.inner.now)) }
        ensures stays { (self.new.inner.ghost_name ≡ self.old.inner.ghost_name)
            × (K.created self.new.inner.now ≡ K.created self.old.inner.now) }
        ensures finished { K.finished self.new.inner.now ≡ false }
        ensures cause { HasCause (K.tally self.old.inner.now) (K.tally self.new.inner.now) result }
    {
        self.inner.write_at(at, bytes)
    }

    // As the sink ends.
    fn finish(&mut self) -> Result<(), Failed>
        requires { IsTrue (K.created self.old.inner.now) }
        ensures stays { (self.new.inner.ghost_name ≡ self.old.inner.ghost_name)
            × (K.contents self.new.inner.now ≡ K.contents self.old.inner.now)
            × (K.created self.new.inner.now ≡ K.created self.old.inner.now) }
        ensures finished { K.finished self.new.inner.now ≡ (is_ok result || K.finished self.old.inner.now) }
        ensures cause { HasCause (K.tally self.old.inner.now) (K.tally self.new.inner.now) result }
    {
        self.inner.finish()
    }
}

/// A sink, and whether a call of it failed. As long as none did its counts are those with which it began.
pub(crate) struct WatchedSink<'k, K: Sink, M: Watch> {
    pub(crate) lent: Lent<'k, K>,
    pub(crate) failed: bool,
    pub(crate) of: PhantomData<M>,
    ghost same_name: { lent.inner.ghost_name ≡ M.name },
    ghost kept: { CountsKept M.counts (nameless (K.tally lent.inner.now)) },
    ghost clean: { failed ≡ false → nameless (K.tally lent.inner.now) ≡ M.counts } by { Prim.hlevel props },
}

impl<'k, K: Sink, M: Watch> Sink for WatchedSink<'k, K, M> {
    ghost contents = { λ s. K.contents s.lent.inner.now };

    ghost created = { λ s. K.created s.lent.inner.now };

    ghost finished = { λ s. K.finished s.lent.inner.now };

    ghost tally = { λ s. K.tally s.lent.inner.now };

    fn create(&mut self, name: &str) -> Result<(), Failed> {
        let answer = self.lent.create(name);
        if answer.is_err() {
            self.failed = true;
        }
        answer
    }

    fn write_at(&mut self, at: u64, bytes: &[u8]) -> Result<(), Failed> {
        let answer = self.lent.write_at(at, bytes);
        if answer.is_err() {
            self.failed = true;
        }
        answer
    }

    fn finish(&mut self) -> Result<(), Failed> {
        let answer = self.lent.finish();
        if answer.is_err() {
            self.failed = true;
        }
        answer
    }
}

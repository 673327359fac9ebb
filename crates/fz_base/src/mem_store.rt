//! A store in memory, whose calls can be set to fail.
ghost use Rattle.std.specs.Prelude.{ℕ, ◌≡◌, ◌+◌, ◌-◌, ◌^◌, ◌≤◌, ◌<◌, ◌↔◌, min};
ghost use Rattle.std.specs.Prelude.{[], ◌∷◌, ◌++◌, length as len, take, vec_len, Contains, Some, None, IfOk, IsSome, OnOk, OnErr, IsErr, IsErrOf};
ghost use Rattle.fz_base.specs.Counts.{HasCause, CountsFault, counted, nameless, store_tally};
ghost use Rattle.fz_base.specs.Names.{names_by};
ghost use Rattle.fz_base.specs.Sink.{KeepsFront, overwrite, written};
ghost use Rattle.fz_base.specs.Source.{Reads, logged, MayLog, HoldsLength, attached_by};
ghost use Rattle.fz_base.specs.Store.{HasAmended, HasAtLeast, MayAmend, Reaches, amend_of, amended_by, settled_by, with_write};
ghost use Rattle.fz_base.specs.declared.failure.Failed.TheVariants.{Fault, NoMemory};
ghost use Rattle.fz_base.specs.declared.store.StoreEvent.TheVariants.{Amend, Settle};

use crate::store::{StoreEvent, Write};
use crate::{Failed, MemSource, Source, Store};
use std::alloc::{AllocError, Global};

/// A store over bytes in memory. It shows its bytes, the ranges that were read, its writes, and when it was
/// settled, and fails in the calls of `attach`, `read_at` and `amend`, counted together from 0, that it is
/// set to.
#[derive(Drop)]
pub struct MemStore {
    alloc: Global,
    pub(crate) source: MemSource,
    log: Vec<Write>,
    pub(crate) events: Vec<StoreEvent>,
    settled: usize,
    pub(crate) keep: u32,
    ghost in_log: { settled ≤ vec_len log },
}

impl MemStore {
    ghost use Rattle.fz_base.specs.MemStore.{store_failing, store_calls, store_events, store_keep};

    /// A store that holds these bytes. The calls whose numbers are in `failing` will fail, and a failing
    /// `amend` writes the first `keep` bytes.
    pub fn new(alloc: Global, bytes: Vec<u8>, failing: Vec<u32>, keep: u32) -> MemStore
        requires { vec_len bytes ≤ 2 ^ 62 }
        ensures held { ⟦<MemStore as Source>⟧.held result ≡ Some bytes.items }
        ensures ranges { ⟦<MemStore as Source>⟧.ranges result ≡ Some [] }
        ensures attached { ⟦<MemStore as Source>⟧.attached result ≡ None }
        ensures tally { ⟦<MemStore as Source>⟧.tally result
            ≡ record { faults = 0; wants = 0; names = None; amended = record { writes = Some []; settled = 0; faults = 0 } } }
        ensures failing { store_failing result ≡ failing.items }
        ensures calls { store_calls result ≡ 0 }
        ensures keep { store_keep result ≡ keep }
        ensures events { store_events result ≡ [] }
    {
        MemStore {
            alloc,
            source: MemSource::new(alloc, bytes, failing),
            log: Vec::new(alloc),
            events: Vec::new(alloc),
            settled: 0,
            keep,
        }
    }

    /// The bytes that it holds.
    pub fn contents(&self) -> &[u8]
        ensures { ⟦<MemStore as Source>⟧.held self.now ≡ Some result.now }
    {
        &self.source.bytes
    }

    /// The ranges read so far, each by its start and length.
    pub fn reads(&self) -> &[(u64, u64)]
        ensures { ⟦<MemStore as Source>⟧.ranges self.now ≡ Some result.now }
    {
        self.source.reads()
    }

    /// The writes so far, one after another, without those that failed.
    pub fn writes(&self) -> &[Write]
        ensures { (⟦<MemStore as Source>⟧.tally self.now).amended.writes ≡ Some result.now }
    {
        &self.log
    }

    /// What was done to it, one after another: each write and each settling that succeeded.
    pub fn events(&self) -> &[StoreEvent]
        ensures { store_events self.now ≡ result.now }
    {
        &self.events
    }

    /// How many of the writes, from the first on, are settled.
    pub fn settled(&self) -> u64
        ensures { result ≡ (⟦<MemStore as Source>⟧.tally self.now).amended.settled }
    {
        self.settled as u64
    }

    /// How often a call of `attach` or `read_at` failed.
    pub fn faults(&self) -> u64
        ensures { result ≡ (⟦<MemStore as Source>⟧.tally self.now).faults }
    {
        self.source.faults()
    }

    /// How often a call of `amend` failed.
    pub fn write_faults(&self) -> u64
        ensures { result ≡ (⟦<MemStore as Source>⟧.tally self.now).amended.faults }
    {
        self.source.calls.counts.write_faults
    }

    // Writes the bytes and logs them, or does neither if there is no memory.
    fn write(&mut self, at: u64, bytes: &[u8]) -> Result<(), AllocError>
        requires within { HasAtLeast self.old.source.size at }
        requires near { at + len bytes.now ≤ 2 ^ 62 }
        ensures written { OnOk result (self.new.source.bytes.items ≡ overwrite at bytes.now self.old.source.bytes.items) }
        ensures logged { OnOk result (Some self.new.log.items ≡ with_write (amend_of at bytes.now) (Some self.old.log.items)) }
        ensures reach { Reaches at (len bytes.now) self.old.source.size self.new.source.size result }
        ensures nothing { OnErr result (self.new.source.bytes.items ≡ self.old.source.bytes.items) }
        ensures unlogged { OnErr result (self.new.log.items ≡ self.old.log.items) }
        ensures events { OnOk result (self.new.events.items ≡ self.old.events.items ++ Amend ∷ []) }
        ensures no_event { OnErr result (self.new.events.items ≡ self.old.events.items) }
        ensures settled { self.new.settled ≡ self.old.settled }
        ensures ranges { self.new.source.ranges ≡ self.old.source.ranges }
        ensures calls { self.new.source.calls ≡ self.old.source.calls }
        ensures keep { self.new.keep ≡ self.old.keep }
    {
        let copy = bytes.to_vec(self.alloc)?;
        self.log.try_reserve(1)?;
        self.events.try_reserve(1)?;
        self.source.put(at, bytes)?;
        let Ok(()) = self.log.push(Write { at, bytes: copy }) else {
            unreachable!()
        };
        let Ok(()) = self.events.push(StoreEvent::Amend) else {
            unreachable!()
        };
        Ok(())
    }

    // Fails: writes what a failing call keeps, or counts a want if there is no memory for it, and counts a fault.
    fn fail(&mut self, at: u64, bytes: &[u8]) -> Result<(), Failed>
        requires within { HasAtLeast self.old.source.size at }
        requires near { at + len bytes.now ≤ 2 ^ 62 }
        ensures answer { IsErrOf result Fault }
        ensures kept { KeepsFront at (take self.old.keep bytes.now) (Some self.old.source.bytes.items) (Some self.new.source.bytes.items)
            self.old.source.calls.counts.wants self.new.source.calls.counts.wants }
        ensures reach { Reaches at (len bytes.now) self.old.source.size self.new.source.size result }
        ensures cause { HasAmended (store_tally (Some self.old.log.items) self.old.settled self.old.source.calls.counts)
            (store_tally (Some self.old.log.items) self.old.settled self.old.source.calls.counts)
            (store_tally (Some self.new.log.items) self.new.settled self.new.source.calls.counts) result }
        ensures write_faults { self.new.source.calls.counts.write_faults ≡ counted self.old.source.calls.counts.write_faults }
        ensures ranges { self.new.source.ranges ≡ self.old.source.ranges }
        ensures failing { self.new.source.calls.failing ≡ self.old.source.calls.failing }
        ensures next { self.new.source.calls.next ≡ self.old.source.calls.next }
        ensures events { self.new.events.items ≡ self.old.events.items }
        ensures keep { self.new.keep ≡ self.old.keep }
    {
        let kept = bytes.len().min(self.keep as usize);
        if self.source.put(at, &bytes[..kept]).is_err() {
            let _ = self.source.calls.counts.want::<()>();
        }
        self.source.calls.counts.write_fault()
    }
}

impl Source for MemStore {
    ghost use Rattle.fz_base.specs.MemStore.{store_failing, store_calls, store_events, store_keep};
    ghost use Rattle.fz_base.specs.Agreement.{agrees_of};

    ghost held = { λ s. Some s.source.bytes.items };

    ghost ranges = { λ s. Some s.source.ranges.items };

    ghost attached = { λ s. s.source.size };

    ghost tally = { λ s. store_tally (Some s.log.items) s.settled s.source.calls.counts };

    fn attach(&mut self, name: &str) -> Result<u64, Failed>
        ensures attached { self.new.source.size ≡ attached_by result self.old.source.size }
        ensures limit { IfOk result (λ n. n ≤ 2 ^ 62) }
        ensures told { IfOk result (HoldsLength (Some self.old.source.bytes.items)) }
        ensures held { Some self.new.source.bytes.items ≡ Some self.old.source.bytes.items }
        ensures ranges { Some self.new.source.ranges.items ≡ Some self.old.source.ranges.items }
        ensures names { (store_tally (Some self.new.log.items) self.new.settled self.new.source.calls.counts).names
            ≡ names_by name.now result (store_tally (Some self.old.log.items) self.old.settled self.old.source.calls.counts).names }
        ensures cause { HasCause (nameless (store_tally (Some self.old.log.items) self.old.settled self.old.source.calls.counts))
            (nameless (store_tally (Some self.new.log.items) self.new.settled self.new.source.calls.counts)) result }

        ensures only_faults { IsErr result → IsErrOf result Fault }
        ensures exact { IsErrOf result Fault ↔ Contains (store_failing self.old) (store_calls self.old) }
        ensures counted { CountsFault (store_failing self.old) (store_calls self.old)
            self.old.source.calls.counts.faults self.new.source.calls.counts.faults }
        ensures failing { store_failing self.new ≡ store_failing self.old }
        ensures calls { store_calls self.new ≡ min (store_calls self.old + 1) (2 ^ 64 - 1) }
        ensures events { store_events self.new ≡ store_events self.old }
        ensures keep { store_keep self.new ≡ store_keep self.old }
    {
        self.source.attach(name)
    }

    fn read_at(&mut self, at: u64, into: &mut [u8]) -> Result<(), Failed>
        requires within { (n : ℕ) × (self.old.source.size ≡ Some n) × (at + len into.old ≤ n) }
        requires some { 0 < len into.old }
        ensures bytes { OnOk result (Reads (Some self.old.source.bytes.items) at into.new) }
        ensures logged { OnOk result (Some self.new.source.ranges.items ≡ logged at (len into.old) (Some self.old.source.ranges.items)) }
        ensures log_err { OnErr result (MayLog at (len into.old) (Some self.old.source.ranges.items) (Some self.new.source.ranges.items)) }
        ensures held { Some self.new.source.bytes.items ≡ Some self.old.source.bytes.items }
        ensures attached { self.new.source.size ≡ self.old.source.size }
        ensures cause { HasCause (store_tally (Some self.old.log.items) self.old.settled self.old.source.calls.counts)
            (store_tally (Some self.new.log.items) self.new.settled self.new.source.calls.counts) result }

        // A failing call logs nothing.
        ensures unlogged { OnErr result (self.new.source.ranges.items ≡ self.old.source.ranges.items) }
        ensures exact { IsErrOf result Fault ↔ Contains (store_failing self.old) (store_calls self.old) }
        ensures counted { CountsFault (store_failing self.old) (store_calls self.old)
            self.old.source.calls.counts.faults self.new.source.calls.counts.faults }
        ensures failing { store_failing self.new ≡ store_failing self.old }
        ensures calls { store_calls self.new ≡ min (store_calls self.old + 1) (2 ^ 64 - 1) }
        ensures events { store_events self.new ≡ store_events self.old }
        ensures keep { store_keep self.new ≡ store_keep self.old }
    {
        self.source.read_at(at, into)
    }

    ghost agrees = { λ s n e. agrees_of s.source.size (len s.source.bytes.items) n s.source.whole e };

    ghost near = { λ s n e. s.source.near n e };

    ghost octets = { λ s. s.source.octets };
}

impl Store for MemStore {
    ghost use Rattle.fz_base.specs.MemStore.{store_failing, store_calls, store_events, store_keep};

    fn amend(&mut self, at: u64, bytes: &[u8]) -> Result<(), Failed>
        requires within { HasAtLeast self.old.source.size at }
        requires near { at + len bytes.now ≤ 2 ^ 62 }
        requires some { 0 < len bytes.now }
        ensures amended { OnOk result (Some self.new.source.bytes.items ≡ written at bytes.now (Some self.old.source.bytes.items)) }
        ensures partly { OnErr result (MayAmend at (len bytes.now) (Some self.old.source.bytes.items) (Some self.new.source.bytes.items)) }
        ensures reach { Reaches at (len bytes.now) self.old.source.size self.new.source.size result }
        ensures ranges { Some self.new.source.ranges.items ≡ Some self.old.source.ranges.items }
        ensures cause { HasAmended (store_tally (Some self.old.log.items) self.old.settled self.old.source.calls.counts)
            (amended_by (amend_of at bytes.now) (store_tally (Some self.old.log.items) self.old.settled self.old.source.calls.counts))
            (store_tally (Some self.new.log.items) self.new.settled self.new.source.calls.counts) result }

        ensures exact { IsErrOf result Fault ↔ Contains (store_failing self.old) (store_calls self.old) }
        ensures counted { CountsFault (store_failing self.old) (store_calls self.old)
            self.old.source.calls.counts.write_faults self.new.source.calls.counts.write_faults }
        // Without memory nothing is written.
        ensures nothing { IsErrOf result NoMemory → self.new.source.bytes.items ≡ self.old.source.bytes.items }
        // A failing call writes the front of the bytes, if there is memory for it.
        ensures kept { IsErrOf result Fault → KeepsFront at (take (store_keep self.old) bytes.now)
            (Some self.old.source.bytes.items) (Some self.new.source.bytes.items)
            self.old.source.calls.counts.wants self.new.source.calls.counts.wants }
        ensures failing { store_failing self.new ≡ store_failing self.old }
        ensures calls { store_calls self.new ≡ min (store_calls self.old + 1) (2 ^ 64 - 1) }
        ensures events { OnOk result (store_events self.new ≡ store_events self.old ++ Amend ∷ []) }
        ensures no_event { OnErr result (store_events self.new ≡ store_events self.old) }
        ensures keep { store_keep self.new ≡ store_keep self.old }
    {
        if self.source.calls.next_fails() {
            return self.fail(at, bytes);
        }
        match self.write(at, bytes) {
            Ok(()) => Ok(()),
            Err(_) => self.source.calls.counts.want(),
        }
    }

    fn settle(&mut self) -> Result<(), Failed>
        requires { IsSome self.old.source.size }
        ensures held { Some self.new.source.bytes.items ≡ Some self.old.source.bytes.items }
        ensures attached { self.new.source.size ≡ self.old.source.size }
        ensures ranges { Some self.new.source.ranges.items ≡ Some self.old.source.ranges.items }
        ensures cause { HasAmended (store_tally (Some self.old.log.items) self.old.settled self.old.source.calls.counts)
            (settled_by (store_tally (Some self.old.log.items) self.old.settled self.old.source.calls.counts))
            (store_tally (Some self.new.log.items) self.new.settled self.new.source.calls.counts) result }

        // Only memory can be wanting, for the event. The call is not one of those that are set to fail.
        ensures only_wants { IsErr result → IsErrOf result NoMemory }
        ensures events { OnOk result (store_events self.new ≡ store_events self.old ++ Settle ∷ []) }
        ensures no_event { OnErr result (store_events self.new ≡ store_events self.old) }
        ensures failing { store_failing self.new ≡ store_failing self.old }
        ensures calls { store_calls self.new ≡ store_calls self.old }
        ensures keep { store_keep self.new ≡ store_keep self.old }
    {
        if self.events.push(StoreEvent::Settle).is_err() {
            return self.source.calls.counts.want();
        }
        self.settled = self.log.len();
        Ok(())
    }
}

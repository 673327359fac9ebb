//! A source in memory, whose calls can be set to fail.
ghost use Rattle.std.specs.Prelude.{ℕ, ◌≡◌, ◌+◌, ◌-◌, ◌^◌, ◌≤◌, ◌<◌, ◌↔◌, min};
ghost use Rattle.std.specs.Prelude.{[], length as len, vec_len, All, Contains, Some, None, IfOk, OnOk, OnErr, IsErr, IsErrOf};
ghost use Rattle.std.specs.Option.{ForSome};
ghost use Rattle.fz_base.specs.Counts.{HasCause, CountsFault, nameless, tally_of, uncounted};
ghost use Rattle.fz_base.specs.Names.{names_by};
ghost use Rattle.fz_base.specs.Source.{Reads, logged, MayLog, HoldsLength, attached_by};
ghost use Rattle.fz_base.specs.Sink.{overwrite};
ghost use Rattle.fz_base.specs.Store.{HasAtLeast, Reaches};
ghost use Rattle.fz_base.specs.declared.failure.Failed.TheVariants.{Fault};

use crate::calls::Calls;
use crate::placing::put;
use crate::{Failed, Source};
use std::alloc::{AllocError, Global};

/// A source over bytes in memory. It shows its bytes and the ranges that were read, and fails in
/// the calls of `attach` and `read_at`, counted together from 0, that it is set to.
#[derive(Drop)]
pub struct MemSource {
    pub(crate) bytes: Vec<u8>,
    pub(crate) size: Option<u64>,
    pub(crate) ranges: Vec<(u64, u64)>,
    pub(crate) calls: Calls,
    ghost short: { vec_len bytes ≤ 2 ^ 62 },
    ghost whole: { ForSome size (λ n. n ≡ len bytes.items) },
    ghost near: { ForSome size (λ n. n ≤ 2 ^ 62) },
    ghost octets: { All (λ byte. byte < 256) bytes.items },
}

impl MemSource {
    ghost use Rattle.fz_base.specs.MemSource.{source_failing, source_calls};

    /// A source that holds these bytes. The calls whose numbers are in `failing` will fail.
    pub fn new(alloc: Global, bytes: Vec<u8>, failing: Vec<u32>) -> MemSource
        requires { vec_len bytes ≤ 2 ^ 62 }
        ensures held { ⟦<MemSource as Source>⟧.held result ≡ Some bytes.items }
        ensures ranges { ⟦<MemSource as Source>⟧.ranges result ≡ Some [] }
        ensures attached { ⟦<MemSource as Source>⟧.attached result ≡ None }
        ensures tally { ⟦<MemSource as Source>⟧.tally result ≡ uncounted }
        ensures failing { source_failing result ≡ failing.items }
        ensures calls { source_calls result ≡ 0 }
        ensures write_faults { result.calls.counts.write_faults ≡ 0 }
    {
        MemSource {
            bytes,
            size: None,
            ranges: Vec::new(alloc),
            calls: Calls::new(failing),
        }
    }

    /// The ranges read so far, each by its start and length.
    pub fn reads(&self) -> &[(u64, u64)]
        ensures { ⟦<MemSource as Source>⟧.ranges self.now ≡ Some result.now }
    {
        &self.ranges
    }

    /// How often a call failed.
    pub fn faults(&self) -> u64
        ensures { result ≡ (⟦<MemSource as Source>⟧.tally self.now).faults }
    {
        self.calls.counts.faults
    }

    /// Puts the bytes over those from a place on, or directly after the last byte, and counts no call.
    /// If there is no memory for them, nothing changes.
    pub(crate) fn put(&mut self, at: u64, bytes: &[u8]) -> Result<(), AllocError>
        requires within { HasAtLeast self.old.size at }
        requires near { at + len bytes.now ≤ 2 ^ 62 }
        ensures ok { OnOk result (self.new.bytes.items ≡ overwrite at bytes.now self.old.bytes.items) }
        ensures err { OnErr result (self.new.bytes.items ≡ self.old.bytes.items) }
        ensures reach { Reaches at (len bytes.now) self.old.size self.new.size result }
        ensures ranges { self.new.ranges ≡ self.old.ranges }
        ensures calls { self.new.calls ≡ self.old.calls }
    {
        put(&mut self.bytes, at, bytes)?;
        self.size = Some(self.bytes.len() as u64);
        Ok(())
    }
}

impl Source for MemSource {
    ghost use Rattle.fz_base.specs.MemSource.{source_failing, source_calls};
    ghost use Rattle.fz_base.specs.Agreement.{agrees_of};

    ghost held = { λ s. Some s.bytes.items };

    ghost ranges = { λ s. Some s.ranges.items };

    ghost attached = { λ s. s.size };

    ghost tally = { λ s. tally_of s.calls.counts };

    fn attach(&mut self, name: &str) -> Result<u64, Failed>
        ensures attached { self.new.size ≡ attached_by result self.old.size }
        ensures limit { IfOk result (λ n. n ≤ 2 ^ 62) }
        ensures told { IfOk result (HoldsLength (Some self.old.bytes.items)) }
        ensures held { Some self.new.bytes.items ≡ Some self.old.bytes.items }
        ensures ranges { Some self.new.ranges.items ≡ Some self.old.ranges.items }
        ensures names { (tally_of self.new.calls.counts).names ≡ names_by name.now result (tally_of self.old.calls.counts).names }
        ensures cause { HasCause (nameless (tally_of self.old.calls.counts)) (nameless (tally_of self.new.calls.counts)) result }

        ensures only_faults { IsErr result → IsErrOf result Fault }
        ensures exact { IsErrOf result Fault ↔ Contains (source_failing self.old) (source_calls self.old) }
        ensures counted { CountsFault (source_failing self.old) (source_calls self.old) self.old.calls.counts.faults self.new.calls.counts.faults }
        ensures write_faults { self.new.calls.counts.write_faults ≡ self.old.calls.counts.write_faults }
        ensures failing { source_failing self.new ≡ source_failing self.old }
        ensures calls { source_calls self.new ≡ min (source_calls self.old + 1) (2 ^ 64 - 1) }
    {
        self.calls.begin()?;
        let size = self.bytes.len() as u64;
        self.size = Some(size);
        Ok(size)
    }

    fn read_at(&mut self, at: u64, into: &mut [u8]) -> Result<(), Failed>
        requires within { (n : ℕ) × (self.old.size ≡ Some n) × (at + len into.old ≤ n) }
        requires some { 0 < len into.old }
        ensures bytes { OnOk result (Reads (Some self.old.bytes.items) at into.new) }
        ensures logged { OnOk result (Some self.new.ranges.items ≡ logged at (len into.old) (Some self.old.ranges.items)) }
        ensures log_err { OnErr result (MayLog at (len into.old) (Some self.old.ranges.items) (Some self.new.ranges.items)) }
        ensures held { Some self.new.bytes.items ≡ Some self.old.bytes.items }
        ensures attached { self.new.size ≡ self.old.size }
        ensures cause { HasCause (tally_of self.old.calls.counts) (tally_of self.new.calls.counts) result }

        // A failing call logs nothing.
        ensures unlogged { OnErr result (self.new.ranges.items ≡ self.old.ranges.items) }
        ensures exact { IsErrOf result Fault ↔ Contains (source_failing self.old) (source_calls self.old) }
        ensures counted { CountsFault (source_failing self.old) (source_calls self.old) self.old.calls.counts.faults self.new.calls.counts.faults }
        ensures write_faults { self.new.calls.counts.write_faults ≡ self.old.calls.counts.write_faults }
        ensures failing { source_failing self.new ≡ source_failing self.old }
        ensures calls { source_calls self.new ≡ min (source_calls self.old + 1) (2 ^ 64 - 1) }
    {
        self.calls.begin()?;
        if self.ranges.push((at, into.len() as u64)).is_err() {
            return self.calls.counts.want();
        }
        let from = at as usize;
        let to = from + into.len();
        into.copy_from_slice(&self.bytes[from..to]);
        Ok(())
    }

    ghost agrees = { λ s n e. agrees_of s.size (len s.bytes.items) n s.whole e };

    ghost near = { λ s n e. s.near n e };

    ghost octets = { λ s. s.octets };
}

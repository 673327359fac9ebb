//! A sink in memory, whose calls can be set to fail.
ghost use Rattle.std.specs.Prelude.{◌≡◌, ◌+◌, ◌-◌, ◌^◌, ◌<◌, ◌≤◌, ◌||◌, ◌↔◌, IsTrue, false, min, if◌then◌else◌};
ghost use Rattle.std.specs.Prelude.{[], length as len, take, Contains, Some, OnOk, OnErr, IsErr, IsErrOf, is_ok};
ghost use Rattle.fz_base.specs.Counts.{HasCause, CountsFault, nameless, tally_of, uncounted, Rose};
ghost use Rattle.fz_base.specs.Names.{names_by};
ghost use Rattle.fz_base.specs.Sink.{written, MayWrite, emptied, KeepsFront};
ghost use Rattle.fz_base.specs.declared.failure.Failed.TheVariants.{Fault, NoMemory};

use crate::calls::{Calls, Counts};
use crate::placing::put;
use crate::{Failed, Sink};
use std::alloc::Global;

/// A sink in memory. It shows its contents, and fails in the calls of `create`, `write_at` and
/// `finish`, counted together from 0, that it is set to.
#[derive(Drop)]
pub struct MemSink {
    data: Vec<u8>,
    created: bool,
    finished: bool,
    keep: u32,
    calls: Calls,
}

impl MemSink {
    ghost use Rattle.fz_base.specs.MemSink.{sink_failing, sink_calls, sink_keep};

    /// An empty sink. The calls whose numbers are in `failing` will fail, and a failing `write_at`
    /// keeps the first `keep` bytes.
    pub fn new(alloc: Global, failing: Vec<u32>, keep: u32) -> MemSink
        ensures contents { ⟦<MemSink as Sink>⟧.contents result ≡ Some [] }
        ensures created { ⟦<MemSink as Sink>⟧.created result ≡ false }
        ensures finished { ⟦<MemSink as Sink>⟧.finished result ≡ false }
        ensures tally { ⟦<MemSink as Sink>⟧.tally result ≡ uncounted }
        ensures failing { sink_failing result ≡ failing.items }
        ensures calls { sink_calls result ≡ 0 }
        ensures keep { sink_keep result ≡ keep }
    {
        MemSink {
            data: Vec::new(alloc),
            created: false,
            finished: false,
            keep,
            calls: Calls::new(failing),
        }
    }

    /// What was written.
    pub fn contents(&self) -> &[u8]
        ensures { ⟦<MemSink as Sink>⟧.contents self.now ≡ Some result.now }
    {
        &self.data
    }

    /// How often a call failed.
    pub fn faults(&self) -> u64
        ensures { result ≡ (⟦<MemSink as Sink>⟧.tally self.now).faults }
    {
        self.calls.counts.faults
    }
}

// Writes what a failing call keeps, or counts a want if there is no memory for it.
fn put_front(contents: &mut Vec<u8>, counts: &mut Counts, at: u64, bytes: &[u8], keep: u32)
    ensures kept { KeepsFront at (take keep bytes.now) (Some contents.old.items) (Some contents.new.items) counts.old.wants counts.new.wants }
    ensures faults { counts.new.faults ≡ counts.old.faults }
    ensures wants { counts.old.wants ≤ counts.new.wants }
    ensures wants_stay { counts.old.wants ≡ 2 ^ 64 - 1 → counts.new.wants ≡ 2 ^ 64 - 1 }
{
    let kept = bytes.len().min(keep as usize);
    if put(contents, at, &bytes[..kept]).is_err() {
        let _ = counts.want::<()>();
    }
}

impl Sink for MemSink {
    ghost use Rattle.fz_base.specs.MemSink.{sink_failing, sink_calls, sink_keep};

    ghost contents = { λ s. Some s.data.items };

    ghost created = { λ s. s.created };

    ghost finished = { λ s. s.finished };

    ghost tally = { λ s. tally_of s.calls.counts };

    fn create(&mut self, name: &str) -> Result<(), Failed>
        ensures contents { Some self.new.data.items ≡ (if is_ok result then emptied (Some self.old.data.items) else Some self.old.data.items) }
        ensures created { self.new.created ≡ (is_ok result || self.old.created) }
        ensures finished { self.new.finished ≡ (if is_ok result then false else self.old.finished) }
        ensures names { (tally_of self.new.calls.counts).names ≡ names_by name.now result (tally_of self.old.calls.counts).names }
        ensures cause { HasCause (nameless (tally_of self.old.calls.counts)) (nameless (tally_of self.new.calls.counts)) result }

        ensures only_faults { IsErr result → IsErrOf result Fault }
        ensures exact { IsErrOf result Fault ↔ Contains (sink_failing self.old) (sink_calls self.old) }
        ensures counted { CountsFault (sink_failing self.old) (sink_calls self.old) self.old.calls.counts.faults self.new.calls.counts.faults }
        ensures failing { sink_failing self.new ≡ sink_failing self.old }
        ensures calls { sink_calls self.new ≡ min (sink_calls self.old + 1) (2 ^ 64 - 1) }
        ensures keep { sink_keep self.new ≡ sink_keep self.old }
    {
        self.calls.begin()?;
        self.data.clear();
        self.created = true;
        self.finished = false;
        Ok(())
    }

    fn write_at(&mut self, at: u64, bytes: &[u8]) -> Result<(), Failed>
        requires created { IsTrue self.old.created }
        requires some { 0 < len bytes.now }
        ensures written { OnOk result (Some self.new.data.items ≡ written at bytes.now (Some self.old.data.items)) }
        ensures partly { OnErr result (MayWrite at bytes.now (Some self.old.data.items) (Some self.new.data.items)) }
        ensures created { self.new.created ≡ self.old.created }
        ensures finished { self.new.finished ≡ false }
        ensures cause { HasCause (tally_of self.old.calls.counts) (tally_of self.new.calls.counts) result }

        ensures exact { IsErrOf result Fault ↔ Contains (sink_failing self.old) (sink_calls self.old) }
        ensures counted { CountsFault (sink_failing self.old) (sink_calls self.old) self.old.calls.counts.faults self.new.calls.counts.faults }
        // Without memory nothing is written.
        ensures nothing { IsErrOf result NoMemory → self.new.data.items ≡ self.old.data.items }
        // A failing call keeps the front of the bytes, if there is memory for it.
        ensures kept { IsErrOf result Fault → KeepsFront at (take (sink_keep self.old) bytes.now)
            (Some self.old.data.items) (Some self.new.data.items) self.old.calls.counts.wants self.new.calls.counts.wants }
        ensures failing { sink_failing self.new ≡ sink_failing self.old }
        ensures calls { sink_calls self.new ≡ min (sink_calls self.old + 1) (2 ^ 64 - 1) }
        ensures keep { sink_keep self.new ≡ sink_keep self.old }
    {
        self.finished = false;
        match self.calls.begin() {
            Ok(()) => match put(&mut self.data, at, bytes) {
                Ok(()) => Ok(()),
                Err(_) => self.calls.counts.want(),
            },
            Err(failed) => {
                put_front(&mut self.data, &mut self.calls.counts, at, bytes, self.keep);
                Err(failed)
            }
        }
    }

    fn finish(&mut self) -> Result<(), Failed>
        requires { IsTrue self.old.created }
        ensures contents { Some self.new.data.items ≡ Some self.old.data.items }
        ensures created { self.new.created ≡ self.old.created }
        ensures finished { self.new.finished ≡ (is_ok result || self.old.finished) }
        ensures cause { HasCause (tally_of self.old.calls.counts) (tally_of self.new.calls.counts) result }

        ensures only_faults { IsErr result → IsErrOf result Fault }
        ensures exact { IsErrOf result Fault ↔ Contains (sink_failing self.old) (sink_calls self.old) }
        ensures counted { CountsFault (sink_failing self.old) (sink_calls self.old) self.old.calls.counts.faults self.new.calls.counts.faults }
        ensures failing { sink_failing self.new ≡ sink_failing self.old }
        ensures calls { sink_calls self.new ≡ min (sink_calls self.old + 1) (2 ^ 64 - 1) }
        ensures keep { sink_keep self.new ≡ sink_keep self.old }
    {
        self.calls.begin()?;
        self.finished = true;
        Ok(())
    }
}

//! A text in memory, whose calls can be set to fail.
ghost use Rattle.std.specs.Prelude.{◌≡◌, ◌+◌, ◌-◌, ◌^◌, ◌↔◌, Some, [], OnOk, OnErr, IsErrOf, Contains, min};
ghost use Rattle.fz_base.specs.Counts.{HasCause, CountsFault, tally_of, uncounted};
ghost use Rattle.fz_base.specs.Sink.{appended, MayAppend};
ghost use Rattle.fz_base.specs.declared.failure.Failed.TheVariants.{Fault};

use crate::calls::Calls;
use crate::{Failed, Text};
use std::alloc::Global;

/// A text in memory. It shows its contents, and fails in the calls of `put`, counted from 0, that
/// it is set to; a failing `put` writes nothing.
#[derive(Drop)]
pub struct MemText {
    data: Vec<u8>,
    calls: Calls,
}

impl MemText {
    ghost use Rattle.fz_base.specs.MemText.{text_failing, text_calls};

    /// An empty text. The calls whose numbers are in `failing` will fail.
    pub fn new(alloc: Global, failing: Vec<u32>) -> MemText
        ensures contents { ⟦<MemText as Text>⟧.contents result ≡ Some [] }
        ensures tally { ⟦<MemText as Text>⟧.tally result ≡ uncounted }
        ensures failing { text_failing result ≡ failing.items }
        ensures calls { text_calls result ≡ 0 }
    {
        MemText {
            data: Vec::new(alloc),
            calls: Calls::new(failing),
        }
    }

    /// What was put.
    pub fn contents(&self) -> &[u8]
        ensures { ⟦<MemText as Text>⟧.contents self.now ≡ Some result.now }
    {
        &self.data
    }

    /// How often a call failed.
    pub fn faults(&self) -> u64
        ensures { result ≡ (⟦<MemText as Text>⟧.tally self.now).faults }
    {
        self.calls.counts.faults
    }
}

impl Text for MemText {
    ghost use Rattle.fz_base.specs.MemText.{text_failing, text_calls};

    ghost contents = { λ t. Some t.data.items };

    ghost tally = { λ t. tally_of t.calls.counts };

    fn put(&mut self, bytes: &[u8]) -> Result<(), Failed>
        ensures appended { OnOk result (Some self.new.data.items ≡ appended bytes.now (Some self.old.data.items)) }
        ensures partly { OnErr result (MayAppend bytes.now (Some self.old.data.items) (Some self.new.data.items)) }
        ensures cause { HasCause (tally_of self.old.calls.counts) (tally_of self.new.calls.counts) result }

        ensures exact { IsErrOf result Fault ↔ Contains (text_failing self.old) (text_calls self.old) }
        ensures counted { CountsFault (text_failing self.old) (text_calls self.old) self.old.calls.counts.faults self.new.calls.counts.faults }
        // A failing call appends nothing.
        ensures nothing { OnErr result (self.new.data.items ≡ self.old.data.items) }
        ensures failing { text_failing self.new ≡ text_failing self.old }
        ensures calls { text_calls self.new ≡ min (text_calls self.old + 1) (2 ^ 64 - 1) }
    {
        self.calls.begin()?;
        match self.data.extend_from_slice(bytes) {
            Ok(()) => Ok(()),
            Err(_) => self.calls.counts.want(),
        }
    }
}

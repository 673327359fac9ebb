//! A sink in memory that never fails but for want of memory.
ghost use Rattle.std.specs.Prelude.{◌≡◌, [], Some, false};
ghost use Rattle.fz_base.specs.Counts.{uncounted};
ghost use Rattle.fz_base.specs.MemSink.{sink_failing};
ghost use Rattle.fz_app.specs.Memory.{without_faults};

use fz_base::{Failed, MemSink, Sink};
use std::alloc::Global;

/// A sink over bytes in memory of which no call has a fault: it fails only for want of memory. It shows its contents.
#[derive(Drop)]
pub(crate) struct FixedSink {
    sink: MemSink,
    ghost never: { sink_failing sink ≡ [] },
}

impl FixedSink {
    /// An empty sink.
    pub(crate) fn new(alloc: Global) -> FixedSink
        ensures contents { ⟦<FixedSink as Sink>⟧.contents result ≡ Some [] }
        ensures created { ⟦<FixedSink as Sink>⟧.created result ≡ false }
        ensures finished { ⟦<FixedSink as Sink>⟧.finished result ≡ false }
        ensures tally { ⟦<FixedSink as Sink>⟧.tally result ≡ uncounted }
    {
        FixedSink {
            sink: MemSink::new(alloc, Vec::new(alloc), 0),
        }
    }

    /// What was written.
    pub(crate) fn contents(&self) -> &[u8]
        ensures { ⟦<FixedSink as Sink>⟧.contents self.now ≡ Some result.now }
    {
        self.sink.contents()
    }
}

impl Sink for FixedSink {
    ghost use Rattle.fz_app.specs.Memory.{without_faults};

    ghost contents = { λ s. ⟦<MemSink as Sink>⟧.contents s.sink };

    ghost created = { λ s. ⟦<MemSink as Sink>⟧.created s.sink };

    ghost finished = { λ s. ⟦<MemSink as Sink>⟧.finished s.sink };

    ghost tally = { λ s. without_faults (⟦<MemSink as Sink>⟧.tally s.sink) };

    fn create(&mut self, name: &str) -> Result<(), Failed> {
        self.sink.create(name)
    }

    fn write_at(&mut self, at: u64, bytes: &[u8]) -> Result<(), Failed> {
        self.sink.write_at(at, bytes)
    }

    fn finish(&mut self) -> Result<(), Failed> {
        self.sink.finish()
    }
}

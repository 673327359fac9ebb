//! Objects that are there by one name only: a call with another name is a fault. They tell nothing of names to contracts.
ghost use Rattle.std.specs.Prelude.{None, [], Some, ◌≡◌};

use fz_base::{Failed, MemSink, Sink, Source};

/// A source with a name, over another. It shows no bytes to contracts, as a real file does.
#[derive(Drop)]
pub(crate) struct NamedSource<S: Source + Drop> {
    source: S,
    name: String,
    opened: u64,
    faults: u64,
}

impl<S: Source + Drop> NamedSource<S> {
    pub(crate) fn new(source: S, name: String) -> NamedSource<S> {
        NamedSource {
            source,
            name,
            opened: 0,
            faults: 0,
        }
    }

    /// The source that has the name.
    pub(crate) fn source(&self) -> &S {
        &self.source
    }

    /// How often it was opened.
    pub(crate) fn opened(&self) -> u64 {
        self.opened
    }

    /// How often a call failed.
    pub(crate) fn faults(&self) -> u64 {
        self.faults
    }
}

impl<S: Source + Drop> Source for NamedSource<S> {
    ghost use Rattle.fz_base.specs.Counts.{Tally, unamended};

    ghost held = { λ _. None };

    ghost ranges = { λ _. None };

    ghost attached = { λ s. S.attached s.source };

    ghost tally = { λ s. record { faults = s.faults; wants = (S.tally s.source).wants; names = None; amended = unamended } };

    fn attach(&mut self, name: &str) -> Result<u64, Failed> {
        if name != self.name.as_str() {
            self.faults = self.faults.saturating_add(1);
            return Err(Failed::Fault);
        }
        let answer = self.source.attach(name);
        match answer {
            Ok(_) => self.opened = self.opened.saturating_add(1),
            Err(Failed::Fault) => self.faults = self.faults.saturating_add(1),
            Err(Failed::NoMemory) => {}
        }
        answer
    }

    fn read_at(&mut self, at: u64, into: &mut [u8]) -> Result<(), Failed> {
        let answer = self.source.read_at(at, into);
        if answer == Err(Failed::Fault) {
            self.faults = self.faults.saturating_add(1);
        }
        answer
    }

    ghost agrees = { λ _ _ _. tt };

    ghost near = { λ s n e. S.near s.source n e };

    ghost octets = { λ _. tt };
}

/// A sink in memory with a name.
#[derive(Drop)]
pub(crate) struct NamedSink {
    sink: MemSink,
    name: String,
    made: u64,
    faults: u64,
}

impl NamedSink {
    pub(crate) fn new(sink: MemSink, name: String) -> NamedSink
        requires empty { ⟦<MemSink as Sink>⟧.contents sink ≡ Some [] }
        ensures empty { ⟦<NamedSink as Sink>⟧.contents result ≡ Some [] }
    {
        NamedSink {
            sink,
            name,
            made: 0,
            faults: 0,
        }
    }

    /// How often it was made.
    pub(crate) fn made(&self) -> u64 {
        self.made
    }

    /// What was written.
    pub(crate) fn contents(&self) -> &[u8] {
        self.sink.contents()
    }

    /// How often a call failed.
    pub(crate) fn faults(&self) -> u64 {
        self.faults
    }
}

impl Sink for NamedSink {
    ghost use Rattle.fz_base.specs.Counts.{Tally, unamended};

    ghost contents = { λ s. ⟦<MemSink as Sink>⟧.contents s.sink };

    ghost created = { λ s. ⟦<MemSink as Sink>⟧.created s.sink };

    ghost finished = { λ s. ⟦<MemSink as Sink>⟧.finished s.sink };

    ghost tally = { λ s. record {
      faults = s.faults;
      wants = (⟦<MemSink as Sink>⟧.tally s.sink).wants;
      names = None;
      amended = unamended;
    } };

    fn create(&mut self, name: &str) -> Result<(), Failed> {
        if name != self.name.as_str() {
            self.faults = self.faults.saturating_add(1);
            return Err(Failed::Fault);
        }
        let answer = self.sink.create(name);
        match answer {
            Ok(()) => self.made = self.made.saturating_add(1),
            Err(Failed::Fault) => self.faults = self.faults.saturating_add(1),
            Err(Failed::NoMemory) => {}
        }
        answer
    }

    fn write_at(&mut self, at: u64, bytes: &[u8]) -> Result<(), Failed> {
        let answer = self.sink.write_at(at, bytes);
        if answer == Err(Failed::Fault) {
            self.faults = self.faults.saturating_add(1);
        }
        answer
    }

    fn finish(&mut self) -> Result<(), Failed> {
        let answer = self.sink.finish();
        if answer == Err(Failed::Fault) {
            self.faults = self.faults.saturating_add(1);
        }
        answer
    }
}

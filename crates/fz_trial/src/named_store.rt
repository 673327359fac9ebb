//! A store with a name: a call with another name is a fault.
ghost use Rattle.std.specs.Prelude.{None};

use fz_base::{Failed, Source, Store};

/// A store with a name, over another. It tells nothing to contracts, as a real file does.
#[derive(Drop)]
pub(crate) struct NamedStore<D: Store + Drop> {
    store: D,
    name: String,
    opened: u64,
    amended: u64,
    settled: u64,
    /// How many writes were made before each of the first settlings.
    settles: [u64; 4],
    misnamed: u64,
}

impl<D: Store + Drop> NamedStore<D> {
    pub(crate) fn new(store: D, name: String) -> NamedStore<D> {
        NamedStore {
            store,
            name,
            opened: 0,
            amended: 0,
            settled: 0,
            settles: [0; 4],
            misnamed: 0,
        }
    }

    /// How often it was opened.
    pub(crate) fn opened(&self) -> u64 {
        self.opened
    }

    /// How often it was waited for.
    pub(crate) fn settled(&self) -> u64 {
        self.settled
    }

    /// How many writes had been made when it was waited for, each time; at most the first four times.
    pub(crate) fn settles(&self) -> &[u64] {
        &self.settles[..self.settled.min(4) as usize]
    }

    /// The store that has the name.
    pub(crate) fn store(&self) -> &D {
        &self.store
    }
}

impl<D: Store + Drop> Source for NamedStore<D> {
    ghost use Rattle.std.specs.Prelude.{◌+◌, min, ◌^◌, ◌-◌};
    ghost use Rattle.fz_base.specs.Counts.{Tally};

    ghost held = { λ _. None };

    ghost ranges = { λ _. None };

    ghost attached = { λ s. D.attached s.store };

    ghost tally = { λ s. record {
      faults = min ((D.tally s.store).faults + s.misnamed) (2 ^ 64 - 1);
      wants = (D.tally s.store).wants;
      names = None;
      amended = record { writes = None; settled = 0; faults = (D.tally s.store).amended.faults };
    } };

    fn attach(&mut self, name: &str) -> Result<u64, Failed> {
        if name != self.name.as_str() {
            self.misnamed = self.misnamed.saturating_add(1);
            return Err(Failed::Fault);
        }
        let answer = self.store.attach(name);
        if answer.is_ok() {
            self.opened = self.opened.saturating_add(1);
        }
        answer
    }

    fn read_at(&mut self, at: u64, into: &mut [u8]) -> Result<(), Failed> {
        self.store.read_at(at, into)
    }

    ghost agrees = { λ _ _ _. tt };

    ghost near = { λ s n e. D.near s.store n e };

    ghost octets = { λ _. tt };
}

impl<D: Store + Drop> Store for NamedStore<D> {
    fn amend(&mut self, at: u64, bytes: &[u8]) -> Result<(), Failed> {
        self.store.amend(at, bytes)?;
        self.amended = self.amended.saturating_add(1);
        Ok(())
    }

    fn settle(&mut self) -> Result<(), Failed> {
        if self.settled < 4 {
            self.settles[self.settled as usize] = self.amended;
        }
        self.settled = self.settled.saturating_add(1);
        Ok(())
    }
}

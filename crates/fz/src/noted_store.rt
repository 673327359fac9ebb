//! The store of the program: FILE of `patch`, of which the first call that failed is kept.
ghost use Rattle.std.specs.Prelude.{◌≡◌};

use crate::telling::first_failing;
use fz_base::{Failed, Source, Store};
use fz_hints::Failing;

/// A store that keeps which call failed first.
#[derive(Drop)]
pub struct NotedStore<S: Store> {
    store: S,
    failing: Failing,
}

impl<S: Store> NotedStore<S> {
    /// This store, of which no call failed yet.
    pub fn new(store: S) -> NotedStore<S>
        ensures { result.store ≡ store }
    {
        NotedStore {
            store,
            failing: Failing::Nothing,
        }
    }

    /// The first call that failed.
    pub fn failing(&self) -> Failing {
        self.failing
    }
}

impl<S: Store> Source for NotedStore<S> {
    ghost held = { λ s. S.held s.store };

    ghost ranges = { λ s. S.ranges s.store };

    ghost attached = { λ s. S.attached s.store };

    ghost tally = { λ s. S.tally s.store };

    fn attach(&mut self, name: &str) -> Result<u64, Failed> {
        let answer = self.store.attach(name);
        self.failing = first_failing(self.failing, Failing::Opening, &answer);
        answer
    }

    fn read_at(&mut self, at: u64, into: &mut [u8]) -> Result<(), Failed> {
        let answer = self.store.read_at(at, into);
        self.failing = first_failing(self.failing, Failing::Reading, &answer);
        answer
    }

    ghost agrees = { λ s. S.agrees s.store };

    ghost near = { λ s. S.near s.store };

    ghost octets = { λ s. S.octets s.store };
}

impl<S: Store> Store for NotedStore<S> {
    fn amend(&mut self, at: u64, bytes: &[u8]) -> Result<(), Failed> {
        let answer = self.store.amend(at, bytes);
        self.failing = first_failing(self.failing, Failing::Writing, &answer);
        answer
    }

    fn settle(&mut self) -> Result<(), Failed> {
        let answer = self.store.settle();
        self.failing = first_failing(self.failing, Failing::Writing, &answer);
        answer
    }
}

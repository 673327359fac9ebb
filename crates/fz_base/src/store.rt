//! A file that is read, and written in place.
ghost use Rattle.std.specs.Prelude.{◌≡◌, ◌+◌, ◌^◌, ◌≤◌, ◌<◌, length as len, IsSome, OnOk, OnErr};
ghost use Rattle.fz_base.specs.Sink.{written};
ghost use Rattle.fz_base.specs.Store.{HasAmended, HasAtLeast, MayAmend, Reaches, amend_of, amended_by, settled_by};

use crate::{Failed, Source};
use std::marker::Model;

/// One write in place: where it begins, and its bytes.
#[derive(Drop)]
pub struct Write {
    pub(crate) at: u64,
    pub(crate) bytes: Vec<u8>,
}

impl Model for Write {
    ghost use Rattle.fz_base.specs.Counts.{Amend};

    ghost Value = { Amend };

    ghost view = { λ w. record { at = w.at; bytes = w.bytes.items } };
}

impl Write {
    /// The place of its first byte.
    pub fn at(&self) -> u64
        ensures { result ≡ self.now.at }
    {
        self.at
    }

    /// Its bytes.
    pub fn bytes(&self) -> &[u8]
        ensures { result.now ≡ self.now.bytes }
    {
        &self.bytes
    }
}

/// What was done to a store.
#[derive(Clone, Copy, Debug, PartialEq, Eq)]
pub enum StoreEvent {
    /// A write in place.
    Amend,
    /// All writes so far were settled.
    Settle,
}

/// A source that is also written in place. Its tally shows the writes, one after another, if the store
/// knows them, and how many of them are settled, and counts a failed write apart from a failed read.
pub trait Store: Source {
    /// Puts all bytes over those from `at` on, or directly after the last byte.
    fn amend(&mut self, at: u64, bytes: &[u8]) -> Result<(), Failed>
        requires within { HasAtLeast (Self.attached self.old) at }
        requires near { at + len bytes.now ≤ 2 ^ 62 }
        requires some { 0 < len bytes.now }
        ensures amended { OnOk result (Self.held self.new ≡ written at bytes.now (Self.held self.old)) }
        ensures partly { OnErr result (MayAmend at (len bytes.now) (Self.held self.old) (Self.held self.new)) }
        ensures reach { Reaches at (len bytes.now) (Self.attached self.old) (Self.attached self.new) result }
        ensures ranges { Self.ranges self.new ≡ Self.ranges self.old }
        ensures cause { HasAmended (Self.tally self.old) (amended_by (amend_of at bytes.now) (Self.tally self.old)) (Self.tally self.new) result };

    /// Waits until all that was written is on the disk, so that no later write is there before it: all writes are settled.
    fn settle(&mut self) -> Result<(), Failed>
        requires { IsSome (Self.attached self.old) }
        ensures held { Self.held self.new ≡ Self.held self.old }
        ensures attached { Self.attached self.new ≡ Self.attached self.old }
        ensures ranges { Self.ranges self.new ≡ Self.ranges self.old }
        ensures cause { HasAmended (Self.tally self.old) (settled_by (Self.tally self.old)) (Self.tally self.new) result };
}

//! The view as a source.
ghost use Rattle.std.specs.Prelude.{ℕ, ◌≡◌, ◌+◌, ◌<◌, ◌≤◌, List, length as len, OnErr, OnOk, Option, Some, None};
ghost use Rattle.fz_base.specs.Counts.{HasCause};
ghost use Rattle.fz_base.specs.Source.{MayLog, Reads, logged};
ghost use Rattle.fz_retile.specs.Views.{KeepsFirst, restored_from, with_more};

use crate::view::PlainView;
use fz_base::{Failed, Source};

impl<'a, S: Source> Source for PlainView<'a, S> {
    ghost use Rattle.fz_retile.specs.Views.{agrees_of, near_of};

    ghost held = { λ s. restored_from (S.held s.inner.now) };

    ghost ranges = { λ _. None };

    ghost attached = { λ s. Some s.plain_len };

    ghost tally = { λ s. with_more (S.tally s.inner.now) s.more };

    fn attach(&mut self, _name: &str) -> Result<u64, Failed> {
        Ok(self.plain_len)
    }

    fn read_at(&mut self, at: u64, into: &mut [u8]) -> Result<(), Failed>
        requires within { (n : ℕ) × (Some self.old.plain_len ≡ Some n) × (at + len into.old ≤ n) }
        requires some { 0 < len into.old }
        ensures bytes { OnOk result (Reads (restored_from (S.held self.old.inner.now)) at into.new) }
        ensures logged { OnOk result (None ≡ logged at (len into.old) None) }
        ensures log_err { OnErr result (MayLog at (len into.old) None None) }
        ensures held { restored_from (S.held self.new.inner.now) ≡ restored_from (S.held self.old.inner.now) }
        ensures attached { Some self.new.plain_len ≡ Some self.old.plain_len }
        ensures cause { HasCause (with_more (S.tally self.old.inner.now) self.old.more) (with_more (S.tally self.new.inner.now) self.new.more) result }

        // The refusal that is kept is the first.
        ensures later { KeepsFirst self.old.later self.new.later result }
    {
        self.read_plain(at, into)
    }

    ghost agrees = { λ s n e. agrees_of (S.held s.inner.now) s.plain_len n s.fits e };

    ghost near = { λ s n e. near_of s.plain_len n s.fixed.short e };

    ghost octets = { λ s. s.octets };
}

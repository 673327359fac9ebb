//! A view whose type keeps what no call changes.
ghost use Rattle.std.specs.Prelude.{ℕ, ◌≡◌, ◌+◌, ◌<◌, ◌≤◌, List, OnErr, OnOk, Option, length as len, Some, None};
ghost use Rattle.std.proofs.Props.{props};
ghost use Rattle.fz_base.specs.Counts.{HasCause, Tally, uncounted};
ghost use Rattle.fz_base.specs.Source.{MayLog, Reads, logged};
ghost use Rattle.fz_look.specs.Looked.{buffers_of};
ghost use Rattle.fz_retile.specs.Views.{KeepsFirst, restored_from, with_more};

use crate::view::PlainView;
use fz_base::{Failed, Source};
use std::marker::{Brand, PhantomData};

/// What no call through a view changes, for proofs only.
pub trait Origin {
    ghost name: { ℕ };

    ghost tally: { Tally };

    ghost ranges: { Option (List (ℕ × ℕ)) };

    ghost held: { Option (List ℕ) };

    ghost file: { ℕ };

    ghost length: { ℕ };

    ghost space: { ℕ };
}

impl Origin for Brand {
    ghost name = { 0 };

    ghost tally = { uncounted };

    ghost ranges = { None };

    ghost held = { None };

    ghost file = { 0 };

    ghost length = { 0 };

    ghost space = { 0 };
}

/// A view that is pinned to where it began: to its reference, to the counts and the bytes of its source, and to the
/// lengths of the packed file and of the one that it stands for.
pub struct Pinned<'a, S: Source, L: Origin> {
    pub view: PlainView<'a, S>,
    pub of: PhantomData<L>,
    ghost same_name: { view.inner.ghost_name ≡ L.name },
    ghost same_tally: { S.tally view.start.value ≡ L.tally } by { Prim.hlevel props },
    ghost same_ranges: { S.ranges view.start.value ≡ L.ranges } by { Prim.hlevel props },
    ghost same_held: { S.held view.inner.now ≡ L.held } by { Prim.hlevel props },
    ghost same_file: { view.length ≡ L.file },
    ghost same_length: { view.plain_len ≡ L.length },
    ghost same_space: { buffers_of view.space ≡ L.space },
}

impl<'a, S: Source, L: Origin> Source for Pinned<'a, S, L> {
    ghost use Rattle.fz_retile.specs.Views.{agrees_of, near_of};

    ghost held = { λ s. restored_from (S.held s.view.inner.now) };

    ghost ranges = { λ _. None };

    ghost attached = { λ s. Some s.view.plain_len };

    ghost tally = { λ s. with_more (S.tally s.view.inner.now) s.view.more };

    fn attach(&mut self, _name: &str) -> Result<u64, Failed> {
        Ok(self.view.plain_len)
    }

    fn read_at(&mut self, at: u64, into: &mut [u8]) -> Result<(), Failed>
        requires within { (n : ℕ) × (Some self.old.view.plain_len ≡ Some n) × (at + len into.old ≤ n) }
        requires some { 0 < len into.old }
        ensures bytes { OnOk result (Reads (restored_from (S.held self.old.view.inner.now)) at into.new) }
        ensures logged { OnOk result (None ≡ logged at (len into.old) None) }
        ensures log_err { OnErr result (MayLog at (len into.old) None None) }
        ensures held { restored_from (S.held self.new.view.inner.now) ≡ restored_from (S.held self.old.view.inner.now) }
        ensures attached { Some self.new.view.plain_len ≡ Some self.old.view.plain_len }
        ensures cause { HasCause (with_more (S.tally self.old.view.inner.now) self.old.view.more)
            (with_more (S.tally self.new.view.inner.now) self.new.view.more) result }

        // The refusal that is kept is the first.
        ensures later { KeepsFirst self.old.view.later self.new.view.later result }
    {
        self.view.read_plain(at, into)
    }

    ghost agrees = { λ s n e. agrees_of (S.held s.view.inner.now) s.view.plain_len n s.view.fits e };

    ghost near = { λ s n e. near_of s.view.plain_len n s.view.fixed.short e };

    ghost octets = { λ s. s.view.octets };
}

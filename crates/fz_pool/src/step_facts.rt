//! What the steps show.
ghost use Rattle.fz_pool.specs.Running.{TellsDraw, TellsHome, view_after_split, new_view, view_after_join, joined_view};

use crate::Slot;
use crate::board::View;
use atomic_table::{Join, Play, Split};

pub(crate) struct DrawFact;

impl Play<Option<Slot>, View> for DrawFact {
    ghost then = { TellsDraw };
}

pub(crate) struct HomeFact;

impl Play<Option<Slot>, View> for HomeFact {
    ghost then = { TellsHome };
}

pub(crate) struct SplitFact;

impl Split<View> for SplitFact {
    ghost left = { view_after_split };

    ghost right = { new_view };
}

pub(crate) struct JoinFact;

impl Join<View> for JoinFact {
    ghost both = { view_after_join };

    ghost spent = { joined_view };
}

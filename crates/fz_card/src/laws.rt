//! All laws of cards and names at once.
ghost use Rattle.fz_card.specs.Laws.{CardLaws};

use crate::made::made_cards_law;
use crate::names::numbers_law;
use crate::quoted::text_law;
use crate::tables::names_law;
use crate::text::blanks_law;
use crate::value::{int_law, logical_law};
use crate::zero::zero_law;

/// The laws of cards that are made, of values, of numbered names, of the tables of names and of blanks, for callers
/// that want many of them.
pub fn card_laws()
    ensures { CardLaws }
{
    made_cards_law();
    int_law();
    logical_law();
    text_law();
    zero_law();
    numbers_law();
    names_law();
    blanks_law();
}

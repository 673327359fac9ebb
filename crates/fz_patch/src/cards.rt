//! The cards PCOUNT, TFORM1 and TFORM2, by which the new codes belong to the heap.
ghost use Rattle.std.specs.Prelude.{◌≡◌, ◌+◌, ◌<◌, ◌≤◌, ◌^◌, [], ◌∷◌, IsTrue, length as len, not, ◌==◌, OnOk};
ghost use Rattle.std.specs.List.{list_all};
ghost use Rattle.fz_base.specs.Store.{HasAtLeast, IsSettled};
ghost use Rattle.fz_block.specs.Facts.{IsHeaderOf};
ghost use Rattle.fz_laws.specs.Writes.{card_write};
ghost use Rattle.fz_sum.specs.Cards.{with_card};
ghost use Rattle.fz_patch.specs.Cards.{IsCardIn, form_write, forms_writes, pcount_at, with_form, with_forms};
ghost use Rattle.fz_target.specs.Ends.{AmendsStore};
ghost use Rattle.fz_target.specs.Measures.{HasRoom};
ghost use Rattle.fz_target.specs.Steps.{KeepsReach, Wrote, WroteSome};
ghost use Rattle.fz_target.specs.Targets.{IsTarget};

use crate::column::Forms;
use crate::places::Places;
use crate::settled::settle;
use fz_base::{Stop, Store, amend_at};
use fz_block::Header;
use fz_card::{CARD_LEN, Card, Name, int_card};
use fz_head::{coded_letter, form_card, stored_letter};
use fz_target::{Measure, Target};

/// Writes PCOUNT, and then the forms that have to say more. The buffer with the header is changed alike.
pub(crate) fn write_cards<D: Store>(
    store: &mut D,
    target: &Target,
    places: &Places,
    found: &Measure,
    forms: &Forms,
    buf: &mut [u8],
) -> Result<(), Stop>
    requires target { IsTarget target.now }
    requires room { HasRoom target.now found.now }
    requires within { HasAtLeast (D.attached store.old) (target.now.header.start + len buf.old) }
    requires near { target.now.header.start + len buf.old ≤ 2 ^ 62 }
    requires header { IsHeaderOf buf.old target.now.header }
    requires pcount { IsCardIn buf.old (pcount_at target.now) }
    requires coded { IsCardIn buf.old places.now.coded }
    requires stored { IsCardIn buf.old places.now.stored }
    ensures wrote { OnOk result (Wrote (forms_writes target.now places.now found.now forms.now) (D.held store.old) (D.held store.new)
        (D.tally store.old).amended.writes (D.tally store.new).amended.writes) }
    ensures some { WroteSome (forms_writes target.now places.now found.now forms.now) (D.held store.old) (D.held store.new)
        (D.tally store.old).amended.writes (D.tally store.new).amended.writes }
    ensures settled { OnOk result (IsSettled (D.tally store.new).amended) }
    ensures header { OnOk result (buf.new ≡ with_forms target.now places.now found.now forms.now buf.old) }
    ensures len { len buf.new ≡ len buf.old }
    ensures reach { KeepsReach (D.attached store.old) (D.attached store.new) }
    ensures cause { AmendsStore (D.tally store.old) (D.tally store.new) result }
{
    let header = &target.header;
    let plan = &target.image.plan;
    let heap = header.pcount + found.bytes;
    write_card(
        store,
        header,
        3 + header.axes.n,
        &int_card(Name::PCOUNT, heap as i64),
        buf,
    )?;
    write_form(
        store,
        target,
        1,
        places.coded,
        coded_letter(plan.codec),
        forms.coded,
        buf,
    )?;
    write_form(
        store,
        target,
        2,
        places.stored,
        stored_letter(plan),
        forms.stored,
        buf,
    )?;
    settle(store)
}

// Writes the form of a column in place of this card, if it has to say more.
fn write_form<D: Store>(
    store: &mut D,
    target: &Target,
    column: u32,
    place: u32,
    letter: &str,
    most: Option<u64>,
    buf: &mut [u8],
) -> Result<(), Stop>
    requires column { column < 10 }
    requires within { HasAtLeast (D.attached store.old) (target.now.header.start + len buf.old) }
    requires near { target.now.header.start + len buf.old ≤ 2 ^ 62 }
    requires place { IsCardIn buf.old place }
    requires letter { len letter.now ≡ 1 }
    requires unquoted { IsTrue (list_all (λ b. not (b == 39)) letter.now) }
    ensures wrote { OnOk result (Wrote (form_write target.now column place letter.now most) (D.held store.old) (D.held store.new)
        (D.tally store.old).amended.writes (D.tally store.new).amended.writes) }
    ensures some { WroteSome (form_write target.now column place letter.now most) (D.held store.old) (D.held store.new)
        (D.tally store.old).amended.writes (D.tally store.new).amended.writes }
    ensures header { OnOk result (buf.new ≡ with_form target.now column place letter.now most buf.old) }
    ensures len { len buf.new ≡ len buf.old }
    ensures reach { KeepsReach (D.attached store.old) (D.attached store.new) }
    ensures cause { AmendsStore (D.tally store.old) (D.tally store.new) result }
{
    match most {
        Some(most) => {
            let card = form_card(column, target.wide, letter, most);
            write_card(store, &target.header, place, &card, buf)
        }
        None => Ok(()),
    }
}

/// Writes a card in place of the card of this index, also in the buffer with the header.
pub(crate) fn write_card<D: Store>(
    store: &mut D,
    header: &Header,
    i: u32,
    card: &Card,
    buf: &mut [u8],
) -> Result<(), Stop>
    requires within { HasAtLeast (D.attached store.old) (header.now.start + len buf.old) }
    requires near { header.now.start + len buf.old ≤ 2 ^ 62 }
    requires card { IsCardIn buf.old i }
    ensures wrote { OnOk result (Wrote (card_write header.now i card.now.bytes ∷ []) (D.held store.old) (D.held store.new)
        (D.tally store.old).amended.writes (D.tally store.new).amended.writes) }
    ensures some { WroteSome (card_write header.now i card.now.bytes ∷ []) (D.held store.old) (D.held store.new)
        (D.tally store.old).amended.writes (D.tally store.new).amended.writes }
    ensures header { OnOk result (buf.new ≡ with_card i card.now.bytes buf.old) }
    ensures len { len buf.new ≡ len buf.old }
    ensures reach { KeepsReach (D.attached store.old) (D.attached store.new) }
    ensures cause { AmendsStore (D.tally store.old) (D.tally store.new) result }
{
    let at = header.start + CARD_LEN as u64 * u64::from(i);
    amend_at(store, at, &card.bytes)?;
    put_card(buf, i, card);
    Ok(())
}

/// Puts a card in place of the card of this index of a header.
pub(crate) fn put_card(buf: &mut [u8], i: u32, card: &Card)
    requires card { IsCardIn buf.old i }
    ensures header { buf.new ≡ with_card i card.now.bytes buf.old }
    ensures len { len buf.new ≡ len buf.old }
{
    let at = CARD_LEN * i as usize;
    buf[at..at + CARD_LEN].copy_from_slice(&card.bytes);
}

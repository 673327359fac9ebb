//! The checksums, if the header has them: DATASUM, and then CHECKSUM.
ghost use Rattle.std.specs.Prelude.{ℕ, ◌≡◌, ◌+◌, ◌-◌, ◌*◌, ◌<◌, ◌≤◌, ◌^◌, List, length as len, take, drop, ◌&&◌, is_none, IfOk, IfSome, OnOk};
ghost use Rattle.fz_base.specs.Keeps.{SourceStays};
ghost use Rattle.fz_base.specs.Stop.{OnlyReads};
ghost use Rattle.fz_base.specs.Store.{HasAtLeast, IsSettled};
ghost use Rattle.fz_block.specs.Facts.{IsHeaderOf};
ghost use Rattle.fz_block.specs.Header.{next_start_of};
ghost use Rattle.fz_laws.specs.Writes.{told_sum as told_sum_of};
ghost use Rattle.fz_sum.specs.Pieces.{after, nothing};
ghost use Rattle.fz_patch.specs.Cards.{IsCardIn, checksum_write, datasum_write, sums_writes, with_datasum};
ghost use Rattle.fz_target.specs.Ends.{AmendsStore};
ghost use Rattle.fz_target.specs.Steps.{KeepsReach, Wrote, WroteSome};

use crate::cards::{put_card, write_card};
use crate::settled::settle;
use fz_base::{Source, Stop, Store};
use fz_block::{Header, card, cards_law, data_start, next_start};
use fz_card::{FIELD_LEN, Name};
use fz_sum::{Sum, blank_checksum_card, checksum_card, datasum_card, sum_law};
use fz_table::first_named;

/// Writes the cards of the checksums that have a text, for the data of an HDU with this header, whose bytes are in the
/// buffer. Without such a card nothing is read or written.
pub(crate) fn write_sums<D: Store>(
    store: &mut D,
    header: &Header,
    buf: &mut [u8],
    copy: &mut [u8],
) -> Result<(), Stop>
    requires header { IsHeaderOf buf.old header.now }
    requires within { HasAtLeast (D.attached store.old) (next_start_of header.now) }
    requires end { next_start_of header.now ≤ 2 ^ 62 }
    requires copy { 4096 ≤ len copy.old }
    ensures wrote { OnOk result (IfSome (D.held store.old) (λ f. Wrote (sums_writes header.now f buf.old) (D.held store.old) (D.held store.new)
        (D.tally store.old).amended.writes (D.tally store.new).amended.writes)) }
    ensures some { IfSome (D.held store.old) (λ f. WroteSome (sums_writes header.now f buf.old) (D.held store.old) (D.held store.new)
        (D.tally store.old).amended.writes (D.tally store.new).amended.writes) }
    ensures settled { OnOk result (IsSettled (D.tally store.old).amended → IsSettled (D.tally store.new).amended) }
    ensures stays { (len buf.new ≡ len buf.old) × (len copy.new ≡ len copy.old) }
    ensures reach { KeepsReach (D.attached store.old) (D.attached store.new) }
    ensures cause { AmendsStore (D.tally store.old) (D.tally store.new) result }
{
    let datasum = told_sum(header, buf, &Name::DATASUM);
    let checksum = told_sum(header, buf, &Name::CHECKSUM);
    if are_none(datasum, checksum) {
        return Ok(());
    }
    sum_law();
    let payload = sum_of(store, data_start(header), next_start(header), copy)?;
    write_datasum(store, header, datasum, payload.value(), buf)?;
    write_checksum(store, header, checksum, payload, buf)?;
    settle(store)
}

// Whether neither card is given.
fn are_none(datasum: Option<u32>, checksum: Option<u32>) -> bool
    ensures { result ≡ (is_none datasum && is_none checksum) }
{
    match datasum {
        Some(_) => false,
        None => checksum.is_none(),
    }
}

// The index of the first card of a checksum, if it has a text that is not empty.
fn told_sum(header: &Header, buf: &[u8], name: &Name) -> Option<u32>
    requires header { IsHeaderOf buf.now header.now }
    ensures place { result ≡ told_sum_of name.now.bytes buf.now }
    ensures within { IfSome result (λ i. 80 * (i + 1) ≤ len buf.now) }
{
    cards_law();
    let found = first_named(buf, header, name)?;
    let mut text = [0; FIELD_LEN];
    let count = card(buf, found).text(&mut text).unwrap_or(0);
    if count == 0 {
        return None;
    }
    Some(found)
}

// The sum of the bytes of the store from one place to another, read by pieces of the copy buffer.
fn sum_of<D: Source>(store: &mut D, start: u64, end: u64, copy: &mut [u8]) -> Result<Sum, Stop>
    requires within { HasAtLeast (D.attached store.old) end }
    requires end { (start ≤ end) × (end ≤ 2 ^ 62) }
    requires copy { 0 < len copy.old }
    ensures sum { IfOk result (λ sum. IfSome (D.held store.old) (λ f. sum ≡ after nothing 0 (take (end - start) (drop start f)))) }
    ensures few { IfOk result (λ sum. sum.count ≡ end - start) }
    ensures stays { SourceStays D.held D.attached D.ranges store.old store.new × (len copy.new ≡ len copy.old) }
    ensures cause { OnlyReads (D.tally store.old) (D.tally store.new) result }
{
    sum_law();
    let mut sum = Sum::new();
    let mut at = start;
    while at < end {
        let count = (end - at).min(copy.len() as u64) as usize;
        let piece = &mut copy[..count];
        store.read_at(at, piece).map_err(Stop::reading)?;
        sum.add(at - start, piece);
        at += count as u64;
    }
    Ok(sum)
}

// Writes DATASUM, if it is given.
fn write_datasum<D: Store>(
    store: &mut D,
    header: &Header,
    found: Option<u32>,
    sum: u32,
    buf: &mut [u8],
) -> Result<(), Stop>
    requires within { HasAtLeast (D.attached store.old) (header.now.start + len buf.old) }
    requires near { header.now.start + len buf.old ≤ 2 ^ 62 }
    requires card { IfSome found (IsCardIn buf.old) }
    ensures wrote { OnOk result (Wrote (datasum_write header.now found sum) (D.held store.old) (D.held store.new)
        (D.tally store.old).amended.writes (D.tally store.new).amended.writes) }
    ensures some { WroteSome (datasum_write header.now found sum) (D.held store.old) (D.held store.new)
        (D.tally store.old).amended.writes (D.tally store.new).amended.writes }
    ensures header { OnOk result (buf.new ≡ with_datasum found sum buf.old) }
    ensures len { len buf.new ≡ len buf.old }
    ensures reach { KeepsReach (D.attached store.old) (D.attached store.new) }
    ensures cause { AmendsStore (D.tally store.old) (D.tally store.new) result }
{
    match found {
        Some(i) => write_card(store, header, i, &datasum_card(sum), buf),
        None => Ok(()),
    }
}

// Writes CHECKSUM, if it is given: the sum of the header, in which it is blank, is added to that of the data.
fn write_checksum<D: Store>(
    store: &mut D,
    header: &Header,
    found: Option<u32>,
    mut sum: Sum,
    buf: &mut [u8],
) -> Result<(), Stop>
    requires within { HasAtLeast (D.attached store.old) (header.now.start + len buf.old) }
    requires near { header.now.start + len buf.old ≤ 2 ^ 62 }
    requires header { len buf.old ≡ 2880 * header.now.blocks }
    requires card { IfSome found (IsCardIn buf.old) }
    requires few { sum.count < 2 ^ 62 }
    ensures wrote { OnOk result ((payload : List ℕ) → sum ≡ after nothing 0 payload
        → Wrote (checksum_write header.now found payload buf.old) (D.held store.old) (D.held store.new)
        (D.tally store.old).amended.writes (D.tally store.new).amended.writes) }
    ensures some { (payload : List ℕ) → sum ≡ after nothing 0 payload
        → WroteSome (checksum_write header.now found payload buf.old) (D.held store.old) (D.held store.new)
        (D.tally store.old).amended.writes (D.tally store.new).amended.writes }
    ensures len { len buf.new ≡ len buf.old }
    ensures reach { KeepsReach (D.attached store.old) (D.attached store.new) }
    ensures cause { AmendsStore (D.tally store.old) (D.tally store.new) result }
{
    sum_law();
    let Some(i) = found else {
        return Ok(());
    };
    put_card(buf, i, &blank_checksum_card());
    sum.add(0, buf);
    write_card(store, header, i, &checksum_card(sum.value()), buf)
}

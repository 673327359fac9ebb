//! What a job checks and learns of the header of one HDU: of an image that is packed, of a packed one that is
//! unpacked, and of one that a part is cut from.
ghost use Rattle.std.specs.Prelude.{◌≡◌, ◌+◌, ◌*◌, ◌≤◌, ◌^◌, ◌==◌, not, true, [], ◌∷◌, Some, None, position, IfOk, IfSome, length as len};
ghost use Rattle.fz_base.specs.Refusal.{IsFirstOf};
ghost use Rattle.fz_block.specs.Facts.{IsHeaderOf};
ghost use Rattle.fz_block.specs.Header.{next_start_of};
ghost use Rattle.fz_grid.specs.Region.{IsDivided};
ghost use Rattle.fz_table.specs.Rows.{IsTable};
ghost use Rattle.fz_tile.specs.Codecs.{CanWrite};
ghost use Rattle.fz_head.specs.Conditions.{IsPackPlan};
ghost use Rattle.fz_checks.specs.JobChecks.{IsImageOf, already_packed, data_fill, image_checks, image_in};
ghost use Rattle.fz_checks.specs.JobChecks.{image_to_unpack as image_to_unpack_of, missing_hdu as missing_hdu_of};
ghost use Rattle.fz_checks.specs.JobChecks.{plan_to_pack as plan_to_pack_of, says_packed as says_packed_of};
ghost use Rattle.fz_head.specs.Packable.{is_packed as is_packed_of};
ghost use Rattle.fz_head.specs.Planned.{AreOptions};
ghost use Rattle.fz_head.specs.Written.{first_cards};

use crate::table_cards::table_check;
use crate::unpacking::plan_of;
use fz_base::{Fault, Kind, Place};
use fz_block::{Header, card, data_start, refuse_at, refused};
use fz_card::{Card, Name};
use fz_head::{PackOptions, Plan, is_packable, is_packed, is_set, is_table, pack_plan};
use fz_table::Table;

/// A packed image: its plan, and the table in which it is.
#[derive(Clone, Copy, Debug, PartialEq, Eq)]
pub struct PackedImage {
    pub plan: Plan,
    pub table: Table,
}

// Whether the card says that a table is a packed one.
fn says_packed(card: &Card) -> bool
    ensures { result ≡ says_packed_of card.now.bytes }
{
    is_set(card, &Name::ZIMAGE) || is_set(card, &Name::ZTABLE)
}

// The index of the first of so many cards that says that a table is a packed one.
fn first_packed(buf: &[u8], cards: u32) -> Option<u32>
    requires { 80 * cards ≤ len buf.now }
    ensures { result ≡ position says_packed_of (first_cards buf.now cards) }
{
    for i in 0..cards {
        if says_packed(&card(buf, i)) {
            return Some(i);
        }
    }
    None
}

// A table that is given to `pack` is no packed one.
fn check_unpacked(buf: &[u8], header: &Header) -> Result<(), Fault>
    requires { IsHeaderOf buf.now header.now }
    ensures { IsFirstOf (already_packed header.now buf.now ∷ []) result }
{
    if !is_table(header.sort) {
        return Ok(());
    }
    refuse_at(header, first_packed(buf, header.cards), Kind::AlreadyPacked)
}

/// The plan of an HDU that is given to `pack`; none for one that is copied, which is no image that can be
/// packed.
///
/// Refused: a binary table has ZIMAGE or ZTABLE with T (AlreadyPacked, at the first such card); an image
/// as `pack_plan` refuses it.
pub fn plan_to_pack(
    buf: &[u8],
    header: &Header,
    options: &PackOptions,
) -> Result<Option<Plan>, Fault>
    requires header { IsHeaderOf buf.now header.now }
    requires end { next_start_of header.now ≤ 2 ^ 62 }
    requires options { AreOptions options.now }
    ensures exact { result ≡ plan_to_pack_of options.now header.now buf.now }
    ensures planned { IfOk result (λ o. IfSome o (IsPackPlan buf.now header.now options.now.sums)) }
    ensures usable { IfOk result (λ o. IfSome o (λ p. IsDivided p.shape p.tile × CanWrite p.codec p.bitpix)) }
{
    check_unpacked(buf, header)?;
    if !is_packable(buf, header) {
        return Ok(None);
    }
    let plan = pack_plan(buf, header, options)?;
    Ok(Some(plan))
}

/// Checks the fill after the data of an image that is to be packed: its bytes are zeros (else DataFill, at
/// the first other one; FITS 4.0, section 3.3.2).
pub fn fill_check(header: &Header, fill: &[u8]) -> Result<(), Fault>
    requires end { next_start_of header.now ≤ 2 ^ 62 }
    requires fill { len fill.now ≤ 2880 }
    ensures { IsFirstOf (data_fill header.now fill.now ∷ []) result }
{
    match first_non_zero(fill) {
        Some(i) => Err(refused(
            header.hdu,
            Place::Byte(data_start(header) + header.data_len + i as u64),
            Kind::DataFill,
        )),
        None => Ok(()),
    }
}

// How many zeros are before the first other byte.
fn first_non_zero(bytes: &[u8]) -> Option<usize>
    ensures { result ≡ position (λ b. not (b == 0)) bytes.now }
{
    bytes.iter().position(|byte| *byte != 0)
}

/// The image of a packed HDU, by its table and its plan.
pub(crate) fn packed_image(
    buf: &[u8],
    header: &Header,
    after_empty: bool,
) -> Result<PackedImage, Fault>
    requires header { IsHeaderOf buf.now header.now }
    requires end { next_start_of header.now ≤ 2 ^ 62 }
    requires packed { is_packed_of buf.now header.now ≡ true }
    ensures exact { IsFirstOf (image_checks header.now buf.now after_empty) result }
    ensures said { IfOk result (λ i. i ≡ image_in header.now buf.now) }
    ensures image { IfOk result (IsImageOf buf.now header.now) }
    ensures table { IfOk result (λ i. IsTable i.table) }
    ensures heap { IfOk result (λ i. i.table.heap_at + i.table.heap_len ≤ next_start_of header.now) }
{
    let table = Table::of(buf, header)?;
    let plan = plan_of(buf, header, &table, after_empty)?;
    Ok(PackedImage { plan, table })
}

/// The image of an HDU that `unpack`, `verify` or `list` is given; none for one that is copied, which is no
/// packed table. `after_empty` says that this is HDU 1 after a primary with NAXIS 0.
///
/// Refused: a binary table as `table_check` refuses it; a packed one as `Table::of` and then `plan_of` do.
pub fn image_to_unpack(
    buf: &[u8],
    header: &Header,
    after_empty: bool,
) -> Result<Option<PackedImage>, Fault>
    requires header { IsHeaderOf buf.now header.now }
    requires end { next_start_of header.now ≤ 2 ^ 62 }
    ensures exact { result ≡ image_to_unpack_of header.now buf.now after_empty }
    ensures image { IfOk result (λ o. IfSome o (IsImageOf buf.now header.now)) }
    ensures table { IfOk result (λ o. IfSome o (λ i. IsTable i.table)) }
    ensures heap { IfOk result (λ o. IfSome o (λ i. i.table.heap_at + i.table.heap_len ≤ next_start_of header.now)) }
{
    if !is_table(header.sort) {
        return Ok(None);
    }
    table_check(buf, header)?;
    if !is_packed(buf, header) {
        return Ok(None);
    }
    let image = packed_image(buf, header, after_empty)?;
    Ok(Some(image))
}

/// A fault at the end of a file of so many HDUs and bytes which has not the wanted HDU, or, if none is
/// wanted, no packed one.
pub fn missing_hdu(wanted: Option<u32>, hdus: u32, length: u64) -> Fault
    ensures { result ≡ missing_hdu_of wanted hdus length }
{
    Fault {
        hdu: wanted.unwrap_or(hdus),
        at: Place::Byte(length),
        kind: Kind::NotPacked,
    }
}

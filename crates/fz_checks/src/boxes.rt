//! The HDU that a part is cut from, and the box of the part; and the HDU whose image is changed in place.
ghost use Rattle.std.specs.Prelude.{ℕ, ◌≡◌, ◌+◌, ◌<◌, ◌≤◌, ◌^◌, true, [], ◌∷◌, None, Some, IfOk, OnOk, codes, slice_index};
ghost use Rattle.std.specs.List.{flat_map, range_with_len};
ghost use Rattle.fz_base.specs.Refusal.{IsFirstOf};
ghost use Rattle.fz_block.specs.Facts.{IsHeaderOf, nine_axes};
ghost use Rattle.fz_block.specs.Header.{next_start_of};
ghost use Rattle.fz_block.specs.Hdus.{cards_of};
ghost use Rattle.fz_grid.specs.Region.{IsWithin};
ghost use Rattle.fz_table.specs.Rows.{IsTable};
ghost use Rattle.fz_checks.specs.JobChecks.{IsBox, IsImageOf, axes_check, axis_inside, box_checks, packed_card_checks};
ghost use Rattle.fz_checks.specs.JobChecks.{image_to_amend as image_to_amend_of, image_to_cut as image_to_cut_of};
ghost use Rattle.fz_head.specs.Packable.{is_packed as is_packed_of};
ghost use Rattle.fz_head.specs.PackedPlan.{numbered_in, said_axes, size_of};

use crate::job_checks::{PackedImage, packed_image};
use crate::said::{at_name, refuse_when};
use crate::table_cards::table_check;
use fz_base::{Fault, Kind, Place};
use fz_block::{Axes, Header, refusals_law, refused};
use fz_card::{Name, numbered};
use fz_grid::Region;
use fz_head::{is_packed, is_table};

// The box ends within an axis of this length; axes are counted from 0.
fn check_end(buf: &[u8], header: &Header, region: &Region, i: u32, axis: u32) -> Result<(), Fault>
    requires header { IsHeaderOf buf.now header.now }
    requires number { i < 9 }
    requires axis { axis ≡ size_of (numbered_in (codes "ZNAXIS") (i + 1) (cards_of buf.now)) }
    ensures exact { IsFirstOf (axis_inside header.now.hdu (cards_of buf.now) region.now i ∷ []) result }
    ensures inside { OnOk result (slice_index region.now.lo i + slice_index region.now.len i ≤ axis) }
{
    let at = i as usize;
    let past = u64::from(region.lo[at]) + u64::from(region.len[at]) > u64::from(axis);
    let name = numbered(b"ZNAXIS", i + 1);
    refuse_when(past, at_name(buf, header, &name, Kind::OutOfBox))
}

/// Refused with OutOfBox, at ZNAXISi, if the box ends after axis i, for the first such axis. The box has as
/// many axes as the image, whose lengths these are.
pub fn check_ends(buf: &[u8], header: &Header, shape: &Axes, region: &Region) -> Result<(), Fault>
    requires header { IsHeaderOf buf.now header.now }
    requires shape { shape.now ≡ nine_axes (said_axes (cards_of buf.now)) }
    requires few { shape.now.n ≤ 9 }
    ensures exact { IsFirstOf (flat_map (λ k. axis_inside header.now.hdu (cards_of buf.now) region.now k ∷ [])
        (range_with_len 0 shape.now.n)) result }
    ensures inside { OnOk result ((k : ℕ) → k < shape.now.n
        → slice_index region.now.lo k + slice_index region.now.len k ≤ slice_index shape.now.len k) }
{
    refusals_law();
    for i in 0..shape.n {
        check_end(buf, header, region, i, shape.len[i as usize])?;
    }
    Ok(())
}

/// Refused with OutOfBox, at ZNAXIS, if so many axes are not those of the image, whose lengths these are.
pub fn check_axes(buf: &[u8], header: &Header, shape: &Axes, axes: u32) -> Result<(), Fault>
    requires header { IsHeaderOf buf.now header.now }
    requires shape { shape.now ≡ nine_axes (said_axes (cards_of buf.now)) }
    ensures exact { IsFirstOf (axes_check header.now.hdu (cards_of buf.now) axes ∷ []) result }
    ensures same { OnOk result (axes ≡ shape.now.n) }
{
    let other = axes != shape.n;
    refuse_when(other, at_name(buf, header, &Name::ZNAXIS, Kind::OutOfBox))
}

// The box has the axes of the image, and ends within each.
fn check_box(buf: &[u8], header: &Header, shape: &Axes, region: &Region) -> Result<(), Fault>
    requires header { IsHeaderOf buf.now header.now }
    requires shape { shape.now ≡ nine_axes (said_axes (cards_of buf.now)) }
    requires few { shape.now.n ≤ 9 }
    requires region { IsBox region.now }
    ensures exact { IsFirstOf (box_checks header.now.hdu (cards_of buf.now) region.now) result }
    ensures within { OnOk result (IsWithin shape.now region.now) }
{
    check_axes(buf, header, shape, region.n)?;
    check_ends(buf, header, shape, region)
}

// The HDU is a packed table, and no check of its cards refuses.
fn check_packed(buf: &[u8], header: &Header) -> Result<(), Fault>
    requires { IsHeaderOf buf.now header.now }
    ensures exact { IsFirstOf (packed_card_checks header.now buf.now) result }
    ensures packed { OnOk result (is_packed_of buf.now header.now ≡ true) }
{
    if !is_table(header.sort) {
        return Err(refused(header.hdu, Place::Byte(header.start), Kind::NotPacked));
    }
    table_check(buf, header)?;
    if !is_packed(buf, header) {
        return Err(refused(header.hdu, Place::Byte(header.start), Kind::NotPacked));
    }
    Ok(())
}

/// The image of the HDU that `cut` cuts a part from, which is this box of it. `after_empty` says that this is
/// HDU 1 after a primary with NAXIS 0.
///
/// Refused: a binary table is a compressed one (CompressedTable); the HDU is not packed (NotPacked, at its
/// first byte); a name that may occur only once occurs twice (Duplicate); as `Table::of` and then `plan_of` refuse it;
/// the box has another number of axes than the image, or ends after one (OutOfBox, at ZNAXIS or at ZNAXISi).
pub fn image_to_cut(
    buf: &[u8],
    header: &Header,
    after_empty: bool,
    region: &Region,
) -> Result<PackedImage, Fault>
    requires header { IsHeaderOf buf.now header.now }
    requires end { next_start_of header.now ≤ 2 ^ 62 }
    requires region { IsBox region.now }
    ensures exact { result ≡ image_to_cut_of header.now buf.now after_empty region.now }
    ensures image { IfOk result (IsImageOf buf.now header.now) }
    ensures table { IfOk result (λ i. IsTable i.table) }
    ensures heap { IfOk result (λ i. i.table.heap_at + i.table.heap_len ≤ next_start_of header.now) }
    ensures within { IfOk result (λ i. IsWithin i.plan.shape region.now) }
{
    check_packed(buf, header)?;
    let image = packed_image(buf, header, after_empty)?;
    check_box(buf, header, &image.plan.shape, region)?;
    Ok(image)
}

/// The image of the HDU whose image is changed in place. `after_empty` says that this is HDU 1 after a primary
/// with NAXIS 0.
///
/// Refused: as `image_to_cut` refuses it whatever the box is.
pub fn image_to_amend(buf: &[u8], header: &Header, after_empty: bool) -> Result<PackedImage, Fault>
    requires header { IsHeaderOf buf.now header.now }
    requires end { next_start_of header.now ≤ 2 ^ 62 }
    ensures exact { result ≡ image_to_amend_of header.now buf.now after_empty }
    ensures image { IfOk result (IsImageOf buf.now header.now) }
    ensures table { IfOk result (λ i. IsTable i.table) }
    ensures heap { IfOk result (λ i. i.table.heap_at + i.table.heap_len ≤ next_start_of header.now) }
{
    check_packed(buf, header)?;
    packed_image(buf, header, after_empty)
}

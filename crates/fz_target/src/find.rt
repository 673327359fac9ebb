//! The packed image that is patched, found by all checks of headers.
ghost use Rattle.std.specs.Prelude.{ℕ, ◌≡◌, ◌+◌, ◌≤◌, ◌^◌, max, List, Option, Ok, Some, None, IfOk, IfSome, OnOk, length as len};
ghost use Rattle.fz_base.specs.Keeps.{SourceStays};
ghost use Rattle.fz_base.specs.Refusal.{IsFirstOf, first_refusal, refusal};
ghost use Rattle.fz_base.specs.Source.{LogsWithin};
ghost use Rattle.fz_base.specs.Stop.{IsDefined, ReadsAndTakes, TellsLimit};
ghost use Rattle.fz_base.specs.Takings.{TellsFirstPast, highest};
ghost use Rattle.fz_base.specs.declared.failure.Stop.TheVariants.{Refused};
ghost use Rattle.fz_base.specs.declared.fault.Fault.{Fault as FaultOf};
ghost use Rattle.fz_base.specs.declared.fault.Place.TheVariants.{Card as AtCard};
ghost use Rattle.fz_base.specs.declared.kind.Kind.TheVariants.{BadCard};
ghost use Rattle.fz_block.specs.Checks.{header_touched};
ghost use Rattle.fz_block.specs.Facts.{IsHeaderOf};
ghost use Rattle.fz_block.specs.Header.{next_start_of};
ghost use Rattle.fz_grid.specs.Region.{IsWithin};
ghost use Rattle.fz_laws.specs.PatchChecks.{if_patchable, own_checks};
ghost use Rattle.fz_laws.specs.PatchForm.{is_wide_table};
ghost use Rattle.fz_laws.specs.Given.{box_region};
ghost use Rattle.fz_target.specs.Reads.{HasDataOf};
ghost use Rattle.fz_target.specs.Targets.{GivesWithin, HasHeader, IsBoxAt, IsCorner, IsGivenTo, IsOwnImage, IsTarget, IsTargetIn};
ghost use Rattle.fz_target.specs.Targets.{given_taking, header_of, job_at, placed, region_sieve};

use crate::form::{check_form, is_wide};
use crate::given::read_given;
use crate::target::Target;
use fz_base::{Fault, Kind, Meter, Place, Source, Stop};
use fz_block::{Axes, Header, data_start};
use fz_checks::{PackedImage, check_axes, check_ends, image_to_amend};
use fz_grid::{Region, Sieve, cutout_axes, shape_law};
use fz_laws::form_law;
use fz_tile::{plain_law, slice_law};

/// What is asked for: where the image of PATCH goes, and how long the files are.
#[derive(Clone, Copy)]
pub struct Asked<'c> {
    /// The length of FILE.
    pub length: u64,
    /// The length of PATCH.
    pub patch_length: u64,
    /// Where the first pixel of that image goes: its coordinates, counted from 0.
    pub corner: &'c [u32],
}

/// Finds the image of the HDU with this header, whose bytes are in the buffer, and how the image of PATCH fits into it,
/// with its first pixel at the corner.
///
/// Refused, in this order: Unpatchable, as `check_form` refuses it; OutOfBox, at ZNAXIS; BadPatch, as `read_given` refuses
/// it; OutOfBox, at ZNAXISi. Of a source that gives other bytes than before also with BadCard at card 0 of the HDU.
pub fn find_target<S: Source>(
    asked: &Asked<'_>,
    patch: &mut S,
    meter: &mut Meter,
    header: &Header,
    buf: &[u8],
    block: &mut [u8],
) -> Result<Target, Stop>
    requires attached { S.attached patch.old ≡ Some asked.now.patch_length }
    requires corner { IsCorner asked.now.corner.now }
    requires header { IsHeaderOf buf.now header.now }
    requires end { (next_start_of header.now ≤ asked.now.length) × (next_start_of header.now ≤ 2 ^ 62) }
    requires block { len block.old ≡ 2880 }
    ensures exact { (file : List ℕ) (wanted : Option ℕ) → HasHeader asked.now.length header.now buf.now file
        → IfSome (S.held patch.old) (λ p. IsDefined (if_patchable file p (job_at wanted asked.now.corner.now) (Ok header.now)) (header_of result)) }
    ensures target { IfOk result (λ t. IsTarget t × (t.header ≡ header.now) × (next_start_of t.header ≡ asked.now.length)) }
    ensures own { IfOk result (λ t. IsOwnImage asked.now.length asked.now.corner.now buf.now header.now t.image × (is_wide_table buf.now ≡ t.wide)) }
    ensures said { IfOk result (λ t. (file : List ℕ) → HasHeader asked.now.length header.now buf.now file → IsTargetIn file t) }
    ensures given { IfOk result (λ t. GivesWithin (S.attached patch.old) t × IfSome (S.held patch.old) (λ p. IsGivenTo asked.now.corner.now p t)) }
    // Whatever PATCH shows: what is replaced is a box at the corner, of which the pixels are the data of PATCH.
    ensures box_at { IfOk result (IsBoxAt asked.now.corner.now (S.held patch.old)) }
    ensures begins { IfOk result (λ t. IfSome (S.held patch.old) (λ p. HasDataOf p t)) }
    ensures block { len block.new ≡ 2880 }
    ensures passes { OnOk result ((file : List ℕ) (wanted : Option ℕ) → HasHeader asked.now.length header.now buf.now file
        → first_refusal (own_checks file header.now (job_at wanted asked.now.corner.now)) ≡ None) }
    // PATCH is not read if FILE alone is refused.
    ensures alone { (file : List ℕ) (wanted : Option ℕ) (x : FaultOf) → HasHeader asked.now.length header.now buf.now file
        → first_refusal (own_checks file header.now (job_at wanted asked.now.corner.now)) ≡ Some x → S.ranges patch.new ≡ S.ranges patch.old }
    ensures read { IfSome (S.held patch.old) (λ p. LogsWithin 0 (header_touched 0 0 p) (S.ranges patch.old) (S.ranges patch.new)) }
    ensures risen { meter.old.peak ≤ meter.new.peak }
    ensures first_past { (file : List ℕ) (wanted : Option ℕ) → HasHeader asked.now.length header.now buf.now file
        → IfSome (S.held patch.old) (λ p. TellsFirstPast meter.old.limit
        (given_taking meter.old.live p (first_refusal (own_checks file header.now (job_at wanted asked.now.corner.now)))) result) }
    ensures peak { (file : List ℕ) (wanted : Option ℕ) → HasHeader asked.now.length header.now buf.now file
        → IfSome (S.held patch.old) (λ p. meter.new.peak ≤ max meter.old.peak
        (highest (given_taking meter.old.live p (first_refusal (own_checks file header.now (job_at wanted asked.now.corner.now)))))) }
    ensures exact_peak { OnOk result ((file : List ℕ) (wanted : Option ℕ) → HasHeader asked.now.length header.now buf.now file
        → IfSome (S.held patch.old) (λ p. meter.new.peak ≡ max meter.old.peak
        (highest (given_taking meter.old.live p (first_refusal (own_checks file header.now (job_at wanted asked.now.corner.now))))))) }
    ensures most { TellsLimit meter.old.limit (meter.old.live + 737280) result }
    ensures peak_most { meter.new.peak ≤ max meter.old.peak (meter.old.live + 737280) }
    ensures stays { SourceStays S.held S.attached S.ranges patch.old patch.new × (meter.new.live ≡ meter.old.live)
        × (meter.new.limit ≡ meter.old.limit) }
    ensures cause { ReadsAndTakes (S.tally patch.old) (S.tally patch.new) meter.old.limit result }
{
    form_law();
    plain_law();
    shape_law();
    slice_law();
    let image = match own_image(asked.length, asked.corner, header, buf) {
        Ok(image) => image,
        Err(fault) => return Err(Stop::Refused(fault)),
    };
    let given = read_given(patch, asked.patch_length, meter, &image.plan, block)?;
    let shape = &image.plan.shape;
    let region = region_of(asked.corner, &given.axes);
    if let Err(fault) = check_ends(buf, header, shape, &region) {
        return Err(Stop::Refused(fault));
    }
    let sieve = sieve_of(shape, &region);
    // This call shows that the sieve is one of the image.
    let _box = cutout_axes(shape, &sieve);
    Ok(Target {
        header: *header,
        image,
        wide: is_wide(image.table.coded),
        sieve,
        pixels_at: data_start(&given),
    })
}

// The image of the HDU, which the checks that come before PATCH is looked at do not refuse.
fn own_image(length: u64, corner: &[u32], header: &Header, buf: &[u8]) -> Result<PackedImage, Fault>
    requires corner { IsCorner corner.now }
    requires header { IsHeaderOf buf.now header.now }
    requires end { next_start_of header.now ≤ 2 ^ 62 }
    ensures exact { (file : List ℕ) (wanted : Option ℕ) → HasHeader length header.now buf.now file
        → IsFirstOf (own_checks file header.now (job_at wanted corner.now)) result }
    ensures image { IfOk result (λ i. IsOwnImage length corner.now buf.now header.now i) }
{
    // That HDU 1 comes after an empty primary, if it has to, was seen in the first look.
    let image = match image_to_amend(buf, header, true) {
        Ok(image) => image,
        Err(_) => return Err(changed_header(header.hdu)),
    };
    check_form(length, header, buf, &image)?;
    check_axes(buf, header, &image.plan.shape, corner.len() as u32)?;
    Ok(image)
}

// The region from a corner on, with these lengths.
fn region_of(corner: &[u32], axes: &Axes) -> Region
    requires few { len corner.now ≤ 9 }
    requires axes { axes.now.n ≡ len corner.now }
    ensures { result ≡ box_region (placed corner.now axes.now) }
{
    let n = corner.len();
    let mut lo = [0; 9];
    let mut len = [0; 9];
    lo[..n].copy_from_slice(corner);
    len[..n].copy_from_slice(&axes.len[..n]);
    Region { n: axes.n, lo, len }
}

// The sieve that picks every pixel of a region of an array.
fn sieve_of(shape: &Axes, region: &Region) -> Sieve
    requires few { shape.now.n ≤ 9 }
    requires region { IsWithin shape.now region.now }
    ensures { result ≡ region_sieve region.now }
{
    let mut hi = [0; 9];
    let mut step = [0; 9];
    for i in 0..shape.n as usize {
        // The end of the axis fits 32 bits, and so does that of the region.
        let _end = shape.len[i];
        hi[i] = region.lo[i] + (region.len[i] - 1);
        step[i] = 1;
    }
    Sieve {
        n: region.n,
        lo: region.lo,
        hi,
        step,
    }
}

/// The source gave other bytes than before.
pub fn changed(hdu: u32) -> Stop
    ensures { result ≡ Refused (refusal hdu (AtCard 0) BadCard) }
{
    Stop::Refused(changed_header(hdu))
}

// The same as a fault.
fn changed_header(hdu: u32) -> Fault
    ensures { result ≡ refusal hdu (AtCard 0) BadCard }
{
    Fault {
        hdu,
        at: Place::Card(0),
        kind: Kind::BadCard,
    }
}

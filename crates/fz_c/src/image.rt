//! Rows and tiles of a packed image, by its plan.
ghost use Rattle.std.specs.Prelude.{◌≡◌, ◌≢◌, pos};
ghost use Rattle.fz_c.specs.Images.{ReadsTile, SaysRow};

use crate::asked::record_len;
use crate::fault::Fault;
use fz_flat::{
    FzPlan, FzRecord, decode_record, flat_record, image_of, is_lawful, places_of, read_row,
    record_there, tile_pixels,
};

/// Writes where the bytes of a tile are in the file to `chosen`, by the bytes of its row, and answers 0 (FITS
/// 4.0, sections 7.3.5 and 10.1.3).
///
/// `row` has at least the bytes of a row, and only these are looked at. After another answer `chosen` is as it
/// was: `Rejected` the row is refused, `NoPlan`, `NoTile` the image has no such tile, or `FewBytes`.
#[unsafe(no_mangle)]
pub extern "C" fn fz_row(plan: &FzPlan, tile: u32, row: &[u8], chosen: &mut FzRecord) -> i32
    ensures answer { SaysRow plan.now tile row.now chosen.new result }
    ensures kept { result ≢ pos 0 → chosen.new ≡ chosen.old }
{
    if !is_lawful(plan) {
        return Fault::NoPlan.answer();
    }
    if tile >= plan.rows {
        return Fault::NoTile.answer();
    }
    if row.len() < plan.row_bytes as usize {
        return Fault::FewBytes.answer();
    }
    match read_row(0, &image_of(plan), tile, row) {
        Ok(found) => {
            *chosen = flat_record(&found);
            0
        }
        Err(fault) => Fault::Rejected(fault.kind).answer(),
    }
}

/// Reads the pixels of a tile into the first numbers from its record, and answers 0 (FITS 4.0, section 10.1.3).
///
/// `code` has at least what is read of the record, and only that is looked at; `numbers` has the places of the
/// tile, and those after them stay. A pixel takes one place, and one of 64 bits two, its upper half and then
/// its lower half, each signed. After another answer `numbers` holds some values: `Refused` the record stands
/// for no so many pixels, `NoPlan`, `NoTile`, `NoColumn`, `FewBytes` or `FewPlaces`.
#[unsafe(no_mangle)]
pub extern "C" fn fz_tile(
    plan: &FzPlan,
    tile: u32,
    chosen: &FzRecord,
    code: &[u8],
    numbers: &mut [i32],
) -> i32
    ensures answer { ReadsTile plan.now tile chosen.now code.now numbers.old numbers.new result }
{
    if !is_lawful(plan) {
        return Fault::NoPlan.answer();
    }
    if tile >= plan.rows {
        return Fault::NoTile.answer();
    }
    let Some(found) = record_there(chosen) else {
        return Fault::NoColumn.answer();
    };
    let image = image_of(plan);
    let len = record_len(tile_pixels(&image.plan, tile) as usize, found.total);
    if code.len() < len {
        return Fault::FewBytes.answer();
    }
    if numbers.len() < places_of(&image.plan, tile) {
        return Fault::FewPlaces.answer();
    }
    match decode_record(&image.plan, tile, &found, &code[..len], numbers) {
        Ok(()) => 0,
        Err(fault) => Fault::Refused(fault).answer(),
    }
}

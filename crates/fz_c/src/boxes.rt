//! Boxes of a packed image with a step along each axis, by its plan.
ghost use Rattle.std.specs.Prelude.{◌≡◌, ◌≢◌, length as len, pos};
ghost use Rattle.fz_c.specs.Boxes.{CutsBox, IsSiftedFor, ListsReads, SaysNeeds, fault_for_tile};
ghost use Rattle.fz_c.specs.Faults.{answer_of};

use crate::fault::Fault;
use fz_checks::PackedImage;
use fz_flat::{
    FzBox, FzNeeds, FzPlan, FzRecord, Stopped, Why, box_needs, cut_box, image_of, is_box,
    is_lawful, list_reads, sieve_of,
};
use fz_grid::Sieve;

/// The image of a plan, and the sieve of a box of it.
#[derive(Clone, Copy)]
struct Sifted {
    image: PackedImage,
    sieve: Sieve,
}

/// Writes what is read for a box, and how much room there has to be, to `needs`, and answers 0.
///
/// After another answer `needs` is as it was: `NoPlan`, or `NoBox`.
#[unsafe(no_mangle)]
pub extern "C" fn fz_box_needs(plan: &FzPlan, part: &FzBox, needs: &mut FzNeeds) -> i32
    ensures answer { SaysNeeds plan.now part.now needs.new result }
    ensures kept { result ≢ pos 0 → needs.new ≡ needs.old }
{
    match box_of(plan, part) {
        Ok(found) => {
            *needs = box_needs(&found.image, &found.sieve);
            0
        }
        Err(why) => why.answer(),
    }
}

/// Writes the records of the tiles that have a pixel of the box to the front of `reads`, in the order of the
/// tiles, and answers 0. What is after them in `reads` stays.
///
/// `rows` has the bytes of the file from byte `from` on, with the rows of these tiles. After another answer
/// `reads` has some records: `NoPlan`, `NoBox`, `NoRoom`; or `FewRows` or `Rejected`, and `tile` gets the number
/// of the first tile whose row is missing or refused.
#[unsafe(no_mangle)]
pub extern "C" fn fz_box_reads(
    plan: &FzPlan,
    part: &FzBox,
    from: u64,
    rows: &[u8],
    reads: &mut [FzRecord],
    tile: &mut u32,
) -> i32
    ensures answer { ListsReads plan.now part.now from rows.now reads.old reads.new tile.old tile.new result }
{
    let found = match box_of(plan, part) {
        Ok(found) => found,
        Err(why) => return why.answer(),
    };
    if reads.len() < box_needs(&found.image, &found.sieve).tiles as usize {
        return Fault::NoRoom.answer();
    }
    match list_reads(&found.image, &found.sieve, from, rows, reads) {
        Ok(()) => 0,
        Err(stopped) => stop(stopped, tile),
    }
}

/// Writes the pixels of the box to the front of `out`, axis 1 fastest, and answers 0. What is after them in
/// `out` stays.
///
/// `rows` has the bytes of the file from byte `from` on, with the rows of the tiles that have a pixel of the
/// box; `codes` has those from byte `at` on, with what is read of their records; and `numbers` has the places of
/// the largest tile. A pixel takes one place of `out`, and one of 64 bits two. After another answer `out` and
/// `numbers` have some values: `NoPlan`, `NoBox`, `FewPlaces`, `NoRoom`; or `FewRows`, `FewBytes` or `Rejected`,
/// and `tile` gets the number of the first tile whose row or record is missing or refused.
#[unsafe(no_mangle)]
pub extern "C" fn fz_box(
    plan: &FzPlan,
    part: &FzBox,
    from: u64,
    rows: &[u8],
    at: u64,
    codes: &[u8],
    numbers: &mut [i32],
    out: &mut [i32],
    tile: &mut u32,
) -> i32
    ensures answer { CutsBox plan.now part.now from rows.now at codes.now (len numbers.old) out.old out.new tile.old tile.new result }
{
    let found = match box_of(plan, part) {
        Ok(found) => found,
        Err(why) => return why.answer(),
    };
    let needs = box_needs(&found.image, &found.sieve);
    if numbers.len() < needs.places as usize {
        return Fault::FewPlaces.answer();
    }
    if (out.len() as u64) < needs.numbers {
        return Fault::NoRoom.answer();
    }
    match cut_box(
        &found.image,
        &found.sieve,
        from,
        rows,
        at,
        codes,
        numbers,
        out,
    ) {
        Ok(()) => 0,
        Err(stopped) => stop(stopped, tile),
    }
}

/// The image of a plan and the sieve of a box, or why there are none.
fn box_of(plan: &FzPlan, part: &FzBox) -> Result<Sifted, Fault>
    ensures { IsSiftedFor plan.now part.now result }
{
    if !is_lawful(plan) {
        return Err(Fault::NoPlan);
    }
    let image = image_of(plan);
    let sieve = sieve_of(part);
    if is_box(&image.plan.shape, &sieve) {
        Ok(Sifted { image, sieve })
    } else {
        Err(Fault::NoBox)
    }
}

/// The number of the answer for the tile at which a call stops, whose number `tile` gets.
fn stop(stopped: Stopped, tile: &mut u32) -> i32
    ensures answer { result ≡ answer_of (fault_for_tile stopped.why) }
    ensures tile { tile.new ≡ stopped.tile }
{
    *tile = stopped.tile;
    let fault = match stopped.why {
        Why::FewRows => Fault::FewRows,
        Why::FewBytes => Fault::FewBytes,
        Why::Refused(kind) => Fault::Rejected(kind),
    };
    fault.answer()
}

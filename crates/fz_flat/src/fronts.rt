//! The header of an HDU, by its bytes from the first one on.
ghost use Rattle.std.specs.Prelude.{◌≡◌, ◌⊎◌, ◌+◌, ◌*◌, ◌^◌, ◌<◌, ◌≤◌, Err, length as len, IfErr, IfOk};
ghost use Rattle.fz_block.specs.Checks.{header_blocks_of};
ghost use Rattle.fz_flat.specs.Fronts.{IsByteWithin, blocks_there, hdu_there, image_there_of, more_wanted as more_wanted_of};
ghost use Rattle.fz_flat.specs.Fronts.{place_from, unread_for, with_next_block};
ghost use Rattle.fz_flat.specs.declared.fronts.Unread.TheVariants.{GoesOn};
ghost use Rattle.fz_flat.specs.Lawful.{IsPackedImage};

use crate::borrowed::SliceSource;
use crate::hdu::{FzHdu, hdu_of};
use crate::law::packed_law;
use crate::place::{FzAt, is_place};
use fz_base::{Fault, Kind, Place, Stop};
use fz_block::{BLOCK_LEN, buffered_header, header_blocks};
use fz_checks::{PackedImage, image_to_amend};
use fz_head::is_packed;

/// Why the front of an HDU says nothing yet, or nothing at all.
#[derive(Clone, Copy)]
pub enum Unread {
    /// No HDU begins at this place of a file of this length, or the file has fewer bytes from there on.
    NoPlace,
    /// The header goes on after these bytes, and so does the file.
    GoesOn,
    /// The HDU is refused.
    Refused(Fault),
}

/// How many bytes more of the HDU are wanted, so that the next block of its header is there; 0 if the header
/// is whole.
///
/// Refused, as `header_blocks` refuses the header.
#[tactic(auto, unfolding(crate::specs::Fronts::more_wanted))]
pub fn more_wanted(front: &[u8], at: &FzAt) -> Result<u64, Unread>
    ensures exact { result ≡ more_wanted_of at.now front.now }
{
    let there = front.len() as u64;
    match blocks(front, at) {
        Ok(_) => Ok(0),
        Err(Unread::GoesOn) => Ok(with_next_block(at, there) - there),
        Err(why) => Err(why),
    }
}

// The length of bytes that end with the next block, or with the file.
fn with_next_block(at: &FzAt, there: u64) -> u64
    requires within { at.now.start + there < at.now.length }
    requires near { at.now.length ≤ 2 ^ 62 }
    ensures exact { result ≡ with_next_block at.now there }
    ensures more { there < result }
{
    let block = BLOCK_LEN as u64;
    (at.length - at.start).min((there / block + 1) * block)
}

/// What the HDU is whose header is at the front of these bytes.
///
/// Refused, as `header_blocks` and then `buffered_header` refuse the header.
#[tactic(auto, unfolding(crate::specs::Fronts::hdu_there))]
pub fn hdu_at_front(front: &[u8], at: &FzAt) -> Result<FzHdu, Unread>
    ensures { result ≡ hdu_there at.now front.now }
{
    let blocks = blocks(front, at)?;
    let header = &front[..BLOCK_LEN * blocks as usize];
    match buffered_header(header, at.length, at.hdu, at.start) {
        Ok(facts) => Ok(hdu_of(&facts, is_packed(header, &facts))),
        Err(fault) => Err(Unread::Refused(fault)),
    }
}

/// The packed image of the HDU whose header is at the front of these bytes.
///
/// Refused, as `hdu_at_front` and then `image_to_amend` refuse it.
#[tactic(auto, unfolding(crate::specs::Fronts::image_there_of))]
pub fn image_at_front(front: &[u8], at: &FzAt) -> Result<PackedImage, Unread>
    ensures exact { result ≡ image_there_of at.now front.now }
    ensures packed { IfOk result IsPackedImage }
{
    packed_law();
    let blocks = blocks(front, at)?;
    let header = &front[..BLOCK_LEN * blocks as usize];
    let facts = match buffered_header(header, at.length, at.hdu, at.start) {
        Ok(facts) => facts,
        Err(fault) => return Err(Unread::Refused(fault)),
    };
    match image_to_amend(header, &facts, at.after_empty == 1) {
        Ok(image) => Ok(image),
        Err(fault) => Err(Unread::Refused(fault)),
    }
}

// How many blocks the header has.
#[tactic(auto, using(std::proofs::lemmas::Bool::Decides::nat_tests), unfolding(crate::specs::Fronts::blocks_there))]
fn blocks(front: &[u8], at: &FzAt) -> Result<u32, Unread>
    ensures exact { result ≡ blocks_there at.now front.now }
    ensures range { IfOk result (λ n. (0 < n) × (n ≤ 256) × (2880 * n ≤ len front.now)) }
    ensures within { IfOk result (λ n. at.now.start + 2880 * n ≤ at.now.length) }
    ensures goes_on { result ≡ Err GoesOn → (at.now.start + len front.now < at.now.length) × (at.now.length ≤ 2 ^ 62) }
{
    let there = front.len() as u64;
    if !is_place(at, there) {
        return Err(Unread::NoPlace);
    }
    let rest = at.length - at.start;
    if there < rest.min(BLOCK_LEN as u64) {
        return Err(Unread::GoesOn);
    }
    match count_blocks(front, at.hdu) {
        Ok(blocks) => Ok(blocks),
        Err(fault) => Err(unread_for(at, there, fault)),
    }
}

// The blocks of the header, by these bytes as a file of their own.
fn count_blocks(front: &[u8], hdu: u32) -> Result<u32, Fault>
    requires near { len front.now ≤ 2 ^ 62 }
    requires some { (0 < len front.now) ⊎ (hdu ≡ 0) }
    ensures exact { result ≡ header_blocks_of hdu 0 front.now }
    ensures range { IfOk result (λ n. (0 < n) × (n ≤ 256) × (2880 * n ≤ len front.now)) }
    ensures place { IfErr result (λ x. IsByteWithin (len front.now) x.at) }
{
    let mut source = SliceSource::opened(front);
    let mut block = [0; BLOCK_LEN];
    match header_blocks(&mut source, front.len() as u64, hdu, 0, &mut block) {
        Ok(blocks) => Ok(blocks),
        Err(Stop::Refused(fault)) => Err(fault),
        // Such a source never fails.
        Err(_) => unreachable!(),
    }
}

// The bytes end too early, or this is a fault of the file.
#[tactic(auto, using(std::proofs::lemmas::Bool::Decides::nat_tests))]
fn unread_for(at: &FzAt, there: u64, fault: Fault) -> Unread
    requires within { at.now.start + there ≤ at.now.length }
    requires near { at.now.length ≤ 2 ^ 62 }
    requires place { IsByteWithin there fault.at }
    ensures { result ≡ unread_for at.now there fault }
{
    let early = fault.kind.number() == Kind::Truncated.number();
    if early && there < at.length - at.start {
        return Unread::GoesOn;
    }
    Unread::Refused(Fault {
        hdu: fault.hdu,
        at: place_from(at.start, fault.at),
        kind: fault.kind,
    })
}

// A place of the bytes from a byte of the file on, as one of the file.
fn place_from(start: u64, place: Place) -> Place
    requires near { start ≤ 2 ^ 62 }
    requires place { IsByteWithin (2 ^ 62) place }
    ensures { result ≡ place_from start place }
{
    match place {
        Place::Byte(byte) => Place::Byte(start + byte),
        Place::Card(card) => Place::Card(card),
        Place::Row(row) => Place::Row(row),
    }
}

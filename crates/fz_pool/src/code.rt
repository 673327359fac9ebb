//! The work on one slot.
ghost use Rattle.std.specs.Prelude.{◌≡◌, ◌^◌, ◌≤◌, length, take, drop};
ghost use Rattle.fz_tile.specs.Pixels.{IsBitpix};
ghost use Rattle.fz_tile.specs.Codecs.{CanRead};
ghost use Rattle.fz_tile.specs.Record.{read_len};
ghost use Rattle.fz_pool.specs.Slots.{places_of, ReadsAs, IsReady, IsResult, IsForEncoding, IsEncoded, IsForDecoding, IsDecoded};

use crate::{Job, Slot, Task};
use fz_tile::{TileFault, decode_tile, encode_tile};

// How many places the job uses.
fn place_count(job: &Job) -> usize
    requires size { IsBitpix job.now.bitpix }
    requires most { job.now.pixels ≤ 2 ^ 26 }
    ensures { result ≡ places_of job.now }
{
    if job.bitpix == 64 {
        2 * job.pixels as usize
    } else {
        job.pixels as usize
    }
}

// Writes the bytes of the slot's tile.
fn encode_slot(slot: &mut Slot)
    requires { IsForEncoding slot.old }
    ensures { IsEncoded slot.old slot.new }
{
    let job = slot.job;
    let places = place_count(&job);
    let numbers = &slot.numbers.as_slice()[..places];
    let coded = encode_tile(job.codec, job.bitpix, numbers, slot.code.as_mut_slice());
    slot.job.place = coded.place;
    slot.job.len = coded.len;
}

// Reads the numbers of a record, or finds its fault.
fn read_numbers(job: &Job, code: &[u8], numbers: &mut [i32]) -> Option<TileFault>
    requires codec { CanRead job.now.codec job.now.bitpix }
    requires pixels { (1 ≤ job.now.pixels) × (job.now.pixels ≤ 2 ^ 26) }
    requires places { length numbers.old ≡ places_of job.now }
    requires code { length code.now ≡ read_len job.now.pixels job.now.total }
    ensures { ReadsAs job.now code.now numbers.new result }
{
    match decode_tile(job.codec, job.bitpix, job.place, code, job.total, numbers) {
        Ok(()) => None,
        Err(fault) => Some(fault),
    }
}

// Reads the first numbers, and leaves the others as they are.
fn read_front(job: &Job, code: &[u8], numbers: &mut [i32]) -> Option<TileFault>
    requires codec { CanRead job.now.codec job.now.bitpix }
    requires pixels { (1 ≤ job.now.pixels) × (job.now.pixels ≤ 2 ^ 26) }
    requires places { places_of job.now ≤ length numbers.old }
    requires code { length code.now ≡ read_len job.now.pixels job.now.total }
    ensures reads { ReadsAs job.now code.now (take (places_of job.now) numbers.new) result }
    ensures others { drop (places_of job.now) numbers.new ≡ drop (places_of job.now) numbers.old }
{
    let places = place_count(job);
    let (front, _others) = numbers.split_at_mut(places);
    read_numbers(job, code, front)
}

// Reads the numbers of the slot's record, or finds its fault.
fn decode_slot(slot: &mut Slot)
    requires { IsForDecoding slot.old }
    ensures { IsDecoded slot.old slot.new }
{
    let job = slot.job;
    let code = &slot.code.as_slice()[..job.len as usize];
    let fault = read_front(&job, code, slot.numbers.as_mut_slice());
    slot.fault = fault;
}

/// Encodes or decodes the slot's tile.
pub(crate) fn code_slot(slot: &mut Slot, task: Task)
    requires { IsReady task slot.old }
    ensures { IsResult task slot.old slot.new }
{
    match task {
        Task::Encode => encode_slot(slot),
        Task::Decode => decode_slot(slot),
    }
}

//! Slots that a meter gives and takes back.
ghost use Rattle.std.specs.Prelude.{◌≡◌, ◌⊎◌, ◌+◌, ◌*◌, ◌<◌, ◌≤◌, [], length, replicate, max, vec_capacity, IfOk, IfErr, OnOk};
ghost use Rattle.fz_base.specs.Meter.{taken, handed_back};
ghost use Rattle.fz_pool.specs.Window.{no_job as empty_job, fresh_slot, fresh_bytes, slot_size};
ghost use Rattle.fz_pool.specs.Window.{slot_bytes, asked_for, FillRefused, SlotRefused, tried};

use crate::{Job, Slot};
use fz_base::{Meter, Short};
use fz_tile::{Codec, Place2};

/// The job of a slot that has no tile.
pub(crate) fn no_job() -> Job
    ensures { result ≡ empty_job }
{
    Job {
        tile: 0,
        pixels: 0,
        codec: Codec::Plain,
        bitpix: 8,
        place: Place2::Stored,
        len: 0,
        total: 0,
    }
}

// A slot for tiles of n pixels: its numbers, and then its code.
fn take_slot(meter: &mut Meter, n: u32) -> Result<Slot, Short>
    requires { (meter.old.live ≤ meter.old.peak) × (meter.old.live ≤ meter.old.limit) }
    ensures slot { IfOk result (λ x. x ≡ fresh_slot n) }
    ensures taken { IfOk result (λ _. (meter.old.live + fresh_bytes n ≤ meter.old.limit) × (meter.new ≡ taken meter.old (fresh_bytes n))) }
    ensures refused { IfErr result (λ short. (r : SlotRefused meter.old n short) × (meter.new ≡ tried meter.old r.spent)) }
{
    let n = u64::from(n);
    let numbers = match meter.numbers(2 * n) {
        Ok(numbers) => numbers,
        Err(refused) => return Err(refused),
    };
    match meter.bytes(8 * n + 64) {
        Ok(code) => Ok(Slot {
            numbers,
            code,
            job: no_job(),
            fault: None,
        }),
        Err(short) => {
            meter.give_numbers(numbers);
            Err(short)
        }
    }
}

/// Fills an empty list, which has room, with slots. After an error it has those that were taken.
pub(crate) fn fill_slots(
    slots: &mut Vec<Slot>,
    meter: &mut Meter,
    n: u32,
    count: usize,
) -> Result<(), Short>
    requires empty { slots.old.items ≡ [] }
    requires room { count ≤ vec_capacity slots.old }
    ensures slots { OnOk result (slots.new.items ≡ replicate count (fresh_slot n)) }
    ensures taken { OnOk result ((meter.old.live + count * fresh_bytes n ≤ meter.old.limit) × (meter.new ≡ taken meter.old (count * fresh_bytes n))) }
    ensures refused { IfErr result (λ short. (r : FillRefused meter.old count n short) × (meter.new.live ≡ meter.old.live + asked_for slots.new.items)
        × (meter.new.peak ≡ max meter.old.peak (meter.old.live + r.spent)) × (meter.new.limit ≡ meter.old.limit)) }
    ensures capacity { vec_capacity slots.new ≡ vec_capacity slots.old }
{
    // These calls show that what is live is at most the peak, and that at most the limit.
    let (_live, _peak) = (meter.live(), meter.peak());
    for _i in 0..count {
        match take_slot(meter, n) {
            Ok(slot) => slots.push_reserved(slot),
            Err(short) => return Err(short),
        }
    }
    Ok(())
}

// Hands back a slot.
fn give_slot(slot: Slot, meter: &mut Meter)
    requires { slot_bytes (slot_size slot) ≤ meter.old.live }
    ensures { meter.new ≡ handed_back meter.old (slot_bytes (slot_size slot)) }
{
    meter.give_numbers(slot.numbers);
    meter.give_bytes(slot.code);
}

/// Hands back all slots.
pub(crate) fn give_slots(slots: &mut Vec<Slot>, meter: &mut Meter)
    requires { asked_for slots.old.items ≤ meter.old.live }
    ensures none { slots.new.items ≡ [] }
    ensures given { meter.new ≡ handed_back meter.old (asked_for slots.old.items) }
    ensures capacity { vec_capacity slots.new ≡ vec_capacity slots.old }
{
    while let Some(slot) = slots.pop() {
        give_slot(slot, meter);
    }
}

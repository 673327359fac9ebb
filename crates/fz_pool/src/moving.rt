//! Slots that move out of the window and back.
ghost use Rattle.std.specs.Prelude.{◌≡◌, ℕ, ◌<◌, ◌≤◌, false, true, [], IsTrue, map, take, drop, length, slice_index_or, Some, vec_len, vec_capacity};
ghost use Rattle.std.specs.Mem.Slots.{slots_items, slots_filled, slots_len, IsFull};
ghost use mathlib.Core.Option.{some};
ghost use lib.ListN.{get_elem?};
ghost use Rattle.fz_pool.specs.declared.slot.Slot.{Slot};
ghost use Rattle.fz_pool.specs.Calls.{AreSameFrom};

use crate::Slot;
use crate::board::TableKey;
use crate::filling::no_job;
use atomic_table::Closed;
use fz_base::{Bytes, Numbers};
use std::alloc::Global;
use std::mem;

// A slot with no buffers. It takes no memory.
fn blank_slot(alloc: Global) -> Slot {
    Slot {
        numbers: Numbers::empty(alloc),
        code: Bytes::empty(alloc),
        job: no_job(),
        fault: None,
    }
}

/// Moves the first slots out, in order.
pub(crate) fn move_out(slots: &mut [Slot], out: &mut Vec<Option<Slot>>, count: usize, alloc: Global)
    requires near { count ≤ length slots.old }
    requires empty { out.old.items ≡ [] }
    requires room { count ≤ vec_capacity out.old }
    ensures out { out.new.items ≡ map Some (take count slots.old) }
    ensures others { AreSameFrom count slots.old slots.new }
{
    for i in 0..count {
        let slot = mem::replace(&mut slots[i], blank_slot(alloc));
        out.push_reserved(Some(slot));
    }
}

/// Moves slots that no table took back to where they came from.
pub(crate) fn move_back(slots: &mut [Slot], mut out: Vec<Option<Slot>>, key: &TableKey)
    requires near { (vec_len out ≤ length slots.old) × (length slots.old ≡ vec_len key.now.slots.value) }
    requires out { out.items ≡ map Some (take (vec_len out) key.now.slots.value.items) }
    requires others { AreSameFrom (vec_len out) key.now.slots.value.items slots.old }
    ensures { slots.new ≡ key.now.slots.value.items }
{
    while let Some(slot) = out.pop() {
        let Some(slot) = slot else { unreachable!() };
        slots[out.len()] = slot;
    }
}

/// Moves the results back, in order.
pub(crate) fn gather(closed: &mut Closed<Option<Slot>, Global>, slots: &mut [Slot], count: usize)
    requires near { count ≤ length slots.old }
    requires full { IsFull closed.old.slots × (slots_len closed.old.slots ≡ count) }
    requires values { (k : ℕ) → k < count → (y : Slot) × (get_elem? (slots_items closed.old.slots) k ≡ some (Some y)) }
    ensures values { (k : ℕ) (d : Slot) → k < count → get_elem? (slots_items closed.old.slots) k ≡ some (Some (slice_index_or slots.new k d)) }
    ensures others { AreSameFrom count slots.old slots.new }
    ensures empty { (k : ℕ) → k < slots_len closed.new.slots → slice_index_or (slots_filled closed.new.slots) k false ≡ false }
{
    for i in 0..count {
        let Some(slot) = closed.take(i) else {
            unreachable!()
        };
        slots[i] = slot;
    }
}

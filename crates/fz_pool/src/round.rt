//! One call over the first slots of a window: a table is made of them, workers draw them, and they come
//! back in order.
ghost use Rattle.std.specs.Prelude.{◌≡◌, ℕ, ◌<◌, ◌≤◌, false, [], length, Ok, OnOk, OnErr, vec_len, vec_capacity};
ghost use Rattle.std.specs.Mem.Slots.{slots_items, slots_len, IsFull};
ghost use mathlib.Core.Option.{some};
ghost use lib.ListN.{get_elem?};
ghost use Rattle.fz_pool.specs.declared.slot.Slot.{Slot};
ghost use Rattle.fz_pool.specs.Slots.{IsResult};
ghost use Rattle.fz_pool.specs.Running.{starts_of};
ghost use Rattle.fz_pool.specs.Window.{slot_sizes};
ghost use Rattle.fz_pool.specs.Hands.{Leads};
ghost use Rattle.fz_pool.specs.Calls.{AreReady, AreResults, AreSameFrom};

use crate::board::{Board, Hand, TableKey};
use crate::moving::{gather, move_back, move_out};
use crate::task::Start;
use crate::workers::run;
use crate::{Crew, Slot, Task};
use atomic_table::{Closed, Refused, Table};
use fz_base::{Gate, NoMemory};
use std::alloc::Global;
use std::snapshot::Snapshot;
use std::thread::Threads;

// Has the table's tiles worked on, and the job done, and closes it.
fn work_all<R: Threads + Sync, G: Gate, J: FnMut() -> B, B>(
    crew: &Crew<'_, R, G>,
    board: Board,
    mut first: Hand,
    hands: Vec<Hand>,
    task: Task,
    start: Start,
    job: &mut J,
) -> (Closed<Option<Slot>, Global>, B)
    requires table { board.shared.table_id.words ≡ 1 }
    requires lead { Leads board.shared.table_id board.shared.key task crew.now.workers 0 false first }
    requires task { board.shared.key.task ≡ task }
    requires empty { hands.items ≡ [] }
    requires room { crew.now.workers ≤ vec_capacity hands }
    requires job { J.pre job.old }
    ensures full { IsFull result.0.slots × (slots_len result.0.slots ≡ board.shared.table_id.slots) }
    ensures results { (k : ℕ) (x : Slot) → get_elem? (starts_of board.shared.key) k ≡ some x
        → (y : Slot) × (get_elem? (slots_items result.0.slots) k ≡ some (Some y)) × IsResult task x y }
    ensures job { J.step job.old result.1 job.new }
{
    let answer = run(crew, &board, &mut first, hands, task, start, job);
    (board.close_with(first), answer)
}

// Makes a table of the first slots, has it worked on, and moves the slots back. The job is done in any case.
fn code_on_table<R: Threads + Sync, G: Gate, J: FnMut() -> B, B>(
    crew: &Crew<'_, R, G>,
    alloc: Global,
    slots: &mut [Slot],
    key: &TableKey,
    start: Start,
    job: &mut J,
) -> (Result<(), NoMemory>, B)
    requires was { key.now.slots.value.items ≡ slots.old }
    requires workers { key.now.workers ≡ crew.now.workers }
    requires near { (key.now.count ≤ length slots.old) × (key.now.count ≤ 128) }
    requires ready { AreReady key.now.task key.now.count slots.old }
    requires job { J.pre job.old }
    ensures results { OnOk result.0 (AreResults key.now.task key.now.count slots.old slots.new) }
    ensures others { AreSameFrom key.now.count slots.old slots.new }
    ensures sizes { slot_sizes slots.new ≡ slot_sizes slots.old }
    ensures no_memory { OnErr result.0 (slots.new ≡ slots.old) }
    ensures job { J.step job.old result.1 job.new }
{
    let count = key.count as usize;
    let workers = crew.workers as usize;
    let Ok(mut out) = Vec::with_capacity(alloc, count) else {
        return (Err(NoMemory), job());
    };
    let Ok(hands) = Vec::with_capacity(alloc, workers) else {
        return (Err(NoMemory), job());
    };
    move_out(slots, &mut out, count, alloc);
    match Table::new(alloc, &[0], out, key) {
        Ok((board, first)) => {
            let (mut closed, answer) = work_all(crew, board, first, hands, key.task, start, job);
            gather(&mut closed, slots, count);
            closed.free();
            (Ok(()), answer)
        }
        Err(Refused { slots: out }) => {
            move_back(slots, out, key);
            (Err(NoMemory), job())
        }
    }
}

/// Encodes or decodes the first slots, and does the job: beside them, or after them.
pub(crate) fn code_slots<R: Threads + Sync, G: Gate, J: FnMut() -> B, B>(
    crew: &Crew<'_, R, G>,
    alloc: Global,
    slots: &mut Vec<Slot>,
    count: u32,
    task: Task,
    start: Start,
    job: &mut J,
) -> (Result<(), NoMemory>, B)
    requires near { (count ≤ vec_len slots.old) × (count ≤ 128) }
    requires ready { AreReady task count slots.old.items }
    requires job { J.pre job.old }
    ensures results { OnOk result.0 (AreResults task count slots.old.items slots.new.items) }
    ensures others { AreSameFrom count slots.old.items slots.new.items }
    ensures sizes { slot_sizes slots.new.items ≡ slot_sizes slots.old.items }
    ensures len { vec_len slots.new ≡ vec_len slots.old }
    ensures capacity { vec_capacity slots.new ≡ vec_capacity slots.old }
    ensures no_memory { OnErr result.0 (slots.new.items ≡ slots.old.items) }
    ensures none { count ≡ 0 → result.0 ≡ Ok tt }
    ensures job { J.step job.old result.1 job.new }
{
    if count == 0 {
        return (Ok(()), job());
    }
    let key = TableKey {
        slots: Snapshot::of(slots),
        count: u64::from(count),
        workers: u64::from(crew.workers),
        task,
    };
    code_on_table(crew, alloc, slots.as_mut_slice(), &key, start, job)
}

//! The window: two slots for each worker, whose buffers a meter gives.
ghost use Rattle.std.specs.Prelude.{◌≡◌, ◌+◌, ◌*◌, ◌<◌, ◌≤◌, ◌++◌, [], length, replicate, IfOk, IfErr, OnOk, OnErr, slice_get};
ghost use Rattle.std.specs.Borrow.{sem};
ghost use Rattle.fz_base.specs.Meter.{taken, handed_back};
ghost use Rattle.fz_pool.specs.Window.{AreHalves, IsEmpty, IsFilled, fresh_slot, fresh_bytes, asked_for, FillRefused, tried};

use crate::Slot;
use crate::filling::{fill_slots, give_slots};
use crate::halves::{move_all, move_last};
use fz_base::{Meter, NoMemory, Short};
use std::alloc::Global;
use std::marker::Model;

/// With so many workers or more, and more tiles than slots, a job lets the halves of its window take turns: the tiles of
/// one are coded while those of the other are read and written. With 16 a half has 16 slots or more, and rows of some
/// thousand pixels in them take longer to code than threads take to start.
pub const BY_TURNS: u32 = 16;

/// The slots in which tiles are encoded and decoded. It is empty, or filled with two slots for each of
/// its 1 to 64 workers; its list has room for them from the first.
#[derive(Drop)]
pub struct Window {
    pub(crate) alloc: Global,
    workers: u32,
    pub(crate) slots: Vec<Slot>,
}

impl Model for Window {
    ghost use Rattle.fz_pool.specs.Window.{Pool};
    ghost use Rattle.std.specs.Prelude.{◌*◌, ◌≤◌, vec_capacity};

    ghost Value = { Pool };

    ghost view = { λ w. record { slots = w.slots.items; workers = w.workers } };

    ghost invariant = { λ w. (1 ≤ w.workers) × (w.workers ≤ 64) × (2 * w.workers ≤ vec_capacity w.slots) };
}

impl Window {
    ghost use Rattle.fz_pool.specs.Lending.{LendsSlot};

    /// An empty window for so many workers, with two places for each.
    pub fn new(alloc: Global, workers: u32) -> Result<Window, NoMemory>
        requires { (1 ≤ workers) × (workers ≤ 64) }
        ensures { IfOk result (λ w. w ≡ record { slots = []; workers = workers }) }
    {
        match Vec::with_capacity(alloc, 2 * workers as usize) {
            Ok(slots) => Ok(Window {
                alloc,
                workers,
                slots,
            }),
            Err(_) => Err(NoMemory),
        }
    }

    /// The number of workers that `new` was given.
    pub fn workers(&self) -> u32
        ensures value { result ≡ self.now.workers }
        ensures some { (1 ≤ result) × (result ≤ 64) }
    {
        self.workers
    }

    /// Fills an empty window with slots for tiles of n pixels. For each slot from 0 it takes 2n numbers
    /// and then 8n + 64 bytes, and nothing else. `OverLimit` comes exactly if one of these takings
    /// passes the limit; a refusal hands back what was taken and leaves the window empty.
    pub fn fill(&mut self, meter: &mut Meter, n: u32) -> Result<(), Short>
        requires { IsEmpty self.old }
        ensures workers { self.new.workers ≡ self.old.workers }
        ensures slots { OnOk result (self.new.slots ≡ replicate (2 * self.old.workers) (fresh_slot n)) }
        ensures taken { OnOk result ((meter.old.live + 2 * self.old.workers * fresh_bytes n ≤ meter.old.limit)
            × (meter.new ≡ taken meter.old (2 * self.old.workers * fresh_bytes n))) }
        ensures empty { OnErr result (IsEmpty self.new) }
        ensures refused { IfErr result (λ short. (r : FillRefused meter.old (2 * self.old.workers) n short) × (meter.new ≡ tried meter.old r.spent)) }
    {
        let count = 2 * self.workers as usize;
        let answer = fill_slots(&mut self.slots, meter, n, count);
        if answer.is_err() {
            give_slots(&mut self.slots, meter);
        }
        answer
    }

    /// Hands all slots back.
    pub fn empty(&mut self, meter: &mut Meter)
        requires { asked_for self.old.slots ≤ meter.old.live }
        ensures window { self.new ≡ record { slots = []; workers = self.old.workers } }
        ensures given { meter.new ≡ handed_back meter.old (asked_for self.old.slots) }
    {
        give_slots(&mut self.slots, meter);
    }

    /// The slot of this number.
    pub fn slot(&self, i: u32) -> &Slot
        requires filled { IsFilled self.now }
        requires near { i < 2 * self.now.workers }
        ensures { slice_get self.now.slots i ≡ Some result.now }
    {
        &self.slots[i as usize]
    }

    /// The slot of this number, to be written.
    pub fn slot_mut(&mut self, i: u32) -> &mut Slot
        requires filled { IsFilled self.old }
        requires near { i < 2 * self.old.workers }
        ensures* writes_back { sem 𝓛 (LendsSlot i self.entry result) }
        ensures value { slice_get self.old.slots i ≡ Some result.now }
    {
        &mut self.slots[i as usize]
    }

    /// Two windows, the first with the first slots and the second with the others, each for half of the workers;
    /// this one is empty then. After `NoMemory` it is as before.
    pub fn halve(&mut self) -> Result<(Window, Window), NoMemory>
        requires filled { IsFilled self.old }
        requires several { 2 ≤ self.old.workers }
        ensures halves { IfOk result (λ p. AreHalves self.old p.0 p.1) }
        ensures empty { OnOk result (self.new ≡ record { slots = []; workers = self.old.workers }) }
        ensures no_memory { OnErr result (self.new ≡ self.old) }
    {
        let workers = self.workers / 2;
        let mut first = Window::new(self.alloc, workers)?;
        let mut second = Window::new(self.alloc, self.workers - workers)?;
        let count = 2 * (self.workers - workers) as usize;
        move_last(&mut self.slots, &mut second.slots, count);
        move_all(&mut self.slots, &mut first.slots);
        Ok((first, second))
    }

    /// Takes the slots of two windows into this empty one: those of the first, and then those of the second.
    pub fn rejoin(&mut self, mut first: Window, mut second: Window)
        requires empty { IsEmpty self.old }
        requires room { length first.slots + length second.slots ≤ 2 * self.old.workers }
        ensures { self.new ≡ record { slots = first.slots ++ second.slots; workers = self.old.workers } }
    {
        move_all(&mut first.slots, &mut self.slots);
        move_all(&mut second.slots, &mut self.slots);
    }
}

//! The tiles of a window from bytes.
ghost use Rattle.std.specs.Prelude.{◌≡◌, ℕ, ◌*◌, ◌<◌, ◌≤◌, length, Ok, None, IfOk, IfSome, IfNone, OnOk, slice_index_or};
ghost use Rattle.fz_pool.specs.declared.slot.Slot.{Slot};
ghost use Rattle.fz_pool.specs.Window.{IsFilled};
ghost use Rattle.fz_pool.specs.Calls.{AreForDecoding, AreDecoded, HaveNumbers, KeepsWindow, IsLowestFault};

use crate::round::code_slots;
use crate::task::Start;
use crate::{Crew, Slot, Task, Window};
use fz_base::{Gate, NoMemory};
use fz_tile::TileFault;
use std::thread::Threads;

// The lowest of the first slots that has a fault.
fn lowest_fault(slots: &[Slot], count: u32) -> Option<(u32, TileFault)>
    requires { count ≤ length slots.now }
    ensures none { IfNone result ((i : ℕ) (d : Slot) → i < count → (slice_index_or slots.now i d).fault ≡ None) }
    ensures some { IfSome result (λ p. (p.0 < count) × ((d : Slot) → (slice_index_or slots.now p.0 d).fault ≡ Some p.1)
        × ((i : ℕ) (d : Slot) → i < p.0 → (slice_index_or slots.now i d).fault ≡ None)) }
{
    for i in 0..count {
        if let Some(fault) = slots[i as usize].fault {
            return Some((i, fault));
        }
    }
    None
}

/// Decodes the records of the first `count` slots, each in its own slot, by as many workers as the window
/// has. Before each tile its worker passes the gate, with its own number and the tile's.
///
/// After None each of these slots holds the numbers of its own record. Else the answer is the lowest
/// slot whose record is faulty, with its fault; the slots below it hold the numbers of their own records,
/// and the others up to `count` some values. The other slots are as before. After `NoMemory` all slots
/// are as before. With no slots to decode the answer is None.
pub fn decode_window<R: Threads + Sync, G: Gate>(
    rt: &R,
    window: &mut Window,
    count: u32,
    gate: &G,
) -> Result<Option<(u32, TileFault)>, NoMemory>
    requires filled { IsFilled window.old }
    requires count { count ≤ 2 * window.old.workers }
    requires ready { AreForDecoding count window.old.slots }
    ensures numbers { IfOk result (λ o. IfNone o (HaveNumbers count window.old.slots window.new.slots)) }
    ensures fault { IfOk result (λ o. IfSome o (λ p. IsLowestFault count window.old.slots window.new.slots p.0 p.1)) }
    ensures decoded { OnOk result (AreDecoded count window.old.slots window.new.slots) }
    ensures kept { KeepsWindow result count window.old window.new }
    ensures none { count ≡ 0 → result ≡ Ok None }
{
    let workers = window.workers();
    let crew = Crew { rt, gate, workers };
    let start = Start::of(window.slot(0));
    let (answer, ()) = code_slots(
        &crew,
        window.alloc,
        &mut window.slots,
        count,
        Task::Decode,
        start,
        &mut || {},
    );
    match answer {
        Ok(()) => Ok(lowest_fault(&window.slots, count)),
        Err(stop) => Err(stop),
    }
}

/// Decodes as `decode_window` does, but by the workers of a crew, and does the job beside it on this thread, which then
/// helps. The job is done once, whatever the answer is.
pub fn decode_beside<R: Threads + Sync, G: Gate, J: FnMut() -> B, B>(
    crew: &Crew<'_, R, G>,
    window: &mut Window,
    count: u32,
    job: &mut J,
) -> (Result<Option<(u32, TileFault)>, NoMemory>, B)
    requires filled { IsFilled window.old }
    requires count { count ≤ 2 * window.old.workers }
    requires ready { AreForDecoding count window.old.slots }
    requires job { J.pre job.old }
    ensures numbers { IfOk result.0 (λ o. IfNone o (HaveNumbers count window.old.slots window.new.slots)) }
    ensures fault { IfOk result.0 (λ o. IfSome o (λ p. IsLowestFault count window.old.slots window.new.slots p.0 p.1)) }
    ensures decoded { OnOk result.0 (AreDecoded count window.old.slots window.new.slots) }
    ensures kept { KeepsWindow result.0 count window.old window.new }
    ensures none { count ≡ 0 → result.0 ≡ Ok None }
    ensures job { J.step job.old result.1 job.new }
{
    // This call shows that there are no more than 128 slots.
    let _half = window.workers();
    let start = Start::with_job(window.slot(0), count);
    let (answer, done) = code_slots(
        crew,
        window.alloc,
        &mut window.slots,
        count,
        Task::Decode,
        start,
        job,
    );
    match answer {
        Ok(()) => (Ok(lowest_fault(&window.slots, count)), done),
        Err(stop) => (Err(stop), done),
    }
}

//! The tiles of a window to bytes.
ghost use Rattle.std.specs.Prelude.{◌≡◌, ◌*◌, ◌≤◌, Ok, OnOk};
ghost use Rattle.fz_pool.specs.Window.{IsFilled};
ghost use Rattle.fz_pool.specs.Calls.{AreForEncoding, AreEncoded, KeepsWindow};

use crate::round::code_slots;
use crate::task::Start;
use crate::{Crew, Task, Window};
use fz_base::{Gate, NoMemory};
use std::thread::Threads;

/// Encodes the tiles of the first `count` slots, each in its own slot, by as many workers as the window
/// has. Before each tile its worker passes the gate, with its own number and the tile's.
///
/// After Ok each of these slots holds its own tile's bytes, place and length, as `encode_tile` gives
/// them, and the other slots are as before. After `NoMemory` all slots are as before. With no slots to
/// encode the answer is Ok.
pub fn encode_window<R: Threads + Sync, G: Gate>(
    rt: &R,
    window: &mut Window,
    count: u32,
    gate: &G,
) -> Result<(), NoMemory>
    requires filled { IsFilled window.old }
    requires count { count ≤ 2 * window.old.workers }
    requires ready { AreForEncoding count window.old.slots }
    ensures encoded { OnOk result (AreEncoded count window.old.slots window.new.slots) }
    ensures kept { KeepsWindow result count window.old window.new }
    ensures none { count ≡ 0 → result ≡ Ok tt }
{
    let workers = window.workers();
    let crew = Crew { rt, gate, workers };
    let start = Start::of(window.slot(0));
    code_slots(
        &crew,
        window.alloc,
        &mut window.slots,
        count,
        Task::Encode,
        start,
        &mut || {},
    )
    .0
}

/// Encodes as `encode_window` does, but by the workers of a crew, and does the job beside it on this thread, which then
/// helps. The job is done once, whatever the answer is.
pub fn encode_beside<R: Threads + Sync, G: Gate, J: FnMut() -> B, B>(
    crew: &Crew<'_, R, G>,
    window: &mut Window,
    count: u32,
    job: &mut J,
) -> (Result<(), NoMemory>, B)
    requires filled { IsFilled window.old }
    requires count { count ≤ 2 * window.old.workers }
    requires ready { AreForEncoding count window.old.slots }
    requires job { J.pre job.old }
    ensures encoded { OnOk result.0 (AreEncoded count window.old.slots window.new.slots) }
    ensures kept { KeepsWindow result.0 count window.old window.new }
    ensures none { count ≡ 0 → result.0 ≡ Ok tt }
    ensures job { J.step job.old result.1 job.new }
{
    // This call shows that there are no more than 128 slots.
    let _half = window.workers();
    let start = Start::with_job(window.slot(0), count);
    code_slots(
        crew,
        window.alloc,
        &mut window.slots,
        count,
        Task::Encode,
        start,
        job,
    )
}

//! The job: work in memory, and then print.
ghost use Rattle.std.specs.Prelude.{◌≡◌, max, OnOk};
ghost use Rattle.fz_base.specs.Takings.{highest};
ghost use Rattle.fz_base.specs.Told.{StaysTold};
ghost use Rattle.fz_drill.specs.Bound.{takings_of};
ghost use Rattle.fz_drill.specs.Clauses.{Answers, HasDrillCause, IsSilent, KeepsMeter, PrintsLines};
ghost use Rattle.fz_drill.specs.Files.{IsRows};

use crate::codecs::try_codecs;
use crate::lines::lines_of;
use crate::parts::WORKERS;
use fz_base::{Gate, Meter, Stop, Text};
use fz_pool::Window;
use std::alloc::Global;
use std::thread::Threads;

/// Makes a file of so many rows in memory, packs it with each codec, unpacks what came out and cuts columns from it, with 4
/// workers; and prints how long the file and the packed ones are, and whether the right bytes came out, which is always.
///
/// All of it is printed after the last job: so nothing is if one of them stopped.
pub fn drill<R: Threads + Sync, T: Text, G: Gate>(
    rt: &R,
    alloc: Global,
    rows: u32,
    text: &mut T,
    meter: &mut Meter,
    gate: &G,
) -> Result<(), Stop>
    requires rows { IsRows rows }
    requires nothing_live { meter.old.live ≡ 0 }

    ensures lines { PrintsLines rows (T.contents text.old) (T.contents text.new) result }
    // If no count of the text's faults rose and the limit is at least the bound, it is done, or there was no memory.
    ensures answered { Answers rows (T.tally text.old) (T.tally text.new) meter.old.limit result }
    ensures cause { HasDrillCause rows (T.tally text.old) (T.tally text.new) meter.old.limit result }
    // Nothing is printed if a buffer passes the limit.
    ensures silent { IsSilent rows meter.old.limit (T.contents text.old) (T.contents text.new) (T.tally text.old) (T.tally text.new) result }
    ensures buffers { KeepsMeter rows meter.old meter.new }
    // The peak after all is done is what the takings of all nine jobs come to.
    ensures exact_peak { OnOk result (meter.new.peak ≡ max meter.old.peak (highest (takings_of rows))) }
    ensures told_contents { StaysTold (T.contents text.old) (T.contents text.new) }
{
    let mut window = Window::new(alloc, WORKERS).map_err(|_| Stop::NoMemory)?;
    let all = try_codecs(rt, alloc, rows, meter, &mut window, gate)?;
    text.put(lines_of(rows, &all).as_str().as_bytes())
        .map_err(Stop::writing)
}

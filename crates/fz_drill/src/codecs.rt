//! Each codec in turn.
ghost use Rattle.std.specs.Prelude.{◌≡◌, ◌++◌, max, IfOk, OnOk};
ghost use Rattle.fz_base.specs.Takings.{highest};
ghost use Rattle.fz_files.specs.Buffers.{drill_takings};
ghost use Rattle.fz_drill.specs.Bound.{takings_of};
ghost use Rattle.fz_drill.specs.Files.{IsRows};
ghost use Rattle.fz_drill.specs.Outcomes.{AreOutcomes, BlockDecides, IsOutcome, IsReady, KeepsAll, Stops};

use crate::files::{Files, make_files, no_memory};
use crate::outcome::{Outcome, Outcomes};
use crate::parts::{cuts_to_part, packed_by, unpacks_to_file};
use fz_base::{Gate, Meter, Stop, takings_law};
use fz_head::CodecWord;
use fz_pool::Window;
use std::alloc::Global;
use std::thread::Threads;

/// Makes the files, and tries each codec on them.
pub(crate) fn try_codecs<R: Threads + Sync, G: Gate>(
    rt: &R,
    alloc: Global,
    rows: u32,
    meter: &mut Meter,
    window: &mut Window,
    gate: &G,
) -> Result<Outcomes, Stop>
    requires rows { IsRows rows }
    requires ready { IsReady meter.old window.old }
    ensures outcomes { IfOk result (AreOutcomes rows) }
    ensures stops { Stops rows (takings_of rows) meter.old.limit result }
    ensures block { BlockDecides meter.old.limit result }
    ensures kept { KeepsAll rows meter.old meter.new window.old window.new }
    ensures exact_peak { OnOk result (meter.new.peak ≡ max meter.old.peak (highest (takings_of rows))) }
{
    // The takings of a codec, and then those of the next ones.
    takings_law();
    let files = make_files(alloc, rows).map_err(no_memory)?;
    let rice = try_codec(rt, alloc, &files, CodecWord::Rice, meter, window, gate)?;
    let plio = try_codec(rt, alloc, &files, CodecWord::Plio, meter, window, gate)?;
    let none = try_codec(rt, alloc, &files, CodecWord::None, meter, window, gate)?;
    Ok(Outcomes {
        plain: files.plain.len() as u64,
        rice,
        plio,
        none,
    })
}

// Packs the file with a codec, unpacks what came out, and cuts from it.
fn try_codec<R: Threads + Sync, G: Gate>(
    rt: &R,
    alloc: Global,
    files: &Files,
    codec: CodecWord,
    meter: &mut Meter,
    window: &mut Window,
    gate: &G,
) -> Result<Outcome, Stop>
    requires ready { IsReady meter.old window.old }
    ensures outcome { IfOk result (IsOutcome files.now.rows codec) }
    ensures stops { Stops files.now.rows (drill_takings files.now.rows codec) meter.old.limit result }
    ensures block { BlockDecides meter.old.limit result }
    ensures kept { KeepsAll files.now.rows meter.old meter.new window.old window.new }
    ensures exact_peak { OnOk result (meter.new.peak ≡ max meter.old.peak (highest (drill_takings files.now.rows codec))) }
{
    // The takings of a job, and then those of the next ones.
    takings_law();
    let packed = packed_by(rt, alloc, files, codec, meter, window, gate)?;
    let unpacked = unpacks_to_file(rt, alloc, files, &packed, meter, window, gate)?;
    let cut = cuts_to_part(rt, alloc, files, &packed, meter, window, gate)?;
    Ok(Outcome {
        packed: packed.len() as u64,
        unpacked,
        cut,
    })
}

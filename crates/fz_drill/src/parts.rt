//! The three jobs, on files in memory.
ghost use Rattle.std.specs.Prelude.{◌≡◌, max, true, None, IfOk, OnOk};
ghost use Rattle.fz_base.specs.Takings.{highest};
ghost use Rattle.fz_files.specs.Buffers.{file_takings};
ghost use Rattle.fz_files.specs.Drill.{drill_file, drill_options, drill_packed, drill_sieve};
ghost use Rattle.fz_files.specs.declared.job.Job.TheVariants.{Cut, Pack, Unpack};
ghost use Rattle.fz_head.specs.declared.options.CodecWord.{CodecWord};
ghost use Rattle.fz_drill.specs.Files.{IsRows};
ghost use Rattle.fz_drill.specs.Outcomes.{BlockDecides, IsReady, KeepsAll, Stops, in_memory};

use crate::files::{Files, bytes_law, no_memory, source_of};
use crate::law::{cuts_law, packs_law, unpacks_law};
use crate::making::{CUT_COLUMNS, CUT_FROM};
use fz_base::{Gate, MemSink, Meter, Stop, takings_law};
use fz_cut::cut;
use fz_files::{buffers_law, one_first_fault_law};
use fz_grid::Sieve;
use fz_head::{CodecWord, PackOptions};
use fz_pack::pack;
use fz_pool::Window;
use fz_unpack::unpack;
use std::alloc::Global;
use std::thread::Threads;

/// How many workers the jobs have.
pub(crate) const WORKERS: u32 = 4;

/// What is written has no name.
const NO_NAME: &str = "";

/// Packs the file, and answers the packed file.
pub(crate) fn packed_by<R: Threads + Sync, G: Gate>(
    rt: &R,
    alloc: Global,
    files: &Files,
    codec: CodecWord,
    meter: &mut Meter,
    window: &mut Window,
    gate: &G,
) -> Result<Vec<u8>, Stop>
    requires ready { IsReady meter.old window.old }
    ensures packed { IfOk result (λ packed. packed.items ≡ drill_packed files.now.rows codec) }
    ensures stops { Stops files.now.rows (file_takings (Pack (drill_options codec)) (drill_file files.now.rows) 4) meter.old.limit result }
    ensures block { BlockDecides meter.old.limit result }
    ensures kept { KeepsAll files.now.rows meter.old meter.new window.old window.new }
    ensures exact_peak { OnOk result (meter.new.peak ≡ max meter.old.peak
        (highest (file_takings (Pack (drill_options codec)) (drill_file files.now.rows) 4))) }
{
    // Nothing is refused of the file, and it has one packed file.
    packs_law();
    one_first_fault_law();
    buffers_law();
    takings_law();
    let options = PackOptions {
        codec,
        tile: None,
        block: 32,
        sums: false,
        workers: WORKERS,
    };
    let (mut source, length) = source_of(alloc, &files.plain)?;
    let mut sink = MemSink::new(alloc, Vec::new(alloc), 0);
    let source = &mut source;
    let sink = &mut sink;
    match pack(
        rt, source, length, NO_NAME, sink, meter, window, gate, &options,
    ) {
        Ok(()) => sink.contents().to_vec(alloc).map_err(no_memory),
        Err(stop) => Err(in_memory(stop)),
    }
}

/// Unpacks a packed file, and answers whether that gave the bytes of the file.
pub(crate) fn unpacks_to_file<R: Threads + Sync, G: Gate>(
    rt: &R,
    alloc: Global,
    files: &Files,
    packed: &[u8],
    meter: &mut Meter,
    window: &mut Window,
    gate: &G,
) -> Result<bool, Stop>
    requires packed { (codec : CodecWord) × (packed.now ≡ drill_packed files.now.rows codec) }
    requires ready { IsReady meter.old window.old }
    ensures same { IfOk result (λ same. same ≡ true) }
    ensures stops { Stops files.now.rows (file_takings Unpack packed.now 4) meter.old.limit result }
    ensures kept { KeepsAll files.now.rows meter.old meter.new window.old window.new }
    ensures exact_peak { OnOk result (meter.new.peak ≡ max meter.old.peak (highest (file_takings Unpack packed.now 4))) }
{
    // Nothing is refused of it, and it stands for one file.
    unpacks_law();
    bytes_law(&files.plain);
    one_first_fault_law();
    buffers_law();
    takings_law();
    let (mut source, length) = source_of(alloc, packed)?;
    let mut sink = MemSink::new(alloc, Vec::new(alloc), 0);
    let source = &mut source;
    let sink = &mut sink;
    match unpack(rt, source, length, NO_NAME, sink, meter, window, gate) {
        Ok(()) => Ok(sink.contents() == files.plain.as_slice()),
        Err(stop) => Err(in_memory(stop)),
    }
}

/// Cuts columns of all rows from a packed file, and answers whether that gave the bytes of the part.
pub(crate) fn cuts_to_part<R: Threads + Sync, G: Gate>(
    rt: &R,
    alloc: Global,
    files: &Files,
    packed: &[u8],
    meter: &mut Meter,
    window: &mut Window,
    gate: &G,
) -> Result<bool, Stop>
    requires packed { (codec : CodecWord) × (packed.now ≡ drill_packed files.now.rows codec) }
    requires ready { IsReady meter.old window.old }
    ensures same { IfOk result (λ same. same ≡ true) }
    ensures stops { Stops files.now.rows (file_takings (Cut None (drill_sieve files.now.rows)) packed.now 4) meter.old.limit result }
    ensures kept { KeepsAll files.now.rows meter.old meter.new window.old window.new }
    ensures exact_peak { OnOk result (meter.new.peak ≡ max meter.old.peak
        (highest (file_takings (Cut None (drill_sieve files.now.rows)) packed.now 4))) }
{
    // Nothing is refused of it, and one part is cut from it.
    cuts_law();
    bytes_law(&files.plain);
    one_first_fault_law();
    buffers_law();
    takings_law();
    let sieve = sieve_of(files.rows);
    let (mut source, length) = source_of(alloc, packed)?;
    let mut sink = MemSink::new(alloc, Vec::new(alloc), 0);
    let source = &mut source;
    let sink = &mut sink;
    match cut(
        rt, source, length, NO_NAME, sink, meter, window, gate, None, &sieve,
    ) {
        Ok(()) => Ok(sink.contents() == files.part.as_slice()),
        Err(stop) => Err(in_memory(stop)),
    }
}

// What is cut: some columns of all rows.
fn sieve_of(rows: u32) -> Sieve
    requires { IsRows rows }
    ensures { result ≡ drill_sieve rows }
{
    Sieve {
        n: 2,
        lo: [CUT_FROM, 0, 0, 0, 0, 0, 0, 0, 0],
        hi: [CUT_FROM + CUT_COLUMNS - 1, rows - 1, 0, 0, 0, 0, 0, 0, 0],
        step: [1, 1, 0, 0, 0, 0, 0, 0, 0],
    }
}

// Why a job on files in memory stopped: a sink that is set to fail at no call fails only for want of memory.
fn in_memory(stop: Stop) -> Stop
    ensures { result ≡ in_memory stop }
{
    match stop {
        Stop::WriteFault => Stop::NoMemory,
        other => other,
    }
}

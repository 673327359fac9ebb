//! A file in memory, packed and unpacked.
ghost use Rattle.std.specs.Prelude.{◌≡◌, ◌≤◌, ◌^◌, length as len, IfOk, IfErr};
ghost use Rattle.fz_tile.specs.Plain.{AreBytes};
ghost use Rattle.fz_files.specs.Packed.{IsPackedFile};
ghost use Rattle.fz_files.specs.StandsFor.{IsProfileFile, StandsFor};
ghost use Rattle.fz_files.specs.declared.job.Job.TheVariants.{Pack, Unpack};
ghost use Rattle.fz_app.specs.Memory.{IsCause, IsCauseOfBoth, default_options};

use crate::memory_run::run_between;
use crate::status::Status;
use fz_files::one_first_fault_law;
use fz_laws::{lossless_law, round_trip_law};
use std::alloc::Global;
use std::thread::Threads;

/// The packed file of a file of at most 2^62 bytes, by the options that `fz pack` has if none is given (FITS 4.0, section
/// 10.1).
///
/// An error is the status of the run: Refused for the first fault of the file; OverLimit for the first buffer that would pass
/// 4 GiB; NoMemory. No other comes.
pub fn pack_bytes<R: Threads + Sync>(rt: &R, alloc: Global, file: &[u8]) -> Result<Vec<u8>, Status>
    requires short { len file.now ≤ 2 ^ 62 }
    ensures packed { IfOk result (λ packed. IsPackedFile default_options file.now packed.items) }
    ensures taken { IfOk result (λ packed. IsProfileFile default_options file.now) }
    ensures cause { IfErr result (IsCause (Pack default_options) file.now) }
{
    bytes_law(file);
    run_between(rt, alloc, "pack", file)
}

/// The file that a packed file of at most 2^62 bytes stands for (FITS 4.0, section 10.1).
///
/// An error is the status of the run, as for `pack_bytes`.
pub fn unpack_bytes<R: Threads + Sync>(
    rt: &R,
    alloc: Global,
    packed: &[u8],
) -> Result<Vec<u8>, Status>
    requires short { len packed.now ≤ 2 ^ 62 }
    ensures restored { IfOk result (λ file. StandsFor packed.now file.items) }
    ensures cause { IfErr result (IsCause Unpack packed.now) }
{
    run_between(rt, alloc, "unpack", packed)
}

/// Packs a file of at most 2^62 bytes and unpacks what came out: the bytes are those of the file, its headers, fill and
/// checksums too.
///
/// An error is the status of the first run that did not succeed, or NoMemory if the packed file would have more than 2^62
/// bytes; only packing refuses a file.
pub fn pack_and_unpack<R: Threads + Sync>(
    rt: &R,
    alloc: Global,
    file: &[u8],
) -> Result<Vec<u8>, Status>
    requires short { len file.now ≤ 2 ^ 62 }
    ensures same { IfOk result (λ bytes. bytes.items ≡ file.now) }
    ensures taken { IfOk result (λ bytes. IsProfileFile default_options file.now) }
    ensures cause { IfErr result (IsCauseOfBoth file.now) }
{
    // The packed file has no fault, and stands for the file and for no other.
    round_trip_law();
    lossless_law();
    one_first_fault_law();
    let packed = pack_bytes(rt, alloc, file)?;
    if packed.len() > 1 << 62 {
        return Err(Status::NoMemory);
    }
    unpack_bytes(rt, alloc, &packed)
}

// Bytes in memory are bytes: no code runs.
fn bytes_law(bytes: &[u8])
    ensures { AreBytes bytes.now }
{}

//! One run of the program from bytes in memory to others.
ghost use Rattle.std.specs.Prelude.{◌≡◌, ◌≤◌, ◌^◌, length as len, Some, IfOk, IfErr};
ghost use Rattle.fz_files.specs.declared.job.Job.{Job};
ghost use Rattle.fz_words.specs.Parts.{texts_of};
ghost use Rattle.fz_app.specs.declared.status.Status.TheVariants.{NoMemory};
ghost use Rattle.fz_app.specs.Memory.{AsksFor, IsCause, Makes, words_for};

use crate::fixed_sink::FixedSink;
use crate::run_job::run;
use crate::status::Status;
use fz_base::{FixedSource, FreeGate, MemText, Meter, Sink, Source};
use std::alloc::{AllocError, Global};
use std::thread::Threads;

// More than `run` may use: it keeps within 4 GiB unless its words say otherwise.
const LIMIT: u64 = 1 << 40;

/// What a command without options writes for a file of at most 2^62 bytes, or the status of the run and its cause.
pub(crate) fn run_between<R: Threads + Sync>(
    rt: &R,
    alloc: Global,
    command: &str,
    file: &[u8],
) -> Result<Vec<u8>, Status>
    requires short { len file.now ≤ 2 ^ 62 }
    ensures makes { IfOk result (λ bytes. (job : Job) → AsksFor (words_for command.now) job → Makes job file.now bytes.items) }
    ensures cause { IfErr result (λ status. (job : Job) → AsksFor (words_for command.now) job → IsCause job file.now status) }
{
    let words = words_of(alloc, command).map_err(no_memory)?;
    let mut source = source_of(alloc, file).map_err(no_memory)?;
    let mut sink = FixedSink::new(alloc);
    let mut text = MemText::new(alloc, Vec::new(alloc));
    let mut meter = Meter::new(alloc, LIMIT);
    let status = run(
        rt,
        alloc,
        &words,
        &mut source,
        &mut sink,
        &mut text,
        &FreeGate,
        &mut meter,
    );
    match status {
        Status::Done => contents_of(alloc, &sink).map_err(no_memory),
        other => Err(other),
    }
}

// The words of a command from IN to OUT. Objects in memory take any names.
fn words_of(alloc: Global, command: &str) -> Result<Vec<String>, AllocError>
    ensures { IfOk result (λ words. texts_of words.items ≡ words_for command.now) }
{
    let mut words = Vec::new(alloc);
    words.push(String::from_str(alloc, command)?)?;
    words.push(String::from_str(alloc, "IN")?)?;
    words.push(String::from_str(alloc, "OUT")?)?;
    Ok(words)
}

fn source_of(alloc: Global, file: &[u8]) -> Result<FixedSource, AllocError>
    requires short { len file.now ≤ 2 ^ 62 }
    ensures { IfOk result (λ source. ⟦<FixedSource as Source>⟧.held source ≡ Some file.now) }
{
    Ok(FixedSource::new(file.to_vec(alloc)?))
}

fn contents_of(alloc: Global, sink: &FixedSink) -> Result<Vec<u8>, AllocError>
    ensures { IfOk result (λ bytes. ⟦<FixedSink as Sink>⟧.contents sink.now ≡ Some bytes.items) }
{
    sink.contents().to_vec(alloc)
}

// What a program answers that finds no memory.
fn no_memory(_: AllocError) -> Status
    ensures { result ≡ NoMemory }
{
    Status::NoMemory
}

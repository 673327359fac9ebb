//! The program: it makes the real source, sink, text, gate and meter, and calls `run`.
#![tactic(auto)]

ghost use Rattle.std.specs.Prelude.{◌≡◌, ◌^◌};
ghost use Rattle.fz_app.specs.Lines.{status_line};
ghost use Rattle.fz_app.specs.declared.status.Status.TheVariants.{NoMemory, WriteFault};

mod noted_store;
mod settled_sink;
mod telling;

use fz_app::{Status, begins_patch, run, run_patch};
use fz_base::{FileSource, FileStore, FreeGate, Meter, StdText, Text};
use fz_hints::Failing;
use noted_store::NotedStore;
use settled_sink::SettledSink;
use std::alloc::AllocError;
use std::fs::File;
use std::io::ErrorKind;
use std::os::fd::AsFd;
use std::process::ExitCode;
use std::rt::Files;
use std::thread::Threads;
use std::{env, io};
use telling::tell;

fn main(rt: HostRuntime) -> ExitCode {
    let answer = match keep_standard(&rt) {
        Ok(_kept) => match words_of(&rt) {
            Ok(words) => answer_to(&rt, &words, &mut StdText::new(rt.stderr())),
            Err(error) => Err(error),
        },
        Err(error) => without_standard(&rt, &error),
    };
    let status = match answer {
        Ok(status) => status,
        Err(AllocError) => without_memory(&rt),
    };
    ExitCode::from(status.number() as u8)
}

// How a run ended, and the first call that failed of the file that it writes.
#[derive(Clone, Copy)]
struct Ending {
    status: Status,
    failing: Failing,
}

// Does what the words ask for, and then prints to this text why it ended so, which changes nothing of how it ended.
fn answer_to<R, T: Text>(rt: &R, words: &[String], errors: &mut T) -> Result<Status, AllocError>
where
    R: Files<File = File> + Print + AllocGlobal + Threads + Sync + Clone + Drop,
{
    let ending = if begins_patch(words) {
        patch_with(rt, words)?
    } else {
        run_with(rt, words)?
    };
    tell(rt, words, &ending.status, ending.failing, errors);
    Ok(ending.status)
}

/// The most bytes of buffers.
fn limit() -> u64
    ensures { result ≡ 2 ^ 40 }
{
    1 << 40
}

/// The line of NoMemory.
fn no_memory_line() -> &'static str
    ensures { result.now ≡ status_line NoMemory }
{
    "no memory\n"
}

/// The line of WriteFault.
fn write_fault_line() -> &'static str
    ensures { result.now ≡ status_line WriteFault }
{
    "write fault\n"
}

// Prints the line of NoMemory, a constant that takes no memory: `run`, which prints it otherwise, was not reached.
fn without_memory(rt: &HostRuntime) -> Status {
    let _ = rt.print(no_memory_line());
    Status::NoMemory
}

// How the program ends if a standard stream is closed and nothing could be opened in its place.
fn without_standard(rt: &HostRuntime, error: &io::Error) -> Result<Status, AllocError> {
    if error.kind() == ErrorKind::OutOfMemory {
        return Err(AllocError);
    }
    let _ = rt.print(write_fault_line());
    Ok(Status::WriteFault)
}

// Runs the program over real files and standard output.
fn run_with<R>(rt: &R, words: &[String]) -> Result<Ending, AllocError>
where
    R: Files<File = File> + Print + AllocGlobal + Threads + Sync + Clone + Drop,
{
    let mut source = FileSource::new(rt.clone()?);
    let mut sink = SettledSink::new(rt.clone()?);
    let mut text = StdText::new(rt.clone()?);
    let mut meter = Meter::new(rt.alloc(), limit());
    let status = run(
        rt,
        rt.alloc(),
        words,
        &mut source,
        &mut sink,
        &mut text,
        &FreeGate,
        &mut meter,
    );
    Ok(Ending {
        status,
        failing: sink.failing(),
    })
}

// Patches a real file, which it also locks.
fn patch_with<R>(rt: &R, words: &[String]) -> Result<Ending, AllocError>
where
    R: Files<File = File> + Print + AllocGlobal + Threads + Sync + Clone + Drop,
{
    let mut patch = FileSource::new(rt.clone()?);
    let mut store = NotedStore::new(FileStore::new(rt.clone()?));
    let mut text = StdText::new(rt.clone()?);
    let mut meter = Meter::new(rt.alloc(), limit());
    let status = run_patch(
        rt,
        rt.alloc(),
        words,
        &mut patch,
        &mut store,
        &mut text,
        &mut meter,
    );
    Ok(Ending {
        status,
        failing: store.failing(),
    })
}

// The words after the program's name. Words that are not text are none that the program knows, so no
// words stand for them.
fn words_of(rt: &HostRuntime) -> Result<Vec<String>, AllocError> {
    match env::args(rt) {
        Ok(args) => args.skip(1).collect(rt.alloc()),
        Err(error) if error.kind() == ErrorKind::OutOfMemory => Err(AllocError),
        Err(_) => {
            let _ = rt.eprint("fz: a word of the command line is not UTF-8\n");
            Ok(Vec::new(rt.alloc()))
        }
    }
}

// What was opened in the place of standard streams that were closed when the program started.
#[derive(Drop)]
struct Kept {
    _input: Option<File>,
    _output: Option<File>,
    _errors: Option<File>,
}

// Opens each standard stream that is closed. Otherwise IN or OUT would get its number, and a line that is printed would
// go into OUT.
fn keep_standard(rt: &HostRuntime) -> io::Result<Kept> {
    Ok(Kept {
        _input: stand_in(rt, &rt.stdin())?,
        _output: stand_in(rt, &rt.stdout())?,
        _errors: stand_in(rt, &rt.stderr())?,
    })
}

// A file in the place of a stream that cannot be duplicated, so is closed. The file gets the lowest number that is free,
// and that is the number of the stream if those before it are open. It is open for reading only, so a line that is
// printed there is a write fault, as before.
fn stand_in<S: AsFd>(rt: &HostRuntime, stream: &S) -> io::Result<Option<File>> {
    match stream.as_fd().try_clone_to_owned() {
        Ok(_) => Ok(None),
        Err(_) => Ok(Some(File::open(rt, "/dev/null")?)),
    }
}

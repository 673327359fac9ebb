//! Why a file could not be read or written.
use crate::command::Command;
use crate::ended::Failing;
use crate::files::{Found, Run, folder_of, found_at, print_error};
use crate::lines::Lines;
use std::fs::{File, OpenOptions};
use std::rt::Files;

/// Prints why a file could not be read. FILE of `patch` is attached first, so it is the cause if a call of it failed.
pub(crate) fn print_read_fault<R: Files<File = File> + AllocGlobal>(
    rt: &R,
    run: &Run<'_>,
    failing: Failing,
    lines: &mut Lines,
) {
    match failing {
        Failing::Opening if run.command == Command::Patch => print_unpatched(
            rt,
            run.written,
            lines,
        ),
        Failing::Reading => print_unread(rt, run.written, lines),
        _ => print_unread(rt, run.read, lines),
    }
}

// Why a file could not be opened or read.
fn print_unread<R: Files<File = File> + AllocGlobal>(rt: &R, name: &str, lines: &mut Lines) {
    if is_found(rt, name, lines) {
        match File::open(rt, name) {
            Err(error) => print_error(rt.alloc(), name, &error, lines),
            Ok(_) => lines.line(&[
                name,
                " could not be read: the disk failed, or the file was changed meanwhile",
            ]),
        }
    }
}

// Why a file could not be opened for reading and writing, and locked. It is not locked here.
fn print_unpatched<R: Files<File = File> + AllocGlobal>(rt: &R, name: &str, lines: &mut Lines) {
    if is_found(rt, name, lines) {
        match OpenOptions::new().read(true).write(true).open(rt, name) {
            Err(error) => print_error(rt.alloc(), name, &error, lines),
            Ok(_) => lines.line(&[name, " is locked: another fz patch writes in it"]),
        }
    }
}

// Whether there is a file of this name. If not, prints what is there.
fn is_found<R: Files<File = File> + AllocGlobal>(rt: &R, name: &str, lines: &mut Lines) -> bool {
    match found_at(rt, name) {
        Ok(Found::File) => return true,
        Ok(Found::Directory) => lines.line(&[name, " is a directory, not a file"]),
        Ok(Found::Other) => lines.line(&[name, " is a pipe or a device, which fz does not read"]),
        Err(error) => print_error(rt.alloc(), name, &error, lines),
    }
    false
}

/// Prints why a file, or standard output, could not be written.
pub(crate) fn print_write_fault<R: Files<File = File> + AllocGlobal>(
    rt: &R,
    run: &Run<'_>,
    failing: Failing,
    lines: &mut Lines,
) {
    match failing {
        Failing::Opening => print_unmade(rt, run.written, lines),
        Failing::Writing if run.command == Command::Patch => print_half_patched(run.written, lines),
        Failing::Writing => print_unwritten(run.written, lines),
        _ => lines.line(&["standard output could not be written"]),
    }
}

// Why a file could not be made.
fn print_unmade<R: Files<File = File> + AllocGlobal>(rt: &R, name: &str, lines: &mut Lines) {
    match rt.symlink_metadata(name) {
        Ok(found) if found.is_dir() => lines.line(&[
            name,
            " is a directory; name a file that is not there",
        ]),
        Ok(_) => lines.line(&[name, " is there already; fz never writes over a file"]),
        Err(_) => print_folder(rt, name, lines),
    }
}

// What is wrong with the folder of a file that could not be made.
fn print_folder<R: Files<File = File> + AllocGlobal>(rt: &R, name: &str, lines: &mut Lines) {
    let folder = folder_of(name);
    match found_at(rt, folder) {
        Ok(Found::Directory) => lines.line(&[
            name,
            " could not be made: writing in its folder is not allowed, or the disk is full",
        ]),
        Ok(_) => lines.line(&[name, ": ", folder, " is no directory"]),
        Err(error) => print_error(rt.alloc(), folder, &error, lines),
    }
}

// That an output is incomplete.
fn print_unwritten(name: &str, lines: &mut Lines) {
    lines.line(&[
        name,
        " could not be written: the disk is full, a quota is reached, or the disk failed",
    ]);
    lines.line(&["what is there of it is incomplete: remove it"]);
}

// That a patch was stopped.
fn print_half_patched(name: &str, lines: &mut Lines) {
    lines.line(&[
        name,
        " could not be written: the disk is full, a quota is reached, or the disk failed",
    ]);
    lines.line(&[
        "make the same patch once more; if fz list rejects the file, first cut it back to its old length (truncate -s)",
    ]);
}

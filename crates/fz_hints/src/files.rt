//! The files that words name, looked at a second time.
use crate::command::Command;
use crate::lines::Lines;
use fz_words::{read_patch_words, read_words};
use std::alloc::Global;
use std::fs::File;
use std::io;
use std::rt::Files;

/// The command of a run, and its files.
#[derive(Clone, Copy)]
pub(crate) struct Run<'a> {
    pub(crate) command: Command,
    /// The file that is read: IN or PATCH. It is empty if there is none.
    pub(crate) read: &'a str,
    /// The file that is written: OUT or FILE. It is empty if there is none.
    pub(crate) written: &'a str,
}

/// The command and the files of words that ask for something.
pub(crate) fn run_of(words: &[String]) -> Option<Run<'_>> {
    let [first, ..] = words else {
        return None;
    };
    let command = Command::named(first.as_str())?;
    if command == Command::Patch {
        let request = read_patch_words(words).ok()?;
        return Some(Run {
            command,
            read: request.patch,
            written: request.file,
        });
    }
    let request = read_words(words).ok()?;
    Some(Run {
        command,
        read: request.input,
        written: request.output,
    })
}

/// What is found under a name.
#[derive(Clone, Copy, Debug, PartialEq, Eq)]
pub(crate) enum Found {
    File,
    Directory,
    Other,
}

/// What is found under this name. Nothing is opened: a pipe would be waited for.
pub(crate) fn found_at<R: Files<File = File>>(rt: &R, name: &str) -> io::Result<Found> {
    let found = rt.metadata(name)?;
    if found.is_dir() {
        Ok(Found::Directory)
    } else if found.is_file() {
        Ok(Found::File)
    } else {
        Ok(Found::Other)
    }
}

/// The folder in which a name is: what is before its last slash.
pub(crate) fn folder_of(name: &str) -> &str {
    match name.rsplit_once('/') {
        Some(("", _)) => "/",
        Some((folder, _)) => folder,
        None => ".",
    }
}

/// One line: the name of a file, and what the system said of it.
pub(crate) fn print_error(alloc: Global, name: &str, error: &io::Error, lines: &mut Lines) {
    match format!(in alloc; "{error}") {
        Ok(said) => lines.line(&[name, ": ", without_number(said.as_str())]),
        Err(_) => lines.line(&[name, ": the system reports an error"]),
    }
}

// What the system says of an error, without the error's number.
fn without_number(said: &str) -> &str {
    match said.split_once(" (os error ") {
        Some((text, _)) => text,
        None => said,
    }
}

//! A source over a file of the system.
ghost use Rattle.std.specs.Prelude.{◌≡◌, ◌^◌, ◌≤◌, None};
ghost use Rattle.std.specs.Option.{option_map};
ghost use Rattle.fz_base.specs.Counts.{tally_of, uncounted};

use crate::calls::Counts;
use crate::{Failed, Source};
use std::fs::{File, Metadata};
use std::io::ErrorKind;
use std::os::unix::fs::FileExt;
use std::rt::Files;
use std::{fs, io};

/// A longer file is not attached.
const MAX_LEN: u64 = 1 << 62;

/// A file that is open, and its length.
#[derive(Drop)]
pub(crate) struct Opened {
    pub(crate) file: File,
    pub(crate) size: u64,
    ghost near: { size ≤ 2 ^ 62 },
}

/// A source over a regular file, which it opens for reading: what is no regular file is a fault. It shows neither its bytes nor its ranges: that
/// the file holds what is read is trusted.
#[derive(Drop)]
pub struct FileSource<R: Files<File = File>> {
    rt: R,
    opened: Option<Opened>,
    counts: Counts,
}

impl<R: Files<File = File>> FileSource<R> {
    /// A source that is not attached yet.
    pub fn new(rt: R) -> FileSource<R>
        ensures held { ⟦<FileSource<R> as Source>⟧.held result ≡ None }
        ensures ranges { ⟦<FileSource<R> as Source>⟧.ranges result ≡ None }
        ensures attached { ⟦<FileSource<R> as Source>⟧.attached result ≡ None }
        ensures tally { ⟦<FileSource<R> as Source>⟧.tally result ≡ uncounted }
    {
        FileSource {
            rt,
            opened: None,
            counts: Counts::new(),
        }
    }
}

fn open<R: Files<File = File>>(rt: &R, name: &str) -> io::Result<Opened> {
    look_for_file(rt, name)?;
    measured(File::open(rt, name)?)
}

/// An error if what has this name is no regular file. It comes before the file is opened, since a FIFO that has no writer would hold
/// the program there.
pub(crate) fn look_for_file<R: Files<File = File>>(rt: &R, name: &str) -> io::Result<()> {
    check_sort(&fs::metadata(rt, name)?)
}

// An error if this is no regular file: a directory, a pipe or a device has no length that a reader could trust.
fn check_sort(found: &Metadata) -> io::Result<()> {
    if found.is_file() {
        return Ok(());
    }
    Err(io::Error::from(ErrorKind::Unsupported))
}

/// The file with its length, or an error if it is no regular file, or longer than a file may be.
pub(crate) fn measured(file: File) -> io::Result<Opened> {
    let found = file.metadata()?;
    check_sort(&found)?;
    let size = found.len();
    if size > MAX_LEN {
        return Err(io::Error::from(ErrorKind::Unsupported));
    }
    Ok(Opened { file, size })
}

impl<R: Files<File = File>> Source for FileSource<R> {
    ghost use Rattle.fz_base.specs.Agreement.{near_of};

    ghost held = { λ _. None };

    ghost ranges = { λ _. None };

    ghost attached = { λ s. option_map (λ o. o.size) s.opened };

    ghost tally = { λ s. tally_of s.counts };

    fn attach(&mut self, name: &str) -> Result<u64, Failed> {
        let opened = self.counts.noted(open(&self.rt, name))?;
        let size = opened.size;
        self.opened = Some(opened);
        Ok(size)
    }

    fn read_at(&mut self, at: u64, into: &mut [u8]) -> Result<(), Failed> {
        let Some(opened) = &self.opened else {
            unreachable!()
        };
        self.counts.noted(opened.file.read_exact_at(into, at))
    }

    ghost agrees = { λ _ _ _. tt };

    ghost near = { λ s n e. near_of (λ o. o.size) s.opened n (λ o. o.near) e };

    ghost octets = { λ _. tt };
}

//! A sink over a file of the system.
ghost use Rattle.std.specs.Prelude.{◌≡◌, None, false, is_some};
ghost use Rattle.fz_base.specs.Counts.{tally_of, uncounted};

use crate::calls::Counts;
use crate::{Failed, Sink};
use std::fs::{File, OpenOptions};
use std::io;
use std::io::ErrorKind;
use std::os::unix::fs::FileExt;
use std::rt::Files;

/// A sink over a file, which it makes new: a file that is there already is a fault. It shows no
/// contents: that the file holds what was written is trusted.
#[derive(Drop)]
pub struct FileSink<R: Files<File = File>> {
    rt: R,
    file: Option<File>,
    finished: bool,
    counts: Counts,
}

impl<R: Files<File = File>> FileSink<R> {
    /// A sink that has made no file yet.
    pub fn new(rt: R) -> FileSink<R>
        ensures contents { ⟦<FileSink<R> as Sink>⟧.contents result ≡ None }
        ensures created { ⟦<FileSink<R> as Sink>⟧.created result ≡ false }
        ensures finished { ⟦<FileSink<R> as Sink>⟧.finished result ≡ false }
        ensures tally { ⟦<FileSink<R> as Sink>⟧.tally result ≡ uncounted }
    {
        FileSink {
            rt,
            file: None,
            finished: false,
            counts: Counts::new(),
        }
    }
}

/// Writes all bytes at a place that a file can have.
pub(crate) fn write_all(file: &File, at: u64, bytes: &[u8]) -> io::Result<()> {
    if at > i64::MAX as u64 - bytes.len() as u64 {
        return Err(io::Error::from(ErrorKind::FileTooLarge));
    }
    file.write_all_at(bytes, at)
}

impl<R: Files<File = File>> Sink for FileSink<R> {
    ghost contents = { λ _. None };

    ghost created = { λ s. is_some s.file };

    ghost finished = { λ s. s.finished };

    ghost tally = { λ s. tally_of s.counts };

    fn create(&mut self, name: &str) -> Result<(), Failed> {
        let made = OpenOptions::new()
            .write(true)
            .create_new(true)
            .open(&self.rt, name);
        self.file = Some(self.counts.noted(made)?);
        self.finished = false;
        Ok(())
    }

    fn write_at(&mut self, at: u64, bytes: &[u8]) -> Result<(), Failed> {
        let Some(file) = &self.file else {
            unreachable!()
        };
        self.finished = false;
        self.counts.noted(write_all(file, at, bytes))
    }

    fn finish(&mut self) -> Result<(), Failed> {
        let Some(file) = &self.file else {
            unreachable!()
        };
        self.counts.noted(file.sync_all())?;
        self.finished = true;
        Ok(())
    }
}

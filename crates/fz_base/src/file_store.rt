//! A store over a file of the system.
ghost use Rattle.std.specs.Prelude.{◌≡◌, None};
ghost use Rattle.std.specs.Option.{option_map};
ghost use Rattle.fz_base.specs.Counts.{store_tally, uncounted};

use crate::calls::Counts;
use crate::file_sink::write_all;
use crate::file_source::{Opened, look_for_file, measured};
use crate::{Failed, Source, Store};
use std::fs::{File, OpenOptions, TryLockError};
use std::io;
use std::io::ErrorKind;
use std::os::unix::fs::FileExt;
use std::rt::Files;

/// A store over a file that is there, which it opens for reading and writing and locks, so that no other
/// store writes in it: one that is locked already is a fault. It shows neither its bytes, nor its ranges,
/// nor its writes: that the file holds what is read and written is trusted.
#[derive(Drop)]
pub struct FileStore<R: Files<File = File>> {
    rt: R,
    opened: Option<Opened>,
    counts: Counts,
}

impl<R: Files<File = File>> FileStore<R> {
    /// A store that is not attached yet.
    pub fn new(rt: R) -> FileStore<R>
        ensures held { ⟦<FileStore<R> as Source>⟧.held result ≡ None }
        ensures ranges { ⟦<FileStore<R> as Source>⟧.ranges result ≡ None }
        ensures attached { ⟦<FileStore<R> as Source>⟧.attached result ≡ None }
        ensures tally { ⟦<FileStore<R> as Source>⟧.tally result ≡ uncounted }
    {
        FileStore {
            rt,
            opened: None,
            counts: Counts::new(),
        }
    }
}

// Opens a regular file and locks it. A file system that has no locks is no error.
fn open_locked<R: Files<File = File>>(rt: &R, name: &str) -> io::Result<Opened> {
    look_for_file(rt, name)?;
    let file = OpenOptions::new().read(true).write(true).open(rt, name)?;
    match file.try_lock() {
        Err(TryLockError::WouldBlock) => Err(io::Error::from(ErrorKind::WouldBlock)),
        _ => measured(file),
    }
}

impl<R: Files<File = File>> Source for FileStore<R> {
    ghost use Rattle.fz_base.specs.Agreement.{near_of};

    ghost held = { λ _. None };

    ghost ranges = { λ _. None };

    ghost attached = { λ s. option_map (λ o. o.size) s.opened };

    ghost tally = { λ s. store_tally None 0 s.counts };

    fn attach(&mut self, name: &str) -> Result<u64, Failed> {
        let opened = self.counts.noted(open_locked(&self.rt, name))?;
        let size = opened.size;
        self.opened = Some(opened);
        Ok(size)
    }

    fn read_at(&mut self, at: u64, into: &mut [u8]) -> Result<(), Failed> {
        let Some(opened) = &self.opened else {
            unreachable!()
        };
        self.counts.noted(opened.file.read_exact_at(into, at))
    }

    ghost agrees = { λ _ _ _. tt };

    ghost near = { λ s n e. near_of (λ o. o.size) s.opened n (λ o. o.near) e };

    ghost octets = { λ _. tt };
}

impl<R: Files<File = File>> Store for FileStore<R> {
    fn amend(&mut self, at: u64, bytes: &[u8]) -> Result<(), Failed> {
        let Some(opened) = &mut self.opened else {
            unreachable!()
        };
        self.counts.noted_write(write_all(&opened.file, at, bytes))?;
        opened.size = opened.size.max(at + bytes.len() as u64);
        Ok(())
    }

    fn settle(&mut self) -> Result<(), Failed> {
        let Some(opened) = &self.opened else {
            unreachable!()
        };
        self.counts.noted_write(opened.file.sync_data())
    }
}

//! The sink of the program: OUT, of which the disk has all other bytes before its first byte is written.
ghost use Rattle.std.specs.Prelude.{◌≡◌, ◌<◌, IsTrue, length as len, None, false};
ghost use Rattle.fz_base.specs.Counts.{HasCause, uncounted};

use crate::telling::first_failing;
use fz_base::{Failed, FileSink, Sink};
use fz_hints::Failing;
use std::fs::File;
use std::rt::Files;

/// A sink over a file that waits for the disk before it writes byte 0. A disk may keep writes in another order than they were made
/// in; so after a loss of power a file that has its first byte has all others too, if byte 0 is written last. It keeps which call
/// failed first.
#[derive(Drop)]
pub struct SettledSink<R: Files<File = File>> {
    file: FileSink<R>,
    finished: bool,
    failing: Failing,
}

impl<R: Files<File = File>> SettledSink<R> {
    /// A sink that has made no file yet.
    pub fn new(rt: R) -> SettledSink<R>
        ensures contents { ⟦<SettledSink<R> as Sink>⟧.contents result ≡ None }
        ensures created { ⟦<SettledSink<R> as Sink>⟧.created result ≡ false }
        ensures finished { ⟦<SettledSink<R> as Sink>⟧.finished result ≡ false }
        ensures tally { ⟦<SettledSink<R> as Sink>⟧.tally result ≡ uncounted }
    {
        SettledSink {
            file: FileSink::new(rt),
            finished: false,
            failing: Failing::Nothing,
        }
    }

    /// The first call that failed.
    pub fn failing(&self) -> Failing {
        self.failing
    }
}

impl<R: Files<File = File>> Sink for SettledSink<R> {
    ghost contents = { λ _. None };

    ghost created = { λ s. ⟦<FileSink<R> as Sink>⟧.created s.file };

    ghost finished = { λ s. s.finished };

    ghost tally = { λ s. ⟦<FileSink<R> as Sink>⟧.tally s.file };

    fn create(&mut self, name: &str) -> Result<(), Failed> {
        let answer = self.file.create(name);
        self.failing = first_failing(self.failing, Failing::Opening, &answer);
        answer?;
        self.finished = false;
        Ok(())
    }

    fn write_at(&mut self, at: u64, bytes: &[u8]) -> Result<(), Failed> {
        self.finished = false;
        let answer = write(&mut self.file, at, bytes);
        self.failing = first_failing(self.failing, Failing::Writing, &answer);
        answer
    }

    fn finish(&mut self) -> Result<(), Failed> {
        let answer = self.file.finish();
        self.failing = first_failing(self.failing, Failing::Writing, &answer);
        answer?;
        self.finished = true;
        Ok(())
    }
}

// Writes bytes. Before byte 0 the file is finished.
fn write<R: Files<File = File>>(file: &mut FileSink<R>, at: u64, bytes: &[u8]) -> Result<(), Failed>
    requires created { IsTrue (⟦<FileSink<R> as Sink>⟧.created file.old) }
    requires some { 0 < len bytes.now }
    ensures created { ⟦<FileSink<R> as Sink>⟧.created file.new ≡ ⟦<FileSink<R> as Sink>⟧.created file.old }
    ensures cause { HasCause (⟦<FileSink<R> as Sink>⟧.tally file.old) (⟦<FileSink<R> as Sink>⟧.tally file.new) result }
{
    if at > 0 {
        return file.write_at(at, bytes);
    }
    file.finish()?;
    write_first(file, bytes)
}

// Writes from byte 0 on. The file has to be finished, so that the disk has all that was written before.
fn write_first<R: Files<File = File>>(file: &mut FileSink<R>, bytes: &[u8]) -> Result<(), Failed>
    requires settled { IsTrue (⟦<FileSink<R> as Sink>⟧.finished file.old) }
    requires created { IsTrue (⟦<FileSink<R> as Sink>⟧.created file.old) }
    requires some { 0 < len bytes.now }
    ensures created { ⟦<FileSink<R> as Sink>⟧.created file.new ≡ ⟦<FileSink<R> as Sink>⟧.created file.old }
    ensures cause { HasCause (⟦<FileSink<R> as Sink>⟧.tally file.old) (⟦<FileSink<R> as Sink>⟧.tally file.new) result }
{
    file.write_at(0, bytes)
}

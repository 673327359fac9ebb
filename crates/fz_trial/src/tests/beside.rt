//! That the tiles of one half are coded while those of the other are written.
ghost use Rattle.fz_base.specs.Counts.{Tally};

use crate::tests::alike::alike;
use crate::tests::rows::{packed_rows, plain_rows};
use crate::words::command;
use fz_app::{Status, run};
use fz_base::{Failed, Gate, MemSink, MemSource, MemText, Meter, Sink};
use std::alloc::AllocError;
use std::sync::atomic::{AtomicU64, Ordering};
use std::test::Fail;
use std::thread::Threads;

/// A gate and a sink wait for each other: the call for tile 16, the first of the second half, and the write of what comes of the
/// first half. For each there is whether it came, 1, and met the other, 2.
#[derive(Drop)]
struct Meeting {
    gate: AtomicU64,
    sink: AtomicU64,
}

impl Meeting {
    fn new() -> Meeting {
        Meeting {
            gate: AtomicU64::new(0),
            sink: AtomicU64::new(0),
        }
    }

    /// What both are.
    fn counts(&self) -> (u64, u64) {
        (
            self.gate.load(Ordering::SeqCst),
            self.sink.load(Ordering::SeqCst),
        )
    }
}

// Comes, and waits until the other has come.
fn meet(own: &AtomicU64, other: &AtomicU64) {
    own.store(1, Ordering::SeqCst);
    for _ in 0..1_000_000_000u64 {
        if other.load(Ordering::SeqCst) > 0 {
            own.store(2, Ordering::SeqCst);
            return;
        }
    }
}

impl Gate for Meeting {
    fn pass(&self, _worker: u32, tile: u32) {
        if tile == 16 {
            meet(&self.gate, &self.sink);
        }
    }
}

/// A sink that waits before it writes at a place.
#[derive(Drop)]
struct WaitingSink<'a> {
    sink: MemSink,
    meeting: &'a Meeting,
    place: u64,
}

impl Sink for WaitingSink<'_> {
    ghost use Rattle.fz_base.specs.Counts.{Tally};

    ghost contents = { λ s. ⟦<MemSink as Sink>⟧.contents s.sink };

    ghost created = { λ s. ⟦<MemSink as Sink>⟧.created s.sink };

    ghost finished = { λ s. ⟦<MemSink as Sink>⟧.finished s.sink };

    ghost tally = { λ s. ⟦<MemSink as Sink>⟧.tally s.sink };

    fn create(&mut self, name: &str) -> Result<(), Failed> {
        self.sink.create(name)
    }

    fn write_at(&mut self, at: u64, bytes: &[u8]) -> Result<(), Failed> {
        if at == self.place {
            meet(&self.meeting.sink, &self.meeting.gate);
        }
        self.sink.write_at(at, bytes)
    }

    fn finish(&mut self) -> Result<(), Failed> {
        self.sink.finish()
    }
}

/// How the words end with 16 workers that meet at a place of the file that is made, and what it leaves.
fn left_by<R: Threads + Sync + AllocGlobal>(
    rt: &R,
    words: &str,
    input: &[u8],
    place: u64,
    meeting: &Meeting,
) -> Result<(Status, Vec<u8>), AllocError> {
    let alloc = rt.alloc();
    let words = command(alloc, words)?;
    let bytes = input.to_vec(alloc)?;
    if bytes.len() > 1 << 32 {
        return Err(AllocError);
    }
    let mut source = MemSource::new(alloc, bytes, Vec::new(alloc));
    let sink = MemSink::new(alloc, Vec::new(alloc), 0);
    let mut sink = WaitingSink {
        sink,
        meeting,
        place,
    };
    let mut text = MemText::new(alloc, Vec::new(alloc));
    let mut meter = Meter::new(alloc, 1 << 40);
    let status = run(
        rt,
        alloc,
        &words,
        &mut source,
        &mut sink,
        &mut text,
        meeting,
        &mut meter,
    );
    Ok((status, sink.sink.contents().to_vec(alloc)?))
}

// It fails a job that writes the tiles of one half before those of the other are begun, or after them. In the packed file the
// rows are after an empty primary and a header, in the plain one the pixels after a header.
#[test]
fn one_half_is_written_while_the_other_is_coded(rt: HostRuntime) -> Result<(), Fail> {
    let plain = plain_rows(rt.alloc(), 40)?;
    let packed = packed_rows(rt.alloc(), 40)?;
    for (words, place, input, output) in [
        ("pack --workers=16 IN OUT", 5760, &plain, &packed),
        ("unpack --workers=16 IN OUT", 2880, &packed, &plain),
    ] {
        let meeting = Meeting::new();
        let (status, left) = left_by(&rt, words, input, place, &meeting)?;
        let is_same = left.as_slice() == output.as_slice();
        alike(
            &rt,
            (status, is_same, meeting.counts()),
            (Status::Done, true, (2, 2)),
        );
    }
    Ok(())
}

//! Runs of the words over a file in memory.
ghost use Rattle.std.specs.Prelude.{◌≡◌, [], Some, IfOk};

use crate::conditions::Conditions;
use crate::facts::Facts;
use crate::left::Left;
use crate::named::{NamedSink, NamedSource};
use fz_app::{Status, run};
use fz_base::{Gate, MemSink, MemSource, MemText, Meter, Sink};
use std::alloc::{AllocError, Global};
use std::thread::Threads;

/// What a run answered and left after.
#[derive(Drop)]
pub(crate) struct Outcome {
    pub(crate) status: Status,
    pub(crate) source: NamedSource<MemSource>,
    pub(crate) sink: NamedSink,
    pub(crate) text: MemText,
    pub(crate) live: u64,
    pub(crate) peak: u64,
}

impl Outcome {
    /// How it ended.
    pub(crate) fn left(&self) -> Left<'_> {
        Left {
            status: self.status,
            file: self.sink.contents(),
            text: self.text.contents(),
            faults: (self.source.faults(), self.sink.faults()),
            live: self.live,
        }
    }

    /// What can be asked of it.
    pub(crate) fn facts(&self) -> Facts<'_> {
        Facts {
            opened: self.source.opened(),
            given: None,
            made: self.sink.made(),
            settled: 0,
            reads: self.source.source().reads(),
            writes: 0,
            peak: self.peak,
        }
    }
}

/// A source of this name over a file of at most 2^32 bytes, of which this call fails.
pub(crate) fn source_of(
    alloc: Global,
    name: &str,
    file: &[u8],
    failing: u32,
) -> Result<NamedSource<MemSource>, AllocError> {
    let name = String::from_str(alloc, name)?;
    let bytes = file.to_vec(alloc)?;
    if bytes.len() > 1 << 32 {
        return Err(AllocError);
    }
    let source = MemSource::new(alloc, bytes, vec![in alloc; failing]?);
    Ok(NamedSource::new(source, name))
}

// The empty sink.
fn sink_of(alloc: Global, on: &Conditions) -> Result<NamedSink, AllocError>
    ensures { IfOk result (λ s. ⟦<NamedSink as Sink>⟧.contents s ≡ Some []) }
{
    let name = on.output.clone()?;
    let sink = MemSink::new(alloc, vec![in alloc; on.sink]?, on.keep);
    Ok(NamedSink::new(sink, name))
}

/// Runs the words over a file of at most 2^32 bytes.
pub(crate) fn outcome_of<R: Threads + Sync + AllocGlobal, G: Gate>(
    rt: &R,
    words: &[String],
    file: &[u8],
    on: &Conditions,
    gate: &G,
) -> Result<Outcome, AllocError> {
    let alloc = rt.alloc();
    let mut source = source_of(alloc, &on.input, file, on.source)?;
    let mut sink = sink_of(alloc, on)?;
    let mut text = MemText::new(alloc, vec![in alloc; on.text]?);
    let mut meter = Meter::new(alloc, on.limit);
    let status = run(
        rt,
        alloc,
        words,
        &mut source,
        &mut sink,
        &mut text,
        gate,
        &mut meter,
    );
    Ok(Outcome {
        status,
        source,
        sink,
        text,
        live: meter.live(),
        peak: meter.peak(),
    })
}

//! Sweeps: runs in which each call of the source, or of the sink, fails in turn.
use crate::amiss::Amiss;
use crate::conditions::Conditions;
use crate::left::Left;
use crate::runs::outcome_of;
use crate::shelf::Shelf;
use crate::words::{command, first_word, join, number};
use fz_app::Status;
use fz_base::FreeGate;
use std::alloc::AllocError;
use std::thread::Threads;

/// The most runs of a sweep.
const MOST: u32 = 1000;

/// Whose calls fail.
#[derive(Clone, Copy)]
enum Failing {
    Source,
    Sink,
}

impl Failing {
    fn of(word: &str) -> Result<Failing, Amiss> {
        match word {
            "source" => Ok(Failing::Source),
            "sink" => Ok(Failing::Sink),
            _ => Err(Amiss::NotUnderstood),
        }
    }

    fn name(self) -> &'static str {
        match self {
            Failing::Source => "source",
            Failing::Sink => "sink",
        }
    }

    // Has this call fail.
    fn set(self, on: &mut Conditions, call: u32) {
        match self {
            Failing::Source => on.source = call,
            Failing::Sink => on.sink = call,
        }
    }
}

/// Runs what a line says, whose calls fail, how many at least, FILE and the words, and adds how the runs ended.
pub(crate) fn say_sweep<R: Threads + Sync + AllocGlobal>(
    rt: &R,
    shelf: &Shelf,
    line: &str,
    on: &mut Conditions,
    said: &mut String,
) -> Result<(), Amiss> {
    let (failing, rest) = first_word(line);
    let failing = Failing::of(failing)?;
    let (least, rest) = first_word(rest);
    let least = number(least)?;
    let (name, rest) = first_word(rest);
    let file = shelf.file(name)?;
    let words = command(rt.alloc(), rest)?;
    add_head(said, &words, failing)?;
    let calls = add_runs(rt, shelf, file, &words, on, failing, said)?;
    add_end(said, calls, least)?;
    Ok(())
}

// Adds the first line of a sweep.
fn add_head(said: &mut String, words: &[String], failing: Failing) -> Result<(), AllocError> {
    join(said, words)?;
    said.push_str(": calls of the ")?;
    said.push_str(failing.name())?;
    said.push_str(" fail in turn\n")
}

// Adds how each run ended that ended otherwise than the one before it, and answers how many calls failed.
fn add_runs<R: Threads + Sync + AllocGlobal>(
    rt: &R,
    shelf: &Shelf,
    file: &[u8],
    words: &[String],
    on: &mut Conditions,
    failing: Failing,
    said: &mut String,
) -> Result<u32, AllocError> {
    let mut before = String::new(rt.alloc());
    for call in 0..MOST {
        failing.set(on, call);
        let (is_done, now) = ended(rt, shelf, file, words, on)?;
        if now.as_str() != before.as_str() {
            said.push_str(&now)?;
        }
        if is_done {
            return Ok(call);
        }
        before = now;
    }
    Ok(MOST)
}

// Whether a run is done, and how it ended.
fn ended<R: Threads + Sync + AllocGlobal>(
    rt: &R,
    shelf: &Shelf,
    file: &[u8],
    words: &[String],
    on: &Conditions,
) -> Result<(bool, String), AllocError> {
    let mut now = String::new(rt.alloc());
    let outcome = outcome_of(rt, words, file, on, &FreeGate)?;
    let left = Left {
        faults: (0, 0),
        ..outcome.left()
    };
    left.add_to(&mut now, shelf)?;
    Ok((outcome.status == Status::Done, now))
}

// Adds the last line of a sweep.
fn add_end(said: &mut String, calls: u32, least: u32) -> Result<(), AllocError> {
    if calls >= least && calls < MOST {
        writeln!(said, "at least {least} calls")
    } else {
        writeln!(said, "{calls} calls")
    }
}

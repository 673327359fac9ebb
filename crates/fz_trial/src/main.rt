//! Runs of the words over files in memory, as the lines of standard input ask for them. It prints what each run answered and left.
//!
//! Reading order: `amiss`, `words`, `shelf`, `lines`; `gates`, `conditions`, `asks`; `named`, `named_store`, `runs`, `patches`;
//! `left`, `facts`, `said`, `sweeps`; `desk`.
#![tactic(auto)]

mod amiss;
mod asks;
mod conditions;
mod desk;
mod facts;
mod gates;
mod left;
mod lines;
mod named;
mod named_store;
mod patches;
mod runs;
mod said;
mod shelf;
mod sweeps;
#[cfg(test)]
mod tests;
mod words;

use amiss::Amiss;
use desk::Desk;
use std::io;
use std::io::{BufRead, BufReader, ErrorKind};
use std::thread::Threads;

fn main(rt: HostRuntime) -> io::Result<()> {
    let mut desk = Desk::new(rt.alloc())?;
    for line in BufReader::new(rt.alloc(), rt.reader())?.lines(rt.alloc()) {
        answer(&rt, &mut desk, &line?)?;
    }
    Ok(())
}

// Does what a line says, and prints what comes of it.
fn answer<R: Threads + Sync + AllocGlobal + Print>(
    rt: &R,
    desk: &mut Desk,
    line: &str,
) -> io::Result<()> {
    let mut said = String::new(rt.alloc());
    match desk.take(rt, line, &mut said) {
        Ok(()) => rt.print(&said),
        Err(Amiss::NotUnderstood) => println!(rt; "? {line}"),
        Err(Amiss::NoMemory) => Err(io::Error::from(ErrorKind::OutOfMemory)),
    }
}

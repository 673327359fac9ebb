//! What is printed of a run.
use crate::amiss::Amiss;
use crate::asks::Ask;
use crate::conditions::Conditions;
use crate::gates::Guard;
use crate::patches::patched;
use crate::runs::outcome_of;
use crate::shelf::Shelf;
use crate::words::{command, first_word, join};
use std::alloc::{AllocError, Global};
use std::thread::Threads;

/// The conditions of a run, and the facts that are asked for.
#[derive(Drop)]
pub(crate) struct Order {
    pub(crate) on: Conditions,
    pub(crate) asks: Vec<Ask>,
}

impl Order {
    /// No conditions, and no facts.
    pub(crate) fn free(alloc: Global) -> Result<Order, AllocError> {
        Ok(Order {
            on: Conditions::free(alloc)?,
            asks: Vec::new(alloc),
        })
    }
}

/// Runs what a line says, FILE and the words, and adds how it ended.
pub(crate) fn say_run<R: Threads + Sync + AllocGlobal>(
    rt: &R,
    shelf: &Shelf,
    line: &str,
    order: &Order,
    said: &mut String,
) -> Result<(), Amiss> {
    let (name, rest) = first_word(line);
    let file = shelf.file(name)?;
    let words = command(rt.alloc(), rest)?;
    add_words(said, &words)?;
    add_run(rt, shelf, file, &words, order, said)?;
    Ok(())
}

/// Runs what a line says, FILE, PATCH and the words of a patch, and adds how it ended.
pub(crate) fn say_patch<R: Threads + Sync + AllocGlobal>(
    rt: &R,
    shelf: &Shelf,
    line: &str,
    order: &Order,
    said: &mut String,
) -> Result<(), Amiss> {
    let (name, rest) = first_word(line);
    let (given, rest) = first_word(rest);
    let file = shelf.file(name)?;
    let patch = shelf.file(given)?;
    let words = command(rt.alloc(), rest)?;
    add_words(said, &words)?;
    let outcome = patched(rt, &words, file, patch, &order.on)?;
    outcome.left().add_to(said, shelf)?;
    outcome.facts().add_to(said, &order.asks)?;
    Ok(())
}

// Adds the words, before what is said of the run.
fn add_words(said: &mut String, words: &[String]) -> Result<(), AllocError> {
    join(said, words)?;
    said.push_str(": ")
}

// Runs the words over a file, and adds how it ended.
fn add_run<R: Threads + Sync + AllocGlobal>(
    rt: &R,
    shelf: &Shelf,
    file: &[u8],
    words: &[String],
    order: &Order,
    said: &mut String,
) -> Result<(), AllocError> {
    let guard = Guard::new(rt.alloc(), order.on.watch)?;
    let outcome = outcome_of(rt, words, file, &order.on, &guard)?;
    outcome.left().add_to(said, shelf)?;
    guard.add_to(said)?;
    outcome.facts().add_to(said, &order.asks)
}
